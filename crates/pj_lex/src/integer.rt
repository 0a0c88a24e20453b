//! The states within decimal, octal and binary digits.

ghost use Rattle.std.specs.Prelude.{◌≡◌};
ghost use Rattle.pj_lex.specs.Characters.{holds};
ghost use Rattle.pj_lex.specs.States.{int_step, int_spelled};

use crate::category::Category;
use crate::float::FloatState;
use crate::hex::HexState;
use crate::state::State;
use crate::token::TokenKind;

/// The states within decimal, octal and binary digits.
#[derive(Clone, Copy, Debug, PartialEq, Eq)]
pub enum IntegerState {
    /// `0`
    Zero,
    /// `0` and octal digits
    Octal,
    /// the same, and an underscore
    OctalUnderscore,
    /// `0` and digits of which one is not octal, as `08`: a point, an exponent or a suffix has to come
    PointAwaited,
    /// the same, and an underscore
    PointAwaitedUnderscore,
    /// digits of which the first is not `0`
    Decimal,
    /// the same, and an underscore
    DecimalUnderscore,
    /// `0b`
    BinaryMark,
    /// `0b` and binary digits
    Binary,
    /// the same, and an underscore
    BinaryUnderscore,
    /// an integer with its suffix
    IntegerEnd,
}

/// The state behind one more character, where some word goes on so.
#[tactic(auto, unfolding(crate::specs::States::int_step))]
pub fn after_integer(state: IntegerState, c: char) -> Option<State>
    ensures { result ≡ int_step (λ s. holds s c) state }
{
    match state {
        IntegerState::Zero => match c {
            '0'..='7' => Some(State::Integer(IntegerState::Octal)),
            '0'..='9' => Some(State::Integer(IntegerState::PointAwaited)),
            '_' => Some(State::Integer(IntegerState::OctalUnderscore)),
            'x' | 'X' => Some(State::Hex(HexState::HexMark)),
            'b' | 'B' => Some(State::Integer(IntegerState::BinaryMark)),
            '.' => Some(State::Float(FloatState::Point)),
            'e' | 'E' => Some(State::Float(FloatState::Exponent)),
            'f' | 'F' | 'd' | 'D' => Some(State::Float(FloatState::FloatEnd)),
            'l' | 'L' => Some(State::Integer(IntegerState::IntegerEnd)),
            _ => None,
        },
        IntegerState::Octal => match c {
            '0'..='7' => Some(State::Integer(IntegerState::Octal)),
            '0'..='9' => Some(State::Integer(IntegerState::PointAwaited)),
            '_' => Some(State::Integer(IntegerState::OctalUnderscore)),
            '.' => Some(State::Float(FloatState::Point)),
            'e' | 'E' => Some(State::Float(FloatState::Exponent)),
            'f' | 'F' | 'd' | 'D' => Some(State::Float(FloatState::FloatEnd)),
            'l' | 'L' => Some(State::Integer(IntegerState::IntegerEnd)),
            _ => None,
        },
        IntegerState::OctalUnderscore => match c {
            '0'..='7' => Some(State::Integer(IntegerState::Octal)),
            '0'..='9' => Some(State::Integer(IntegerState::PointAwaited)),
            '_' => Some(State::Integer(IntegerState::OctalUnderscore)),
            _ => None,
        },
        IntegerState::PointAwaited => match c {
            '0'..='9' => Some(State::Integer(IntegerState::PointAwaited)),
            '_' => Some(State::Integer(IntegerState::PointAwaitedUnderscore)),
            '.' => Some(State::Float(FloatState::Point)),
            'e' | 'E' => Some(State::Float(FloatState::Exponent)),
            'f' | 'F' | 'd' | 'D' => Some(State::Float(FloatState::FloatEnd)),
            _ => None,
        },
        IntegerState::PointAwaitedUnderscore => match c {
            '0'..='9' => Some(State::Integer(IntegerState::PointAwaited)),
            '_' => Some(State::Integer(IntegerState::PointAwaitedUnderscore)),
            _ => None,
        },
        IntegerState::Decimal => match c {
            '0'..='9' => Some(State::Integer(IntegerState::Decimal)),
            '_' => Some(State::Integer(IntegerState::DecimalUnderscore)),
            '.' => Some(State::Float(FloatState::Point)),
            'e' | 'E' => Some(State::Float(FloatState::Exponent)),
            'f' | 'F' | 'd' | 'D' => Some(State::Float(FloatState::FloatEnd)),
            'l' | 'L' => Some(State::Integer(IntegerState::IntegerEnd)),
            _ => None,
        },
        IntegerState::DecimalUnderscore => match c {
            '0'..='9' => Some(State::Integer(IntegerState::Decimal)),
            '_' => Some(State::Integer(IntegerState::DecimalUnderscore)),
            _ => None,
        },
        IntegerState::BinaryMark => match c {
            '0' | '1' => Some(State::Integer(IntegerState::Binary)),
            _ => None,
        },
        IntegerState::Binary => match c {
            '0' | '1' => Some(State::Integer(IntegerState::Binary)),
            '_' => Some(State::Integer(IntegerState::BinaryUnderscore)),
            'l' | 'L' => Some(State::Integer(IntegerState::IntegerEnd)),
            _ => None,
        },
        IntegerState::BinaryUnderscore => match c {
            '0' | '1' => Some(State::Integer(IntegerState::Binary)),
            '_' => Some(State::Integer(IntegerState::BinaryUnderscore)),
            _ => None,
        },
        IntegerState::IntegerEnd => None,
    }
}

/// What was spelled, where the characters read are the whole of a word.
#[tactic(auto, unfolding(crate::specs::States::int_spelled))]
pub fn integer_category(state: IntegerState) -> Option<Category>
    ensures { result ≡ int_spelled state }
{
    match state {
        IntegerState::Zero
        | IntegerState::Octal
        | IntegerState::Decimal
        | IntegerState::Binary
        | IntegerState::IntegerEnd => Some(Category::Number(TokenKind::IntLiteral)),
        IntegerState::OctalUnderscore
        | IntegerState::PointAwaited
        | IntegerState::PointAwaitedUnderscore
        | IntegerState::DecimalUnderscore
        | IntegerState::BinaryMark
        | IntegerState::BinaryUnderscore => None,
    }
}
