//! The states within hexadecimal digits.

ghost use Rattle.std.specs.Prelude.{◌≡◌};
ghost use Rattle.pj_lex.specs.Characters.{holds};
ghost use Rattle.pj_lex.specs.States.{hex_step, hex_spelled};

use crate::category::Category;
use crate::float::FloatState;
use crate::integer::IntegerState;
use crate::state::State;
use crate::token::TokenKind;

/// The states within hexadecimal digits.
#[derive(Clone, Copy, Debug, PartialEq, Eq)]
pub enum HexState {
    /// `0x`
    HexMark,
    /// `0x` and digits
    Hex,
    /// the same, and an underscore
    HexUnderscore,
    /// `0x`, digits and a point
    HexPoint,
    /// `0x.`
    HexPointFirst,
    /// the digits behind the point
    HexFraction,
    /// the same, and an underscore
    HexFractionUnderscore,
}

/// The state behind one more character, where some word goes on so.
#[tactic(auto, unfolding(crate::specs::States::hex_step))]
pub fn after_hex(state: HexState, c: char) -> Option<State>
    ensures { result ≡ hex_step (λ s. holds s c) state }
{
    match state {
        HexState::HexMark => match c {
            '0'..='9' | 'A'..='F' | 'a'..='f' => Some(State::Hex(HexState::Hex)),
            '.' => Some(State::Hex(HexState::HexPointFirst)),
            _ => None,
        },
        HexState::Hex => match c {
            '0'..='9' | 'A'..='F' | 'a'..='f' => Some(State::Hex(HexState::Hex)),
            '_' => Some(State::Hex(HexState::HexUnderscore)),
            '.' => Some(State::Hex(HexState::HexPoint)),
            'p' | 'P' => Some(State::Float(FloatState::Exponent)),
            'l' | 'L' => Some(State::Integer(IntegerState::IntegerEnd)),
            _ => None,
        },
        HexState::HexUnderscore => match c {
            '0'..='9' | 'A'..='F' | 'a'..='f' => Some(State::Hex(HexState::Hex)),
            '_' => Some(State::Hex(HexState::HexUnderscore)),
            _ => None,
        },
        HexState::HexPoint => match c {
            '0'..='9' | 'A'..='F' | 'a'..='f' => Some(State::Hex(HexState::HexFraction)),
            'p' | 'P' => Some(State::Float(FloatState::Exponent)),
            _ => None,
        },
        HexState::HexPointFirst => match c {
            '0'..='9' | 'A'..='F' | 'a'..='f' => Some(State::Hex(HexState::HexFraction)),
            _ => None,
        },
        HexState::HexFraction => match c {
            '0'..='9' | 'A'..='F' | 'a'..='f' => Some(State::Hex(HexState::HexFraction)),
            '_' => Some(State::Hex(HexState::HexFractionUnderscore)),
            'p' | 'P' => Some(State::Float(FloatState::Exponent)),
            _ => None,
        },
        HexState::HexFractionUnderscore => match c {
            '0'..='9' | 'A'..='F' | 'a'..='f' => Some(State::Hex(HexState::HexFraction)),
            '_' => Some(State::Hex(HexState::HexFractionUnderscore)),
            _ => None,
        },
    }
}

/// What was spelled, where the characters read are the whole of a word.
#[tactic(auto, unfolding(crate::specs::States::hex_spelled))]
pub fn hex_category(state: HexState) -> Option<Category>
    ensures { result ≡ hex_spelled state }
{
    match state {
        HexState::HexMark
        | HexState::HexUnderscore
        | HexState::HexPoint
        | HexState::HexPointFirst
        | HexState::HexFraction
        | HexState::HexFractionUnderscore => None,
        HexState::Hex => Some(Category::Number(TokenKind::IntLiteral)),
    }
}
