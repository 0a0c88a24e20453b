//! The states behind a decimal point or an exponent mark.

ghost use Rattle.std.specs.Prelude.{◌≡◌};
ghost use Rattle.pj_lex.specs.Characters.{holds};
ghost use Rattle.pj_lex.specs.States.{float_step, float_spelled};

use crate::category::Category;
use crate::state::State;
use crate::token::TokenKind;

/// The states behind a decimal point or an exponent mark.
#[derive(Clone, Copy, Debug, PartialEq, Eq)]
pub enum FloatState {
    /// digits and a point
    Point,
    /// the digits behind the point
    Fraction,
    /// the same, and an underscore
    FractionUnderscore,
    /// an exponent mark
    Exponent,
    /// its sign
    ExponentSign,
    /// its digits
    ExponentDigit,
    /// the same, and an underscore
    ExponentUnderscore,
    /// a float with its suffix
    FloatEnd,
}

/// The state behind one more character, where some word goes on so.
#[tactic(auto, unfolding(crate::specs::States::float_step))]
pub fn after_float(state: FloatState, c: char) -> Option<State>
    ensures { result ≡ float_step (λ s. holds s c) state }
{
    match state {
        FloatState::Point => match c {
            '0'..='9' => Some(State::Float(FloatState::Fraction)),
            'e' | 'E' => Some(State::Float(FloatState::Exponent)),
            'f' | 'F' | 'd' | 'D' => Some(State::Float(FloatState::FloatEnd)),
            _ => None,
        },
        FloatState::Fraction => match c {
            '0'..='9' => Some(State::Float(FloatState::Fraction)),
            '_' => Some(State::Float(FloatState::FractionUnderscore)),
            'e' | 'E' => Some(State::Float(FloatState::Exponent)),
            'f' | 'F' | 'd' | 'D' => Some(State::Float(FloatState::FloatEnd)),
            _ => None,
        },
        FloatState::FractionUnderscore => match c {
            '0'..='9' => Some(State::Float(FloatState::Fraction)),
            '_' => Some(State::Float(FloatState::FractionUnderscore)),
            _ => None,
        },
        FloatState::Exponent => match c {
            '+' | '-' => Some(State::Float(FloatState::ExponentSign)),
            '0'..='9' => Some(State::Float(FloatState::ExponentDigit)),
            _ => None,
        },
        FloatState::ExponentSign => match c {
            '0'..='9' => Some(State::Float(FloatState::ExponentDigit)),
            _ => None,
        },
        FloatState::ExponentDigit => match c {
            '0'..='9' => Some(State::Float(FloatState::ExponentDigit)),
            '_' => Some(State::Float(FloatState::ExponentUnderscore)),
            'f' | 'F' | 'd' | 'D' => Some(State::Float(FloatState::FloatEnd)),
            _ => None,
        },
        FloatState::ExponentUnderscore => match c {
            '0'..='9' => Some(State::Float(FloatState::ExponentDigit)),
            '_' => Some(State::Float(FloatState::ExponentUnderscore)),
            _ => None,
        },
        FloatState::FloatEnd => None,
    }
}

/// What was spelled, where the characters read are the whole of a word.
#[tactic(auto, unfolding(crate::specs::States::float_spelled))]
pub fn float_category(state: FloatState) -> Option<Category>
    ensures { result ≡ float_spelled state }
{
    match state {
        FloatState::Point
        | FloatState::Fraction
        | FloatState::ExponentDigit
        | FloatState::FloatEnd => Some(Category::Number(TokenKind::FloatLiteral)),
        FloatState::FractionUnderscore
        | FloatState::Exponent
        | FloatState::ExponentSign
        | FloatState::ExponentUnderscore => None,
    }
}
