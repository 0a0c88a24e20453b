//! The states within string literals.

ghost use Rattle.std.specs.Prelude.{◌≡◌};
ghost use Rattle.pj_lex.specs.Characters.{holds};
ghost use Rattle.pj_lex.specs.States.{string_step, string_spelled};

use crate::category::{Category, OPEN_LITERAL};
use crate::state::State;
use crate::text_block::BlockState;
use crate::token::TokenKind;

/// The states within string literals.
#[derive(Clone, Copy, Debug, PartialEq, Eq)]
pub enum StringState {
    /// `"`
    Quote,
    /// `""`
    EmptyString,
    /// characters of a string
    StringBody,
    /// a backslash
    StringEscape,
    /// the closing `"`
    StringEnd,
    /// the same behind a bad escape
    BadStringBody,
    /// a backslash behind a bad escape
    BadStringEscape,
}

/// The state behind one more character, where some word goes on so.
#[tactic(auto, unfolding(crate::specs::States::string_step))]
pub fn after_string(state: StringState, c: char) -> Option<State>
    ensures { result ≡ string_step (λ s. holds s c) state }
{
    match state {
        StringState::Quote => match c {
            '"' => Some(State::Text(StringState::EmptyString)),
            '\\' => Some(State::Text(StringState::StringEscape)),
            '\n' | '\r' => None,
            _ => Some(State::Text(StringState::StringBody)),
        },
        StringState::EmptyString => match c {
            '"' => Some(State::Block(BlockState::BlockOpening)),
            _ => None,
        },
        StringState::StringBody => match c {
            '"' => Some(State::Text(StringState::StringEnd)),
            '\\' => Some(State::Text(StringState::StringEscape)),
            '\n' | '\r' => None,
            _ => Some(State::Text(StringState::StringBody)),
        },
        StringState::StringEscape => match c {
            'b' | 's' | 't' | 'n' | 'f' | 'r' | '"' | '\'' | '\\' => Some(State::Text(
                StringState::StringBody,
            )),
            '0'..='7' => Some(State::Text(StringState::StringBody)),
            '\n' | '\r' => None,
            _ => Some(State::Text(StringState::BadStringBody)),
        },
        StringState::BadStringBody => match c {
            '"' => Some(State::BadEnd),
            '\\' => Some(State::Text(StringState::BadStringEscape)),
            '\n' | '\r' => None,
            _ => Some(State::Text(StringState::BadStringBody)),
        },
        StringState::BadStringEscape => match c {
            '\n' | '\r' => None,
            _ => Some(State::Text(StringState::BadStringBody)),
        },
        StringState::StringEnd => None,
    }
}

/// What was spelled, where the characters read are the whole of a word.
#[tactic(auto, unfolding(crate::specs::States::string_spelled))]
pub fn string_category(state: StringState) -> Option<Category>
    ensures { result ≡ string_spelled state }
{
    match state {
        StringState::Quote => Some(Category::Fault(OPEN_LITERAL)),
        StringState::EmptyString | StringState::StringEnd => Some(Category::Token(
            TokenKind::StringLiteral,
        )),
        StringState::StringBody
        | StringState::StringEscape
        | StringState::BadStringBody
        | StringState::BadStringEscape => None,
    }
}
