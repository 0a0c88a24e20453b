//! The states within character literals.

ghost use Rattle.std.specs.Prelude.{◌≡◌};
ghost use Rattle.pj_lex.specs.Characters.{holds};
ghost use Rattle.pj_lex.specs.States.{char_step, char_spelled};

use crate::category::{Category, OPEN_LITERAL};
use crate::state::State;
use crate::token::TokenKind;

/// The states within character literals.
#[derive(Clone, Copy, Debug, PartialEq, Eq)]
pub enum CharState {
    /// `'`
    Apostrophe,
    /// the one character is complete
    CharBody,
    /// a backslash
    CharEscape,
    /// a backslash and `0` to `3`
    CharOctal,
    /// an octal escape that one more digit can end
    CharOctalShort,
    /// the closing `'`
    CharEnd,
    /// a backslash and what makes no escape
    BadCharBody,
}

/// The state behind one more character, where some word goes on so.
#[tactic(auto, unfolding(crate::specs::States::char_step))]
pub fn after_char(state: CharState, c: char) -> Option<State>
    ensures { result ≡ char_step (λ s. holds s c) state }
{
    match state {
        CharState::Apostrophe => match c {
            '\\' => Some(State::Char(CharState::CharEscape)),
            '\'' | '\n' | '\r' => None,
            _ => Some(State::Char(CharState::CharBody)),
        },
        CharState::CharBody => match c {
            '\'' => Some(State::Char(CharState::CharEnd)),
            _ => None,
        },
        CharState::CharEscape => match c {
            'b' | 's' | 't' | 'n' | 'f' | 'r' | '"' | '\'' | '\\' => Some(State::Char(
                CharState::CharBody,
            )),
            '0'..='3' => Some(State::Char(CharState::CharOctal)),
            '0'..='7' => Some(State::Char(CharState::CharOctalShort)),
            '\n' | '\r' => None,
            _ => Some(State::Char(CharState::BadCharBody)),
        },
        CharState::CharOctal => match c {
            '\'' => Some(State::Char(CharState::CharEnd)),
            '0'..='7' => Some(State::Char(CharState::CharOctalShort)),
            _ => None,
        },
        CharState::CharOctalShort => match c {
            '\'' => Some(State::Char(CharState::CharEnd)),
            '0'..='7' => Some(State::Char(CharState::CharBody)),
            _ => None,
        },
        CharState::BadCharBody => match c {
            '\'' => Some(State::BadEnd),
            _ => None,
        },
        CharState::CharEnd => None,
    }
}

/// What was spelled, where the characters read are the whole of a word.
#[tactic(auto, unfolding(crate::specs::States::char_spelled))]
pub fn char_category(state: CharState) -> Option<Category>
    ensures { result ≡ char_spelled state }
{
    match state {
        CharState::Apostrophe => Some(Category::Fault(OPEN_LITERAL)),
        CharState::CharBody
        | CharState::CharEscape
        | CharState::CharOctal
        | CharState::CharOctalShort
        | CharState::BadCharBody => None,
        CharState::CharEnd => Some(Category::Token(TokenKind::CharLiteral)),
    }
}
