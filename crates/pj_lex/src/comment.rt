//! The states within comments.

ghost use Rattle.std.specs.Prelude.{◌≡◌};
ghost use Rattle.pj_lex.specs.Characters.{holds};
ghost use Rattle.pj_lex.specs.States.{comment_step, comment_spelled};

use crate::category::{Category, OPEN_COMMENT};
use crate::state::State;
use crate::token::TokenKind;

/// The states within comments.
#[derive(Clone, Copy, Debug, PartialEq, Eq)]
pub enum CommentState {
    /// `//` and what follows on the line
    LineComment,
    /// `/*`
    CommentOpening,
    /// characters of the comment
    CommentBody,
    /// one `*` or more in it
    CommentStar,
    /// the closing `*/`
    CommentEnd,
}

/// The state behind one more character, where some word goes on so.
#[tactic(auto, unfolding(crate::specs::States::comment_step))]
pub fn after_comment(state: CommentState, c: char) -> Option<State>
    ensures { result ≡ comment_step (λ s. holds s c) state }
{
    match state {
        CommentState::LineComment => match c {
            '\n' | '\r' => None,
            _ => Some(State::Comment(CommentState::LineComment)),
        },
        CommentState::CommentOpening => match c {
            '*' => Some(State::Comment(CommentState::CommentStar)),
            _ => Some(State::Comment(CommentState::CommentBody)),
        },
        CommentState::CommentBody => match c {
            '*' => Some(State::Comment(CommentState::CommentStar)),
            _ => Some(State::Comment(CommentState::CommentBody)),
        },
        CommentState::CommentStar => match c {
            '*' => Some(State::Comment(CommentState::CommentStar)),
            '/' => Some(State::Comment(CommentState::CommentEnd)),
            _ => Some(State::Comment(CommentState::CommentBody)),
        },
        CommentState::CommentEnd => None,
    }
}

/// What was spelled, where the characters read are the whole of a word.
#[tactic(auto, unfolding(crate::specs::States::comment_spelled))]
pub fn comment_category(state: CommentState) -> Option<Category>
    ensures { result ≡ comment_spelled state }
{
    match state {
        CommentState::LineComment | CommentState::CommentEnd => Some(Category::Token(
            TokenKind::Comment,
        )),
        CommentState::CommentOpening => Some(Category::Fault(OPEN_COMMENT)),
        CommentState::CommentBody | CommentState::CommentStar => None,
    }
}
