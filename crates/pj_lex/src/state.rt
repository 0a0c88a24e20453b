//! The scanner's states. Each stands for what was read of a token.

ghost use Rattle.std.specs.Prelude.{◌≡◌};
ghost use Rattle.pj_lex.specs.Characters.{holds};
ghost use Rattle.pj_lex.specs.States.{step, spelled, first_step};

use crate::category::{BAD_ESCAPE, Category};
use crate::char_literal::{CharState, after_char, char_category};
use crate::characters::{continues_name, starts_name};
use crate::comment::{CommentState, after_comment, comment_category};
use crate::float::{FloatState, after_float, float_category};
use crate::hex::{HexState, after_hex, hex_category};
use crate::integer::{IntegerState, after_integer, integer_category};
use crate::sign::{SignState, after_sign, sign_category};
use crate::string_literal::{StringState, after_string, string_category};
use crate::text_block::{BlockState, after_block, block_category};

/// What was read of a token.
#[derive(Clone, Copy, Debug, PartialEq, Eq)]
pub enum State {
    /// nothing
    Start,
    /// a name
    Name,
    /// a literal with a bad escape, up to its end
    BadEnd,
    Sign(SignState),
    Integer(IntegerState),
    Hex(HexState),
    Float(FloatState),
    Char(CharState),
    Text(StringState),
    Block(BlockState),
    Comment(CommentState),
}

/// The state that a token's first character leads to.
#[tactic(auto, unfolding(crate::specs::States::first_step))]
fn first(c: char) -> Option<State>
    ensures { result ≡ first_step (λ s. holds s c) }
{
    if starts_name(c) {
        return Some(State::Name);
    }
    match c {
        '0' => Some(State::Integer(IntegerState::Zero)),
        '1'..='9' => Some(State::Integer(IntegerState::Decimal)),
        '\'' => Some(State::Char(CharState::Apostrophe)),
        '"' => Some(State::Text(StringState::Quote)),
        '(' => Some(State::Sign(SignState::LeftParenthesis)),
        ')' => Some(State::Sign(SignState::RightParenthesis)),
        '{' => Some(State::Sign(SignState::LeftBrace)),
        '}' => Some(State::Sign(SignState::RightBrace)),
        '[' => Some(State::Sign(SignState::LeftBracket)),
        ']' => Some(State::Sign(SignState::RightBracket)),
        ';' => Some(State::Sign(SignState::Semicolon)),
        ',' => Some(State::Sign(SignState::Comma)),
        '.' => Some(State::Sign(SignState::Dot)),
        '@' => Some(State::Sign(SignState::At)),
        '=' => Some(State::Sign(SignState::Assign)),
        '<' => Some(State::Sign(SignState::Less)),
        '!' => Some(State::Sign(SignState::Bang)),
        '~' => Some(State::Sign(SignState::Tilde)),
        '?' => Some(State::Sign(SignState::Question)),
        ':' => Some(State::Sign(SignState::Colon)),
        '+' => Some(State::Sign(SignState::Plus)),
        '-' => Some(State::Sign(SignState::Minus)),
        '*' => Some(State::Sign(SignState::Star)),
        '/' => Some(State::Sign(SignState::Slash)),
        '&' => Some(State::Sign(SignState::Ampersand)),
        '|' => Some(State::Sign(SignState::Bar)),
        '^' => Some(State::Sign(SignState::Caret)),
        '%' => Some(State::Sign(SignState::Percent)),
        '>' => Some(State::Sign(SignState::Greater)),
        _ => None,
    }
}

/// The state behind one more character, where some word goes on so.
pub fn step(state: State, c: char) -> Option<State>
    ensures { result ≡ step (λ s. holds s c) state }
{
    match state {
        State::Start => first(c),
        State::Name => {
            if continues_name(c) {
                Some(State::Name)
            } else {
                None
            }
        }
        State::BadEnd => None,
        State::Sign(state) => after_sign(state, c),
        State::Integer(state) => after_integer(state, c),
        State::Hex(state) => after_hex(state, c),
        State::Float(state) => after_float(state, c),
        State::Char(state) => after_char(state, c),
        State::Text(state) => after_string(state, c),
        State::Block(state) => after_block(state, c),
        State::Comment(state) => after_comment(state, c),
    }
}

/// What was spelled, where the characters read are the whole of a word.
pub fn category(state: State) -> Option<Category>
    ensures { result ≡ spelled state }
{
    match state {
        State::Start => None,
        State::Name => Some(Category::Name),
        State::BadEnd => Some(Category::Fault(BAD_ESCAPE)),
        State::Sign(state) => sign_category(state),
        State::Integer(state) => integer_category(state),
        State::Hex(state) => hex_category(state),
        State::Float(state) => float_category(state),
        State::Char(state) => char_category(state),
        State::Text(state) => string_category(state),
        State::Block(state) => block_category(state),
        State::Comment(state) => comment_category(state),
    }
}
