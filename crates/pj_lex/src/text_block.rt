//! The states within text blocks.

ghost use Rattle.std.specs.Prelude.{◌≡◌};
ghost use Rattle.pj_lex.specs.Characters.{holds};
ghost use Rattle.pj_lex.specs.States.{block_step, block_spelled};

use crate::category::{Category, OPEN_LITERAL};
use crate::state::State;
use crate::token::TokenKind;

/// The states within text blocks.
#[derive(Clone, Copy, Debug, PartialEq, Eq)]
pub enum BlockState {
    /// `"""`
    BlockOpening,
    /// white space behind it
    BlockOpeningLine,
    /// characters of the block
    BlockBody,
    /// one quote in it
    BlockQuote,
    /// two quotes in it
    BlockQuotes,
    /// a backslash
    BlockEscape,
    /// the closing `"""`
    BlockEnd,
    /// the same behind a bad escape
    BadBlockBody,
    /// one quote there
    BadBlockQuote,
    /// two quotes there
    BadBlockQuotes,
    /// a backslash there
    BadBlockEscape,
}

/// The state behind one more character, where some word goes on so.
#[tactic(auto, unfolding(crate::specs::States::block_step))]
pub fn after_block(state: BlockState, c: char) -> Option<State>
    ensures { result ≡ block_step (λ s. holds s c) state }
{
    match state {
        BlockState::BlockOpening => match c {
            ' ' | '\t' | '\x0c' => Some(State::Block(BlockState::BlockOpeningLine)),
            '\n' | '\r' => Some(State::Block(BlockState::BlockBody)),
            _ => None,
        },
        BlockState::BlockOpeningLine => match c {
            ' ' | '\t' | '\x0c' => Some(State::Block(BlockState::BlockOpeningLine)),
            '\n' | '\r' => Some(State::Block(BlockState::BlockBody)),
            _ => None,
        },
        BlockState::BlockBody => match c {
            '"' => Some(State::Block(BlockState::BlockQuote)),
            '\\' => Some(State::Block(BlockState::BlockEscape)),
            _ => Some(State::Block(BlockState::BlockBody)),
        },
        BlockState::BlockQuote => match c {
            '"' => Some(State::Block(BlockState::BlockQuotes)),
            '\\' => Some(State::Block(BlockState::BlockEscape)),
            _ => Some(State::Block(BlockState::BlockBody)),
        },
        BlockState::BlockQuotes => match c {
            '"' => Some(State::Block(BlockState::BlockEnd)),
            '\\' => Some(State::Block(BlockState::BlockEscape)),
            _ => Some(State::Block(BlockState::BlockBody)),
        },
        BlockState::BlockEscape => match c {
            'b' | 's' | 't' | 'n' | 'f' | 'r' | '"' | '\'' | '\\' => Some(State::Block(
                BlockState::BlockBody,
            )),
            '0'..='7' => Some(State::Block(BlockState::BlockBody)),
            '\n' | '\r' => Some(State::Block(BlockState::BlockBody)),
            _ => Some(State::Block(BlockState::BadBlockBody)),
        },
        BlockState::BadBlockBody => match c {
            '"' => Some(State::Block(BlockState::BadBlockQuote)),
            '\\' => Some(State::Block(BlockState::BadBlockEscape)),
            _ => Some(State::Block(BlockState::BadBlockBody)),
        },
        BlockState::BadBlockQuote => match c {
            '"' => Some(State::Block(BlockState::BadBlockQuotes)),
            '\\' => Some(State::Block(BlockState::BadBlockEscape)),
            _ => Some(State::Block(BlockState::BadBlockBody)),
        },
        BlockState::BadBlockQuotes => match c {
            '"' => Some(State::BadEnd),
            '\\' => Some(State::Block(BlockState::BadBlockEscape)),
            _ => Some(State::Block(BlockState::BadBlockBody)),
        },
        BlockState::BadBlockEscape => match c {
            _ => Some(State::Block(BlockState::BadBlockBody)),
        },
        BlockState::BlockEnd => None,
    }
}

/// What was spelled, where the characters read are the whole of a word.
#[tactic(auto, unfolding(crate::specs::States::block_spelled))]
pub fn block_category(state: BlockState) -> Option<Category>
    ensures { result ≡ block_spelled state }
{
    match state {
        BlockState::BlockOpening => Some(Category::Fault(OPEN_LITERAL)),
        BlockState::BlockOpeningLine
        | BlockState::BlockBody
        | BlockState::BlockQuote
        | BlockState::BlockQuotes
        | BlockState::BlockEscape
        | BlockState::BadBlockBody
        | BlockState::BadBlockQuote
        | BlockState::BadBlockQuotes
        | BlockState::BadBlockEscape => None,
        BlockState::BlockEnd => Some(Category::Token(TokenKind::TextBlock)),
    }
}
