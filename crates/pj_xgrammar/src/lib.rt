//! The grammar of XPath expressions: XPath 2.0, with `let`, `||` and `!` of XPath 3.1, as far as it is taken.
//!
//! `specs/XPath.antt` is the grammar, rule by rule, in the notation of `specs/Notation.antt`; `specs/Terminals.antt` says what a
//! token is for it, given the token behind.
#![tactic(auto)]

mod laws;
mod rule;
mod terminal;
mod word;

pub use laws::{rules_have_their_numbers, terminals_have_their_numbers};
pub use rule::Rule;
pub use terminal::{
    Behind, DECIMAL, DOUBLE, INTEGER, KEYWORDS, LONE_SLASH, NAME, PHRASES, SIGNS, STRING, Terminal,
};
pub use word::{Keyword, Phrase, Word, word_of};
