//! The grammar of Java 17: its rules, its terminals, and what each rule makes.
//!
//! `specs/Java17.antt` is the grammar, rule by rule, as `docs/java-grammar.md` explains it; `specs/Notation.antt` is the
//! notation, and `specs/Terminal.antt` says which terminal a token is. The tables of the code are proved to be that grammar,
//! and the grammar to be well-formed. A table is a flat list of pieces, the items of the rules, each before its parts; what
//! such a list stands for is `decoded` of `specs/Piece.antt`, and `items_of` makes the items.
#![tactic(auto)]

mod decoder;
mod grammar;
mod laws;
mod piece;
mod rule;
mod shaping;
mod table;
mod terminal;
mod words;

pub use decoder::items_of;
pub use grammar::{java_17, shapes};
pub use laws::{
    file_is_one_node, grammar_is_well_formed, rules_have_their_numbers,
    terminals_have_their_numbers,
};
pub use piece::Piece;
pub use rule::Rule;
pub use shaping::shape;
pub use terminal::{ContextualWord, Terminal};
pub use words::word_terminals;
