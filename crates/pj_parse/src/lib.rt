//! Whole Java files: from the bytes of a source file to its text, tokens, syntax tree and pool, or its first fault.
//!
//! `specs/JavaFile.antt` says what bytes are as a Java file, `outcome_of` of `specs/FileOutcome.antt` is the one outcome that
//! comes of them, and `specs/OwnTokens.antt` says which tokens the nodes of the tree have. The pool of a tree has its texts
//! that are no stretches of its text: the values of literals, and names of several identifiers.
#![tactic(auto)]

mod content;
mod entry;
mod fault;
mod file;
mod file_fault;
mod laws;
mod lexing;
mod message;
mod names;
mod parsing;
mod pool;

pub use fault::ParseFault;
pub use file::{parse_file, parse_file_by, read_file};
pub use file_fault::{FileFault, FileRefused};
pub use laws::{
    faults_stand_in_text, file_has_one_outcome, text_has_one_outcome, words_are_own_tokens,
};
pub use lexing::tokens;
pub use message::fault_message;
pub use parsing::{Parsed, parse, parse_by};
pub use pool::Pool;
