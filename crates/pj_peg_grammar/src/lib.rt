//! Parsing grammars (B. Ford, Parsing Expression Grammars, 2004): what they are made of, what they derive, and the test whether
//! one is well-formed.
//!
//! What an item takes is the relation `Derives` of `specs/Derives.antt`, and a derivation as a tree with the steps that it
//! spells is in `specs/Derivation.antt`. `specs/WellFormed.antt` says which grammars are well-formed; in such a grammar each
//! rule has exactly one outcome at each place, which is the contract of `one_outcome`.
//!
//! `analyse` works out of a grammar's rules, once, what their test and a search need: a program, which has the items as a flat
//! list of nodes, and of each node the kinds of tokens of which one can stand where it goes on. `first_fault` is the test. The
//! other files of `specs/` serve the contracts of these two.
#![tactic(auto)]

mod analysis;
mod check;
mod compile;
mod derivation;
mod fault;
mod firsts;
mod graph;
mod item;
mod laws;
mod program;

pub use analysis::Facts;
pub use check::{Analysis, analyse, first_fault};
pub use derivation::{Derivation, Step};
pub use fault::GrammarFault;
pub use firsts::KINDS;
pub use graph::Placing;
pub use item::{Item, Items};
pub use laws::{one_outcome, steps_are_in_text};
pub use program::{Node, Program};
