//! The derivations of XPath's expressions.
//!
//! The table of the code is proved to be the grammar of `pj_xgrammar`, and the grammar to be LL(1), so the predictive parser of
//! `pj_ll` is exact for it. `specs/Expressions.antt` says of lists of tokens which are an expression, and what the first fault of
//! every other one is; `derivation` gives the derivation or the fault, by a `Parser` that is made once for any number of them.
#![tactic(auto)]

mod derive;
mod grammar;
mod laws;
mod parser;
mod table;

pub use derive::derivation;
pub use grammar::productions;
pub use laws::{
    beginnings_lead, grammar_is_predictive, one_derivation, one_outcome, one_run,
    runs_end_before_faults,
};
pub use parser::Parser;
