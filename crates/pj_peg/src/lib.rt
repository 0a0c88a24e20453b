//! The derivation of a well-formed grammar's first rule over a text of token kinds.
//!
//! What grammars are, which are well-formed, and what they derive is said in `pj_peg_grammar`. The files of `specs/` here serve
//! the contracts inside the crate.
//!
//! `run` keeps a table of where rules and repetitions end at places. It asks for the end of the first rule and, from there on, only
//! for what is needed; an answer that was found is not looked for again. A rule or a repetition that the token at a place rules
//! out is not in the table there, and not looked at. The search calls itself down to a bounded depth; beyond that, what it was
//! looking for waits on a stack of its own, so nesting in the text costs no stack. No clause says how long it takes, nor that
//! the loops over this stack come to their end before their counters do: that is measured.
#![tactic(auto)]

mod ask;
mod calls;
mod evaluate;
mod grammar;
mod plan;
mod runner;
mod slots;
mod table;

pub use grammar::{Grammar, WellFormed};
pub use runner::run;
