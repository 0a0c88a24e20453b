//! Caches of format 1 carried over to format 2.
#![tactic(auto)]

mod carrying;
mod entries;
mod firsts;
mod form;
mod rows;

pub use carrying::carry;
