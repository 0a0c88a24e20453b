//! Caches of format 1 carried over to format 2: what each becomes, and that it is right where the old one was.
#![tactic(auto)]

mod laws;

pub use laws::carried_caches_are_right;
