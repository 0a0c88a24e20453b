//! Runs over several worlds, one after the other, over one keeper: what a server does that keeps a cache between edits. Whatever worlds came before, each report is the cold
//! one of its world.
#![tactic(auto)]

mod fault;
mod laws;
mod runs;
#[cfg(test)]
mod tests;
mod world;

pub use fault::SessionFault;
pub use laws::{first_refusals_are_told, one_list_of_reports};
pub use runs::{Reports, session};
pub use world::{World, Worlds};
