//! The choice of a method among candidates (JLS 15.12.2).
#![tactic(auto)]

mod applicable;
mod candidates;
mod choice;
mod choosing;
mod conversions;
mod laws;
mod passed;
mod phase;
mod specific;
mod variable_arity;

pub use choice::Choice;
pub use choosing::choose;
pub use laws::{one_is_a_candidate, sources_agree};
