//! The modifiers of declarations: those that are written, and those that hold by the rules of Java.
//!
//! No call takes memory. Each takes a few steps for each modifier that is written; whether an enum class is final takes a
//! step for each of its constants.
#![tactic(auto)]

mod effective;
mod explicit;
mod interface;
mod sets;

pub use effective::is_effective;
pub use explicit::{bearer_of, is_explicit};
pub use interface::is_interface;
pub use sets::{effective_modifiers, explicit_modifiers};
