//! Calls of a Java file: of methods, of `new`, and of `this` or `super` at the beginning of a constructor (JLS 8.8.7.1, 15.9, 15.12). Which methods or constructors are the candidates, which of
//! them is chosen by the types of the arguments, and the type of the call. Computations that ask an oracle for classes, which answers those of the file too.
//!
//! The types of the receiver and of the arguments are given.
#![tactic(auto)]

mod candidates;
mod choosing;
mod constructors;
mod laws;
mod nodes;
mod of_nodes;
mod results;
mod unqualified;

pub use candidates::Candidates;
pub use choosing::{Chosen, chosen_among};
pub use laws::{one_is_chosen, sources_agree, unknown_receivers};
pub use nodes::{arguments_of, functions_of, receiver_of};
pub use of_nodes::candidates_of;
pub use results::{chosen_result, result_or_unknown, result_type};
