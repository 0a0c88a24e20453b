//! Signature patterns of rules, such as `java.util.List#add(_,int)`: the language, its reading, and names of types as rules write them.
#![tactic(auto)]

mod cuts;
mod identifiers;
mod laws;
mod pattern;
mod read;
mod type_names;

pub use identifiers::is_identifier;
pub use laws::patterns_are_one;
pub use pattern::{MethodPattern, ParametersPattern, SigPattern, TypePattern, TypePatterns};
pub use type_names::{component_of, is_type_name};
