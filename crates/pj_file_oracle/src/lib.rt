//! The oracle of a Java file: it answers the classes of the file from their declarations, and asks every other name of the oracle beneath.
//!
//! A class is answered with its flags, its signature, and its members as they are written, whose types are resolved at their places (JVMS 4.1, 4.5,
//! 4.6, 4.7.9.1), for which the classes of these types are asked. An answer is made once, and held.
#![tactic(auto)]

mod anonymous;
mod answer;
mod fields;
mod file_oracle;
mod headers;
mod held;
mod laws;
mod members;
mod methods;
mod named;
mod nodes;
mod supertypes;
mod types;

pub use anonymous::{enum_type, is_interface_type};
pub use file_oracle::{FileOracle, resolve_type};
pub use held::{Held, HeldAnswer, HeldAnswers};
pub use laws::sources_agree;
pub use named::implied_superclass;
pub use supertypes::supertype;
