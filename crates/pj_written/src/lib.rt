//! What the declarations of a Java file write: names of types, headers of classes, flags and types of members, and how they are spelled as the
//! signatures of class files (JLS 8, JVMS 4.7.9.1). Nothing is looked up, and nothing outside the file is asked.
//!
//! Calls take a step for each node, word or part that they look at.
#![tactic(auto)]

mod flags;
mod headers;
mod laws;
mod limits;
mod names;
mod nodes;
mod spelling;
mod types;
mod written;

pub use flags::{CONSTANT_FLAGS, class_flags, field_flags, method_flags};
pub use headers::{
    all_bounds, bounds_of, class_text, created, enum_around, implied_supertypes, is_constant_body,
    written_supertypes,
};
pub use laws::{fits_end, written_names_end};
pub use limits::{MOST_SIGNS, bare, brackets, fits};
pub use names::{around_last_dot, last_part, member_name, next_candidate, with_dots};
pub use nodes::{
    Nodes, below_child, bracket_count, is_interface, is_regular_interface, last_child, type_child,
};
pub use spelling::{Parameter, Parameters, class_signature, method_signature, type_signature};
pub use types::{arguments_of, arrays, class_of_text, object_type, primitive_of};
pub use written::{Written, name_of_text, written_name};
