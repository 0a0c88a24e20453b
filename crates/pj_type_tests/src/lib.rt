//! What types are by the names that rules write: canonical and binary names of classes, words of primitive types and names of arrays; and whether a method is as a
//! signature pattern says.
#![tactic(auto)]

mod classes;
mod methods;
mod names;
mod types;

pub use methods::{is_called_on, is_method_named};
pub use names::{has_name, is_class_called};
pub use types::type_is;
