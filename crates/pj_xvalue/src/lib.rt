//! XPath: values.
//!
//! Items and sequences with their effective boolean value and their general comparison, the errors, what parameters take of arguments,
//! and the two traits by which an evaluator asks for attributes and for the functions of PMD.
#![tactic(auto)]

mod arguments;
mod boolean;
mod calls;
mod comparison;
mod fault;
mod item;
mod laws;
mod modifiers;
mod sequence;
mod value;

pub use arguments::{
    atomic_argument, boolean_singleton, count_singleton, integer_argument, integer_singleton,
    integers_argument, optional_integer_argument, optional_string_argument, singleton,
    string_argument, string_singleton,
};
pub use boolean::boolean_value;
pub use calls::{Attributes, Calls};
pub use comparison::compare;
pub use fault::{XCode, XFault};
pub use item::{Arguments, BoundVars, Item, Sequence};
pub use laws::pairs_decide;
pub use modifiers::{Modifier, Modifiers};
pub use sequence::{are_nodes, has_node, have_no_attribute};
pub use value::Value;
