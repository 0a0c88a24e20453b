//! The attributes of nodes, by which queries tell them apart.
//!
//! Each kind has a list of attributes, in order. `attribute` gives the value of one, and `Facts` all that an evaluator asks
//! of a file: attributes, modifiers and places. Strings are borrowed, and no call takes memory.
#![tactic(auto)]

mod facts;
mod laws;
mod modifiers;
mod names;
mod table;
mod values;

pub use facts::Facts;
pub use laws::tokens_are_in_order;
pub use modifiers::{effective_modifiers, explicit_modifiers};
pub use names::attribute_names;
pub use values::attribute;
