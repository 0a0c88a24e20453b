//! The declarations of a Java file: its classes with their binary names, and its variables with what they are.
//!
//! `Symbols::of` finds them once for a syntax tree. What is asked of one node is told by the tree alone.
#![tactic(auto)]

mod class;
mod kinds;
mod name;
mod search;
mod symbols;
mod variable;

pub use class::{Class, Nesting, class_around, nesting_of};
pub use kinds::is_class;
pub use symbols::{Classes, Symbols, Variables};
pub use variable::{Variable, VariableKind, declaration_of, variable_kind};
