//! Types of literals, and what operators make of the types of their operands (JLS 3.10, 5.6, 15.8, 15.14 to 15.25). Conditional expressions alone ask for classes.
#![tactic(auto)]

mod conditional;
mod laws;
mod literals;
mod operators;
mod same;

pub use conditional::conditional_type;
pub use laws::{
    promotion_is_commutative, same_types_are_equal, sources_agree, unknown_operands, unknown_sums,
};
pub use literals::{class_literal, number_type, string_type};
pub use operators::{Infix, Unary, infix_of, infix_type, unary_of, unary_type};
pub use same::same_type;
