//! Types of nodes of a Java file: of expressions, variables and declarations (JLS 15), and the methods and constructors that are chosen for calls, as computations that ask an oracle for classes.
#![tactic(auto)]

mod expressions;
mod found;
mod held;
mod laws;
mod node_types;
mod of_calls;
mod operands;
mod order;
mod typing;
mod variables;

pub use held::Typed;
pub use laws::{calls_are_chosen, expressions_are_of_operands, sources_agree, types_go_on};
pub use node_types::type_of;
pub use of_calls::chosen;
