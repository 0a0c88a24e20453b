//! Types of nodes of a Java file that are told without the types of others: of literals, of `this` and `super`, of types that are written, and of classes that are declared (JLS 15.8,
//! 15.10.1, 15.11.2, 15.16); and what the declaration of a variable writes. Classes are asked of an oracle.
#![tactic(auto)]

mod classes;
mod laws;
mod leaves;
mod superclass;
mod variables;
mod written;

pub use laws::sources_agree;
pub use leaves::leaf_type;
pub use superclass::superclass_of;
pub use variables::{
    declared_by, first_name, initializer_of, is_in_own_initializer, is_var, is_var_name,
    statement_of,
};
pub use written::{created, declared_type};
