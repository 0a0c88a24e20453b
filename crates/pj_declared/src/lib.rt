//! What a file declares at a place: its variables, classes and type parameters with their scopes (JLS 6.3), and which of them
//! a simple name means there, as far as the file alone tells. Nothing outside the file is asked.
//!
//! `Declarations::of` finds the scopes once for a syntax tree. A name at a place costs a bisection for each node around it.
#![tactic(auto)]

mod behind;
mod bindings;
mod bodies;
mod declarations;
mod gather;
mod imports;
mod named;
mod nearest;
mod scope;
mod search;
mod type_scopes;
mod variable_scopes;

pub use bodies::{body_kind, class_at};
pub use declarations::Declarations;
pub use imports::{ImportSort, imported_name, is_single};
pub use nearest::Declared;
