//! What tells the type of a node.

use pj_calls::Candidates;
use pj_names::Ty;
use pj_tree::Node;

/// What tells the type of a node.
#[derive(Drop)]
pub enum Found {
    /// The type.
    Type(Ty),
    /// A variable that is declared by `var`, whose type it is: by its `VariableId`.
    Var(Node),
    /// A variable with the type that its declaration writes, whose type it is: by its `VariableId`.
    Written {
        /// Its `VariableId`.
        id: Node,
        /// The declaration.
        declaration: Node,
    },
    /// The methods among which one is chosen by the types of the arguments, whose result it is.
    Call(Candidates),
}
