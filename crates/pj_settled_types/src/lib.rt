//! Laws of types of expressions and of replies: in worlds that find finitely many classes they come to something.
#![tactic(auto)]

mod laws;

pub use laws::{replies_settle, types_of_nodes_settle};
