//! Syntax trees of derivations.
//!
//! A table gives each rule of a grammar its shape: whether it makes a node of its own, puts one over the nodes before it,
//! or passes on what its body makes. `specs/Shaped.antt` says which nodes a derivation has by such a table,
//! `specs/Typed.antt` which names among them are types, and `specs/Written.antt` which stretches of the text they span and
//! which tokens are their own. `specs/ShapedTree.antt` puts this together.
#![tactic(auto)]

mod declared;
mod kinds;
mod made;
mod marks;
mod nodes;
mod shape;
mod tree;
mod turns;
mod words;
mod writing;

pub use shape::Shape;
pub use tree::shape_derivation;
