//! A flat syntax tree, its builder, the places of a text, and reads of a tree by what its nodes are.
//!
//! A tree keeps its nodes in preorder, and contracts see it as the list of their kinds, parents, spans and own tokens. A read of a tree
//! (the words of a node, its children by kind, the kinds above it) takes no memory, and a step for each own token or child that it looks at.
#![tactic(auto)]

mod builder;
mod characters;
mod children;
mod children_by_kind;
mod kind;
mod kinds;
mod line_map;
mod node;
mod own_tokens;
mod row;
mod run;
mod shape_fault;
mod syntax_tree;
mod words;

pub use builder::Builder;
pub use characters::place_after;
pub use children::Children;
pub use children_by_kind::{
    child_count, child_of, first_child, has_child, kind_count, second_child,
};
pub use kind::Kind;
pub use kinds::{is_kind, kind_above};
pub use line_map::LineMap;
pub use node::{Node, Place, Span};
pub use own_tokens::OwnTokens;
pub use shape_fault::ShapeFault;
pub use syntax_tree::SyntaxTree;
pub use words::{first_word, has_word, last_word};
