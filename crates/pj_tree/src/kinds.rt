//! Kinds of nodes.

ghost use Rattle.std.specs.Prelude.{◌≡◌, ◌<◌, length};
ghost use Rattle.pj_tree.specs.Kinds.{is_kind, same_kind, kind_above};

use crate::{Kind, Node, SyntaxTree};

/// Whether two kinds are the same.
fn same_kind(kind: Kind, other: Kind) -> bool
    ensures { result ≡ same_kind kind other }
{
    kind == other
}

/// Whether the node is of the kind.
pub fn is_kind(tree: &SyntaxTree<'_>, kind: Kind, n: Node) -> bool
    requires inside { n.0 < length tree.now.nodes }
    ensures { result ≡ is_kind tree.now kind n }
{
    same_kind(tree.kind(n), kind)
}

/// The kind of the node's parent, and `None` for the root.
pub fn kind_above(tree: &SyntaxTree<'_>, n: Node) -> Option<Kind>
    requires inside { n.0 < length tree.now.nodes }
    ensures { result ≡ kind_above tree.now n }
{
    match tree.parent(n) {
        Some(parent) => Some(tree.kind(parent)),
        None => None,
    }
}
