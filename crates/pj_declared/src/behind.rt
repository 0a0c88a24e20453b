//! What stands behind a node.

ghost use Rattle.std.specs.Prelude.{◌≡◌, ◌<◌, ◌≤◌, length};
ghost use Rattle.pj_declared.specs.Behind.{behind};

use pj_tree::{Node, SyntaxTree};

/// The number behind the node and all below: of the next node in the order of the text, or the number of all nodes.
pub fn behind(tree: &SyntaxTree<'_>, n: Node) -> u32
    requires inside { n.0 < length tree.now.nodes }
    ensures value { result ≡ behind tree.now n }
    ensures past { n.0 < result }
    ensures within { result ≤ length tree.now.nodes }
{
    tree.subtree_end(n).0
}
