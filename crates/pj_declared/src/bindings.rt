//! Where the scopes of pattern variables end.

ghost use Rattle.std.specs.Prelude.{◌≡◌, ◌<◌, ◌≤◌, length, IfSome};
ghost use Rattle.pj_declared.specs.Bindings.{is_branch, has_branches, is_first_child, ends_binding, binding_end};

use crate::bodies::is_body;
use pj_tree::{Kind, Node, SyntaxTree, first_child};

/// Whether a node of the kind is a block or a branch of a switch (JLS 14.2, 14.11.1).
fn is_branch(kind: Kind) -> bool
    ensures { result ≡ is_branch kind }
{
    match kind {
        Kind::Block | Kind::SwitchArrowBranch | Kind::SwitchFallthroughBranch => true,
        _ => false,
    }
}

/// Whether the children of a node of the kind are branches, all but the first (JLS 14.9, 15.25, 15.27.2).
fn has_branches(kind: Kind) -> bool
    ensures { result ≡ has_branches kind }
{
    match kind {
        Kind::IfStatement | Kind::ConditionalExpression | Kind::LambdaExpression => true,
        _ => false,
    }
}

/// Whether the node is the first child of the one around it.
fn is_first_child(tree: &SyntaxTree<'_>, around: Node, n: Node) -> bool
    requires inside { around.0 < length tree.now.nodes }
    ensures { result ≡ is_first_child tree.now around n }
{
    match first_child(tree, around) {
        Some(first) => first.0 == n.0,
        None => false,
    }
}

/// Whether the scope of a pattern in the node, whose parent is the other one, ends with the node.
fn ends_binding(tree: &SyntaxTree<'_>, around: Node, n: Node) -> bool
    requires inside { n.0 < length tree.now.nodes }
    requires around { around.0 < length tree.now.nodes }
    ensures { result ≡ ends_binding tree.now around n }
{
    if is_branch(tree.kind(n)) {
        return true;
    }
    let above = tree.kind(around);
    is_body(above) || (has_branches(above) && !is_first_child(tree, around, n))
}

/// What the scope of the pattern's variable lies within: the innermost block, body or branch around it, and else the member
/// of a class.
pub fn binding_end(tree: &SyntaxTree<'_>, pattern: Node) -> Option<Node>
    requires inside { pattern.0 < length tree.now.nodes }
    ensures { result ≡ binding_end tree.now pattern }
{
    let _nodes = tree.len();
    let mut at = pattern;
    while let Some(around) = tree.parent(at) {
        if ends_binding(tree, around, at) {
            return Some(at);
        }
        at = around;
    }
    None
}
