//! The children of a node.

ghost use Rattle.std.specs.Prelude.{◌≡◌, ◌<◌, ◌≤◌, length, IfSome};
ghost use Rattle.std.specs.List.{All};
ghost use Rattle.pj_tree.specs.Tree.{children_of};
ghost use Rattle.pj_tree.specs.Children.{has_child, child_of, first_child, second_child, kind_count, first_in, second_in};

use crate::kinds::is_kind;
use crate::{Children, Kind, Node, SyntaxTree};

/// The first child of the node, if it has one.
pub fn first_child(tree: &SyntaxTree<'_>, n: Node) -> Option<Node>
    requires inside { n.0 < length tree.now.nodes }
    ensures value { result ≡ first_child tree.now n }
    ensures inside { IfSome result (λ child. child.0 < length tree.now.nodes) }
{
    let mut children = tree.children(n);
    children.next()
}

/// The second child of the node, if it has one.
pub fn second_child(tree: &SyntaxTree<'_>, n: Node) -> Option<Node>
    requires inside { n.0 < length tree.now.nodes }
    ensures value { result ≡ second_child tree.now n }
    ensures inside { IfSome result (λ child. child.0 < length tree.now.nodes) }
{
    let mut children = tree.children(n);
    match children.next() {
        Some(_) => children.next(),
        None => None,
    }
}

/// The first child of the kind, if the node has one.
pub fn child_of(tree: &SyntaxTree<'_>, n: Node, kind: Kind) -> Option<Node>
    requires inside { n.0 < length tree.now.nodes }
    ensures value { result ≡ child_of tree.now n kind }
    ensures inside { IfSome result (λ child. child.0 < length tree.now.nodes) }
{
    for child in tree.children(n) {
        if is_kind(tree, kind, child) {
            return Some(child);
        }
    }
    None
}

/// Whether the node has a child of the kind.
pub fn has_child(tree: &SyntaxTree<'_>, n: Node, kind: Kind) -> bool
    requires inside { n.0 < length tree.now.nodes }
    ensures { result ≡ has_child tree.now n kind }
{
    child_of(tree, n, kind).is_some()
}

/// How many children the node has.
pub fn child_count(tree: &SyntaxTree<'_>, n: Node) -> u32
    requires inside { n.0 < length tree.now.nodes }
    ensures { result ≡ length (children_of tree.now n) }
{
    let mut count = 0;
    for child in tree.children(n) {
        let _ = child;
        count += 1;
    }
    count
}

/// How many children of the kind the node has.
pub fn kind_count(tree: &SyntaxTree<'_>, n: Node, kind: Kind) -> u32
    requires inside { n.0 < length tree.now.nodes }
    ensures { result ≡ kind_count tree.now n kind }
{
    let mut count = 0;
    for child in tree.children(n) {
        if is_kind(tree, kind, child) {
            count += 1;
        }
    }
    count
}
