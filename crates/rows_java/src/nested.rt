//! The nodes below one, each with those below it in parentheses.

ghost use Rattle.std.specs.Prelude.{◌<◌, length, IfSome};

use crate::source::put;
use pj_base::NoMemory;
use pj_tree::{Node, SyntaxTree};

/// The first node of the kind of this name.
pub fn first_of(tree: &SyntaxTree<'_>, kind: &str) -> Option<Node>
    ensures { IfSome result (λ n. n.0 < length tree.now.nodes) }
{
    for n in 0..tree.len() {
        if tree.kind(Node(n)).name() == kind {
            return Some(Node(n));
        }
    }
    None
}

/// How many nodes stand above a node.
fn depth(tree: &SyntaxTree<'_>, node: Node) -> u32 {
    let mut at = node;
    for depth in 0..1000 {
        if at.0 >= tree.len() {
            return depth;
        }
        match tree.parent(at) {
            None => return depth,
            Some(parent) => at = parent,
        }
    }
    1000
}

/// Closes so many parentheses.
fn put_closed(out: &mut String, count: u32) -> Result<(), NoMemory> {
    for _ in 0..count {
        put(out, ")")?;
    }
    Ok(())
}

/// Puts what stands between a node and the next one, which have these depths.
fn put_step(out: &mut String, last: u32, next: u32) -> Result<(), NoMemory> {
    if out.is_empty() {
        return Ok(());
    }
    if last < next {
        return put(out, "(");
    }
    put_closed(out, last - next)?;
    put(out, " ")
}

/// Puts the nodes below a node, in preorder.
pub fn put_below(out: &mut String, tree: &SyntaxTree<'_>, root: Node) -> Result<(), NoMemory>
    requires { root.0 < length tree.now.nodes }
{
    let end = tree.subtree_end(root);
    let first = depth(tree, root).saturating_add(1);
    let mut last = first;
    for n in 0..tree.len() {
        if root.0 < n && n < end.0 {
            let next = depth(tree, Node(n));
            put_step(out, last, next)?;
            put(out, tree.kind(Node(n)).name())?;
            last = next;
        }
    }
    put_closed(out, last.saturating_sub(first))
}
