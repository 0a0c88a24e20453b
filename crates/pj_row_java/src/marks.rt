//! Marked places and declarations.

ghost use Rattle.std.specs.Prelude.{◌≡◌, ◌<◌, length, IfSome};

use pj_base::{NoMemory, Text};
use pj_tree::{Node, SyntaxTree};
use std::alloc::Global;

/// The offset behind a mark of a place that stands here, and else this offset.
fn behind_mark(text: &str, offset: u32) -> u32 {
    match text.get(offset as usize..) {
        Some(rest) if rest.starts_with("/*?*/") => offset.saturating_add(5),
        Some(rest) if rest.starts_with("/*^*/") => offset.saturating_add(5),
        _ => offset,
    }
}

/// The offset behind the mark, and behind another one there.
pub fn offset_behind(text: &str, mark: &str) -> Option<u32> {
    let (front, _) = text.split_once(mark)?;
    let offset = u32::try_from(front.len()).ok()?;
    Some(behind_mark(text, offset.saturating_add(5)))
}

/// The last node that begins at the offset.
fn innermost_from(tree: &SyntaxTree<'_>, offset: u32) -> Option<Node>
    ensures { IfSome result (λ n. n.0 < length tree.now.nodes) }
{
    for n in (0..tree.len()).rev() {
        if tree.span(Node(n)).from == offset {
            return Some(Node(n));
        }
    }
    None
}

/// The first node that begins at the offset.
fn outermost_from(tree: &SyntaxTree<'_>, offset: u32) -> Option<Node>
    ensures { IfSome result (λ n. n.0 < length tree.now.nodes) }
{
    for n in 0..tree.len() {
        if tree.span(Node(n)).from == offset {
            return Some(Node(n));
        }
    }
    None
}

/// The place that is marked, and without a mark the innermost node at the beginning.
pub fn place_of(tree: &SyntaxTree<'_>, text: &str) -> Option<Node>
    ensures { IfSome result (λ n. n.0 < length tree.now.nodes) }
{
    match offset_behind(text, "/*^*/") {
        Some(offset) => outermost_from(tree, offset),
        None => innermost_from(tree, offset_behind(text, "/*?*/").unwrap_or(0)),
    }
}

/// Puts `declaration` where the node is the one that is marked, and else where it begins.
pub fn put_declaration(
    alloc: Global,
    out: &mut Text,
    tree: &SyntaxTree<'_>,
    text: &str,
    n: Node,
) -> Result<(), NoMemory> {
    if n.0 >= tree.len() {
        return out.push_str("! no node");
    }
    let from = tree.span(n).from;
    if offset_behind(text, "/*!*/") == Some(from) {
        return out.push_str("declaration");
    }
    let at = from.to_string(alloc)?;
    out.push_str("another declaration at ")?;
    out.push_str(at.as_str())
}
