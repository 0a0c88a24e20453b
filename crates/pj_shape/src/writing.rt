//! The calls that write nodes.

ghost use Rattle.std.specs.Prelude.{◌≡◌, ◌+◌, ◌<◌, ◌≤◌, ◌^◌, ◌∷◌, [], ◌++◌, IsSome, OnOk, Some, None, length, slice_get, slice_range};
ghost use Rattle.std.specs.List.{All, fold};
ghost use Rattle.pj_tree.specs.Building.{after_call, opened};
ghost use Rattle.pj_tree.specs.Nested.{calls_of};
ghost use Rattle.pj_shape.specs.Typed.{Words, around_of, typed};
ghost use Rattle.pj_shape.specs.ShapedTree.{roots_of};
ghost use Rattle.pj_shape.specs.Writing.{IsWithin, Root, IsRoot, root_of, owns, type_calls, is_class_by};
ghost use Rattle.pj_shape.specs.Written.{begin_of, end_of};

use crate::kinds::follows_type;
use crate::made::{Made, node_at};
use pj_base::NoMemory;
use pj_tree::{Builder, Kind, Span};
use std::alloc::Global;

/// A node whose children are being written.
#[derive(Clone, Copy)]
struct Pending {
    /// The number past the nodes of its subtree.
    end: usize,
    /// The place up to which it takes the tokens.
    to: u32,
    /// The offset where it ends.
    close: u32,
}

/// The offset where the token at a place begins, and the length of the text where no token follows.
fn begin_at(text: &str, tokens: &[Span], place: u32) -> u32
    requires length { length text.now ≤ 4294967294 }
    ensures value { result ≡ begin_of text.now tokens.now place }
{
    if (place as usize) < tokens.len() {
        tokens[place as usize].from
    } else {
        text.len() as u32
    }
}

/// The offset where the last of the tokens ends, and where the next one begins if there are none.
fn end_at(text: &str, tokens: &[Span], from: u32, to: u32) -> u32
    requires length { length text.now ≤ 4294967294 }
    requires within { to ≤ length tokens.now }
    ensures value { result ≡ end_of text.now tokens.now from to }
{
    if from < to {
        tokens[to as usize - 1].to
    } else {
        begin_at(text, tokens, from)
    }
}

/// The token at a place.
fn token_at(tokens: &[Span], place: u32) -> Span
    requires within { place < length tokens.now }
    ensures value { slice_get tokens.now place ≡ Some result }
{
    tokens[place as usize]
}

/// Gives the tokens between two places to the innermost open node.
fn own_tokens(
    builder: &mut Builder<'_>,
    tokens: &[Span],
    from: u32,
    to: u32,
) -> Result<(), NoMemory>
    requires within { to ≤ length tokens.now }
    requires open { IsSome builder.old.current }
    ensures value { OnOk result (builder.new ≡ fold after_call builder.old (owns (slice_range tokens.now from to))) }
    ensures open { OnOk result (IsSome builder.new.current) }
{
    for place in from..to {
        builder.own(token_at(tokens, place))?;
    }
    Ok(())
}

/// Writes a type expression with one class type, over the tokens of a node.
fn write_type(
    builder: &mut Builder<'_>,
    text: &str,
    tokens: &[Span],
    node: Made,
) -> Result<(), NoMemory>
    requires length { length text.now ≤ 4294967294 }
    requires within { node.to ≤ length tokens.now }
    ensures value { OnOk result (builder.new ≡ fold after_call builder.old (type_calls text.now tokens.now node.from node.to)) }
{
    let begin = begin_at(text, tokens, node.from);
    let end = end_at(text, tokens, node.from, node.to);
    builder.open(Kind::TypeExpression, begin)?;
    builder.open(Kind::ClassType, begin)?;
    own_tokens(builder, tokens, node.from, node.to)?;
    builder.close(end);
    builder.close(end);
    Ok(())
}

/// The place where the node around the next one begins, if the next one stands first in it and may be the name of a class.
fn around_at(node: Made) -> Option<u32>
    ensures value { result ≡ around_of node.kind node.from }
{
    if follows_type(node.kind) {
        Some(node.from)
    } else {
        None
    }
}

/// Whether a node that is marked as the name of a class is one where it stands.
fn is_class_at(around: Option<u32>, node: Made, marked: bool) -> bool
    ensures value { result ≡ is_class_by around node.from marked }
{
    match around {
        None => false,
        Some(start) => node.from == start && marked,
    }
}

/// Whether the node of a number is marked.
fn mark_at(marked: &[bool], number: usize) -> bool
    requires within { number < length marked.now }
    ensures value { slice_get marked.now number ≡ Some result }
{
    marked[number]
}

/// Opens a node, whose tokens stand from the first of its children on.
fn open_node(
    builder: &mut Builder<'_>,
    text: &str,
    tokens: &[Span],
    node: Made,
    number: usize,
    stack: &mut Vec<Pending>,
) -> Result<(), NoMemory>
    requires length { length text.now ≤ 4294967294 }
    requires within { node.to ≤ length tokens.now }
    requires size { number + node.size < 2 ^ 64 }
    ensures builder { OnOk result (builder.new ≡ opened builder.old node.kind (begin_of text.now tokens.now node.from)) }
    ensures stack { OnOk result (stack.new.items ≡ stack.old.items ++ record { end = number + node.size; to = node.to; close = end_of text.now tokens.now node.from node.to } ∷ []) }
{
    builder.open(node.kind, begin_at(text, tokens, node.from))?;
    stack.push(Pending {
        end: number + node.size,
        to: node.to,
        close: end_at(text, tokens, node.from, node.to),
    })?;
    Ok(())
}

/// Writes the nodes of a tree in preorder: the root, and the nodes below it. `marked` says of each whether it is made of
/// names of which the last is a class.
pub fn write_nodes(
    alloc: Global,
    text: &str,
    tokens: &[Span],
    nodes: &[Made],
    marked: &[bool],
    builder: &mut Builder<'_>,
) -> Result<(), NoMemory>
    requires length { length text.now ≤ 4294967294 }
    requires within { All (IsWithin (length tokens.now)) nodes.now }
    requires root { (w : Words) × (r : Root) × IsRoot w r nodes.now marked.now }
    ensures value { OnOk result ((w : Words) (r : Root) → IsRoot w r nodes.now marked.now →
        builder.new ≡ fold after_call builder.old (calls_of (roots_of text.now tokens.now (typed w None (root_of r))))) }
{
    let mut stack = Vec::new(alloc);
    let root = node_at(nodes, 0);
    open_node(builder, text, tokens, root, 0, &mut stack)?;
    let mut at = root.from;
    let mut next = 1;
    let mut around = around_at(root);
    while let Some(top) = stack.pop() {
        if top.end <= next {
            own_tokens(builder, tokens, at, top.to)?;
            builder.close(top.close);
            at = top.to;
            around = None;
        } else {
            stack.push(top)?;
            let node = node_at(nodes, next);
            own_tokens(builder, tokens, at, node.from)?;
            if is_class_at(around, node, mark_at(marked, next)) {
                write_type(builder, text, tokens, node)?;
                at = node.to;
                next += node.size;
                around = None;
            } else {
                open_node(builder, text, tokens, node, next, &mut stack)?;
                at = node.from;
                next += 1;
                around = around_at(node);
            }
        }
    }
    Ok(())
}
