//! Nodes as they are made.

ghost use Rattle.std.specs.Prelude.{◌≡◌, ◌<◌, ◌≤◌, ◌++◌, List, Some, length, reverse, slice_get, OnOk};
ghost use Rattle.pj_shape.specs.Shaped.{Nodes};
ghost use Rattle.pj_shape.specs.Flat.{flat, is_two, by_itself};

use crate::shape::Shape;
use pj_base::NoMemory;
use pj_peg_grammar::Step;
use pj_tree::Kind;

/// A node with the places from and up to which it takes the tokens, and the number of nodes of its subtree.
#[derive(Clone, Copy)]
pub struct Made {
    pub kind: Kind,
    pub from: u32,
    pub to: u32,
    pub size: usize,
}

/// Whether the nodes after the first `below` ones, of which the last one comes first, are two or more side by side.
fn are_two(nodes: &[Made], below: usize) -> bool
    ensures { (ns : Nodes) (rest : List Made) → reverse nodes.now ≡ flat ns ++ rest → below ≡ length rest → result ≡ is_two ns }
{
    nodes.len() > below && nodes[nodes.len() - 1].size < nodes.len() - below
}

/// Puts the node of a step over the nodes of its body, if it makes one. The last node comes first, and as many as `below`
/// are not of its body.
pub fn put_node(
    shape: Shape,
    step: Step,
    below: usize,
    nodes: &mut Vec<Made>,
) -> Result<(), NoMemory>
    requires { below ≤ length nodes.old.items }
    ensures { OnOk result ((ns : Nodes) (rest : List Made) → reverse nodes.old.items ≡ flat ns ++ rest → below ≡ length rest →
        reverse nodes.new.items ≡ flat (by_itself shape step.from step.to ns) ++ rest) }
{
    match shape {
        Shape::Pass | Shape::Turn(_) | Shape::Segment(_) => {}
        Shape::Node(kind) => {
            let size = nodes.len() - below + 1;
            nodes.push(Made {
                kind,
                from: step.from,
                to: step.to,
                size,
            })?;
        }
        Shape::Joined(kind) => {
            if are_two(nodes, below) {
                let size = nodes.len() - below + 1;
                nodes.push(Made {
                    kind,
                    from: step.from,
                    to: step.to,
                    size,
                })?;
            }
        }
    }
    Ok(())
}

/// The node of this number, counted from 0.
pub fn node_at(nodes: &[Made], number: usize) -> Made
    requires within { number < length nodes.now }
    ensures value { slice_get nodes.now number ≡ Some result }
{
    nodes[number]
}
