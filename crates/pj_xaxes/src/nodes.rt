//! The nodes of an axis.
ghost use Rattle.std.specs.Prelude.{◌≡◌, ◌<◌, ◌≤◌, length, All};
ghost use Rattle.std.specs.Iterator.{YieldsFirst, item_count};
ghost use Rattle.pj_xaxes.specs.Axes.{axis_nodes};

use crate::search::{first_between, goes_backwards, last_between, window};
use pj_tree::{Node, SyntaxTree};
use pj_xexpressions::Axis;
use std::marker::Model;

/// The nodes of an axis that are left to come, in axis order: an iterator, which contracts see as their list.
#[derive(Drop)]
pub struct AxisNodes<'t> {
    tree: &'t SyntaxTree<'t>,
    axis: Axis,
    origin: Node,
    /// The number from which on those that are left stand.
    low: u32,
    /// The number below which they stand.
    high: u32,
}

impl<'t> Model for AxisNodes<'t> {
    ghost use Rattle.std.specs.Prelude.{List};
    ghost use Rattle.pj_tree.specs.declared.node.Node.{Node};
    ghost use Rattle.pj_xaxes.specs.Search.{axis_between};
    ghost use Rattle.pj_xaxes.specs.Search.{IsAmong};

    ghost Value = { List Node };

    ghost view = { λ nodes. axis_between nodes.tree.now nodes.axis nodes.origin nodes.low nodes.high };

    ghost invariant = { λ nodes. IsAmong nodes.tree.now nodes.axis nodes.origin nodes.low nodes.high };
}

/// The nodes on an axis of the node, in axis order: in the order of their numbers, and on a reverse axis from the last to
/// the first (XPath 2.0, 3.2.1.1).
pub fn axis<'t>(tree: &'t SyntaxTree<'t>, a: Axis, n: Node) -> AxisNodes<'t>
    requires { n.0 < length tree.now.nodes }
    ensures nodes { result ≡ axis_nodes tree.now a n }
    ensures inside { All (λ m. m.0 < length tree.now.nodes) result }
{
    let (low, high) = window(tree, a, n);
    AxisNodes {
        tree,
        axis: a,
        origin: n,
        low,
        high,
    }
}

impl Iterator for AxisNodes<'_> {
    type Item = Node;

    ghost next_gives = { YieldsFirst (λ s. s) };

    ghost remaining = { item_count (λ s. s) };

    fn next(&mut self) -> Option<Node> {
        if goes_backwards(self.axis) {
            let (found, high) = last_between(
                self.tree,
                self.axis,
                self.origin,
                self.low,
                self.high,
            );
            self.high = high;
            found
        } else {
            let (found, low) = first_between(
                self.tree,
                self.axis,
                self.origin,
                self.low,
                self.high,
            );
            self.low = low;
            found
        }
    }
}
