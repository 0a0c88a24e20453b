//! The children of a node.

ghost use Rattle.std.specs.Prelude.{◌≡◌, ◌<◌, ◌≤◌, length};
ghost use Rattle.std.specs.List.{All};
ghost use Rattle.std.specs.Iterator.{YieldsFirst, item_count};
ghost use Rattle.pj_tree.specs.Rows.{HasEnds, AllEnded, row_parents};
ghost use Rattle.pj_tree.specs.Tree.{children_in};

use crate::node::Node;
use crate::row::Row;
use std::marker::Model;

/// The children of a node that are left to come, in order: an iterator, which contracts see as their list.
#[derive(Drop)]
pub struct Children<'t> {
    rows: &'t [Row],
    parent: Node,
    /// The number of the next child, or `end`.
    next: u32,
    /// The number past the parent's subtree.
    end: u32,
}

impl<'t> Model for Children<'t> {
    ghost use Rattle.std.specs.Prelude.{List};
    ghost use Rattle.pj_tree.specs.declared.node.Node.{Node};
    ghost use Rattle.pj_tree.specs.Rows.{children_left, IsAmongChildren};

    ghost Value = { List Node };

    ghost view = { λ c. children_left c.rows.now c.parent c.next };

    ghost invariant = { λ c. IsAmongChildren c.rows.now c.parent c.next c.end };
}

impl<'t> Children<'t> {
    /// The children of the node in these rows.
    pub(crate) fn new(rows: &'t [Row], parent: Node) -> Children<'t>
        requires few { length rows.now ≤ 2000000 }
        requires inside { parent.0 < length rows.now }
        requires ends { HasEnds rows.now }
        requires ended { AllEnded rows.now }
        ensures value { result ≡ children_in (row_parents rows.now) parent }
        ensures few { length result ≤ 2000000 }
        ensures inside { All (λ c. (parent.0 < c.0) × (c.0 < length rows.now)) result }
    {
        let end = rows[parent.0 as usize].end;
        Children {
            rows,
            parent,
            next: parent.0 + 1,
            end,
        }
    }
}

impl Iterator for Children<'_> {
    type Item = Node;

    ghost next_gives = { YieldsFirst (λ s. s) };

    ghost remaining = { item_count (λ s. s) };

    fn next(&mut self) -> Option<Node> {
        if self.next == self.end {
            return None;
        }
        let child = Node(self.next);
        self.next = self.rows[child.0 as usize].end;
        Some(child)
    }
}
