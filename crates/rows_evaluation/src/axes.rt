//! The table of axes.

ghost use Rattle.std.specs.Prelude.{◌<◌, length};

use crate::tree::small_tree;
use pj_base::NoMemory;
use pj_rows::{Row, Section, Table};
use pj_tree::{Node, ShapeFault, SyntaxTree};
use pj_xaxes::axis;
use pj_xexpressions::{Axis, axis_named};
use std::alloc::Global;
use std::fmt::Write;

/// Answers an axis and a node with the nodes on it, in axis order, and `()` for none.
#[derive(Drop)]
pub struct Axes {
    tree: SyntaxTree<'static>,
}

/// Puts a node behind those that there are.
fn put_node(out: &mut String, n: Node) -> Result<(), NoMemory> {
    if !out.is_empty() {
        out.push_str(", ")?;
    }
    write!(out, "n{}", n.0)?;
    Ok(())
}

/// Puts the nodes on the axis, in axis order.
fn put_nodes(out: &mut String, tree: &SyntaxTree<'_>, along: Axis, n: Node) -> Result<(), NoMemory>
    requires { n.0 < length tree.now.nodes }
{
    for m in axis(tree, along, n) {
        put_node(out, m)?;
    }
    Ok(())
}

/// The axis and the number of the node that are written as `child n5`.
fn place_of(written: &str) -> Option<(Axis, u32)> {
    let (name, number) = written.split_once(' ')?;
    let number = number.strip_prefix("n")?.parse().ok()?;
    Some((axis_named(name)?, number))
}

impl Axes {
    /// The table over the tree.
    pub fn new(alloc: Global) -> Result<Axes, ShapeFault> {
        let tree = small_tree(alloc)?;
        Ok(Axes { tree })
    }

    /// Puts the nodes on the axis that is written so.
    fn put_place(&self, out: &mut String, written: &str) -> Result<(), NoMemory> {
        match place_of(written) {
            Some((along, number)) if number < self.tree.len() => {
                put_nodes(out, &self.tree, along, Node(number))
            }
            _ => Ok(out.push_str("! no node")?),
        }
    }
}

impl Table for Axes {
    fn answer(&self, alloc: Global, _section: &Section, row: &Row) -> Result<String, NoMemory> {
        let mut out = String::new(alloc);
        self.put_place(&mut out, row.given.as_str())?;
        if out.is_empty() {
            out.push_str("()")?;
        }
        Ok(out)
    }
}
