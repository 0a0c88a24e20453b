//! The node that a row asks about, as `ClassBody 0`: the first node of the kind, counted from 0.

ghost use Rattle.std.specs.Prelude.{◌<◌, length, IfSome};

use pj_base::NoMemory;
use pj_rows::Section;
use pj_tree::{Node, SyntaxTree};
use std::alloc::Global;

/// A node by its kind and its place among the nodes of the kind.
#[derive(Clone, Copy)]
pub struct Asked<'q> {
    /// The name of the kind.
    pub kind: &'q str,
    /// How many nodes of the kind stand before it.
    pub place: u32,
}

/// The node that is asked about.
pub fn node_at(tree: &SyntaxTree<'_>, asked: Asked<'_>) -> Option<Node>
    ensures { IfSome result (λ n. n.0 < length tree.now.nodes) }
{
    let mut left = asked.place;
    for n in 0..tree.len() {
        if tree.kind(Node(n)).name() == asked.kind {
            if left == 0 {
                return Some(Node(n));
            }
            left -= 1;
        }
    }
    None
}

/// The node of a row. Where the section has the text, a row gives the node, and else the section's setting `node` has its kind
/// and it is the first.
pub fn asked_of<'r>(section: &'r Section, given: &'r str) -> Asked<'r> {
    if !section.has("text") {
        let kind = section.setting("node").unwrap_or("");
        return Asked { kind, place: 0 };
    }
    let (kind, place) = given.split_once(' ').unwrap_or((given, ""));
    Asked {
        kind,
        place: place.parse::<u32>().unwrap_or(u32::MAX),
    }
}

/// The text of a row: that of its section, or what is given in the section's frame.
pub fn text_of(alloc: Global, section: &Section, given: &str) -> Result<String, NoMemory> {
    match section.setting("text") {
        Some(text) => Ok(String::from_str(alloc, text)?),
        None => section.framed(alloc, given),
    }
}
