//! What is kept of a node and of a token.

ghost use Rattle.std.specs.Prelude.{◌≤◌, length};
ghost use Rattle.pj_tree.specs.Rows.{OwnersAre, Unlinked, LeadsOn, LeadsIn, SameRows, SameTokens};

use crate::kind::Kind;
use crate::node::{Node, Span};

/// A number past every node and every token.
pub const BEYOND: u32 = u32::MAX;

/// A node.
#[derive(Clone, Copy, Debug)]
pub struct Row {
    pub kind: Kind,
    pub parent: Option<Node>,
    pub span: Span,
    /// The number past the last node of the subtree, and `BEYOND` while the node is open.
    pub end: u32,
    /// The number of the sibling before, or `BEYOND`.
    pub sibling_before: u32,
    /// The index of the node's first own token, or `BEYOND`.
    pub first_own: u32,
}

/// A token that lies in no child of its node.
#[derive(Clone, Copy, Debug)]
pub struct OwnToken {
    pub owner: Node,
    pub span: Span,
    /// The index of the next token of the same node, or `BEYOND`.
    pub next: u32,
}

/// Lets each node lead to its first own token, and each token to the next of its node. Each is the nearest one behind
/// that was passed, so one way from the last token to the first does it.
pub fn link(rows: &mut Vec<Row>, tokens: &mut Vec<OwnToken>)
    requires owners { OwnersAre rows.old.items tokens.old.items }
    requires unlinked { Unlinked rows.old.items }
    requires few { length tokens.old.items ≤ 4294967294 }
    ensures rows { SameRows rows.old.items rows.new.items }
    ensures tokens { SameTokens tokens.old.items tokens.new.items }
    ensures leads_on { LeadsOn tokens.new.items 0 }
    ensures leads_in { LeadsIn rows.new.items tokens.new.items 0 }
{
    for i in (0..tokens.len()).rev() {
        let token = &mut tokens[i];
        let row = &mut rows[token.owner.0 as usize];
        token.next = row.first_own;
        row.first_own = i as u32;
    }
}
