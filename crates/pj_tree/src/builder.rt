//! The builder of a tree.

ghost use Rattle.std.specs.Prelude.{◌≡◌, ◌≤◌, length, None, IsSome, OnOk, OnErr};
ghost use Rattle.pj_tree.specs.Nested.{WritesPreorder};
ghost use Rattle.pj_tree.specs.Building.{started, opened, closed, owned, IsWhole, finished};

use crate::kind::Kind;
use crate::node::{Node, Span};
use crate::row::{BEYOND, OwnToken, Row};
use crate::shape_fault::ShapeFault;
use crate::syntax_tree::SyntaxTree;
use pj_base::NoMemory;
use std::alloc::Global;
use std::marker::Model;

/// The depth of the deepest node that a tree may have. The root has depth 1.
const MAX_DEPTH: u32 = 1_000;

/// How many nodes a tree may have.
const MAX_NODES: usize = 2_000_000;

/// How many nodes or own tokens a builder takes. To ask for more is want of memory.
const MAX_MEMBERS: usize = 4_294_967_294;

/// A tree in the making. The nodes come in preorder: each is opened, gets its own tokens and its children as they
/// stand in the text, and is closed.
#[derive(Drop)]
pub struct Builder<'s> {
    text: &'s str,
    rows: Vec<Row>,
    tokens: Vec<OwnToken>,
    /// The innermost open node.
    current: Option<Node>,
    /// The number of the innermost open node's last child so far, or of the last root where no node is open, and `BEYOND`
    /// where there is none.
    last_child: u32,
    /// The depth of the innermost open node, and 0 where none is open.
    depth: u32,
    /// The depth of the deepest node so far.
    deepest: u32,
}

impl<'s> Model for Builder<'s> {
    ghost use Rattle.pj_tree.specs.Building.{Building};
    ghost use Rattle.pj_tree.specs.Rows.{nodes_seen, IsBuilding};

    ghost Value = { Building };

    ghost view = { λ b. record { text = b.text.now; nodes = nodes_seen b.rows.items b.tokens.items; current = b.current } };

    ghost invariant = { λ b. IsBuilding b.rows.items b.tokens.items b.current b.depth b.deepest b.last_child };
}

impl<'s> Builder<'s> {
    /// A builder with no node. Offsets are in bytes of the text. Calls that open, fill and close nested nodes give their
    /// nodes in preorder.
    pub fn new(alloc: Global, text: &'s str) -> Builder<'s>
        requires length { length text.now ≤ 4294967294 }
        ensures value { result ≡ started text.now }
        ensures calls { WritesPreorder text.now }
    {
        Builder {
            text,
            rows: Vec::new(alloc),
            tokens: Vec::new(alloc),
            current: None,
            last_child: BEYOND,
            depth: 0,
            deepest: 0,
        }
    }

    /// Opens a node that begins at an offset, as the next child of the innermost open node. After `NoMemory` the
    /// builder is unchanged.
    pub fn open(&mut self, kind: Kind, from: u32) -> Result<(), NoMemory>
        ensures ok { OnOk result (self.new ≡ opened self.old kind from) }
        ensures err { OnErr result (self.new ≡ self.old) }
    {
        let number = self.rows.len();
        if number >= MAX_MEMBERS {
            return Err(NoMemory);
        }
        self.rows.push(Row {
            kind,
            parent: self.current,
            span: Span { from, to: from },
            end: BEYOND,
            sibling_before: self.last_child,
            first_own: BEYOND,
        })?;
        self.current = Some(Node(number as u32));
        self.last_child = BEYOND;
        self.depth += 1;
        self.deepest = self.deepest.max(self.depth);
        Ok(())
    }

    /// Closes the innermost open node, which ends before an offset. A node must be open.
    pub fn close(&mut self, to: u32)
        requires open { IsSome self.old.current }
        ensures value { self.new ≡ closed self.old to }
    {
        if let Some(node) = self.current {
            let end = self.rows.len() as u32;
            let row = &mut self.rows[node.0 as usize];
            row.span.to = to;
            row.end = end;
            self.current = row.parent;
            self.last_child = node.0;
            self.depth -= 1;
        }
    }

    /// Gives the innermost open node a token of its own, behind those that it has. A node must be open. After
    /// `NoMemory` the builder is unchanged.
    pub fn own(&mut self, token: Span) -> Result<(), NoMemory>
        requires open { IsSome self.old.current }
        ensures ok { OnOk result (self.new ≡ owned self.old token) }
        ensures err { OnErr result (self.new ≡ self.old) }
    {
        if self.tokens.len() >= MAX_MEMBERS {
            return Err(NoMemory);
        }
        if let Some(owner) = self.current {
            self.tokens.push(OwnToken {
                owner,
                span: token,
                next: BEYOND,
            })?;
        }
        Ok(())
    }

    /// The tree, or why there is none: `TooDeep` with the greatest depth exactly where that is above 1,000, else
    /// `TooMany` with the number of nodes exactly where that is above 2,000,000. It takes no memory. One root must have
    /// been opened, all nodes must be closed, and the spans of nodes and tokens must be spans of the text that cut no
    /// character.
    pub fn finish(self) -> Result<SyntaxTree<'s>, ShapeFault>
        requires whole { IsWhole self }
        ensures value { result ≡ finished self.entry }
    {
        if self.deepest > MAX_DEPTH {
            return Err(ShapeFault::TooDeep(self.deepest));
        }
        if self.rows.len() > MAX_NODES {
            return Err(ShapeFault::TooMany(self.rows.len() as u32));
        }
        Ok(SyntaxTree::linked(self.text, self.rows, self.tokens))
    }
}
