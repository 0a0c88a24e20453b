//! The finished tree.

ghost use Rattle.std.specs.Prelude.{◌≡◌, ◌+◌, ◌<◌, ◌≤◌, ◌↔◌, ℕ, length, Some, IsTrue, IfSome, IsNone};
ghost use Rattle.std.specs.List.{All};
ghost use Rattle.pj_tree.specs.declared.node.Node.{Node};
ghost use Rattle.pj_tree.specs.Tree.{kind_of, parent_of, span_of, text_of, own_of, children_of, is_descendant, greatest_depth_in, IsPrecedingSibling, IsSyntaxTree, IsSpanOf};
ghost use Rattle.pj_tree.specs.Rows.{nodes_seen, HasEnds, AllEnded, LeadsBack, OwnersAre, Unlinked, TokenSpans, above_at, row_at, row_parents};

use crate::children::Children;
use crate::kind::Kind;
use crate::node::{Node, Span};
use crate::own_tokens::OwnTokens;
use crate::row::{OwnToken, Row, link};
use std::marker::Model;

/// A syntax tree over a text. Its nodes are numbered in preorder, from the root, which is 0.
#[derive(Drop)]
pub struct SyntaxTree<'s> {
    text: &'s str,
    rows: Vec<Row>,
    tokens: Vec<OwnToken>,
}

impl<'s> Model for SyntaxTree<'s> {
    ghost use Rattle.pj_tree.specs.Tree.{Tree};
    ghost use Rattle.pj_tree.specs.Rows.{nodes_seen, IsTree};

    ghost Value = { Tree };

    ghost view = { λ t. record { text = t.text.now; nodes = nodes_seen t.rows.items t.tokens.items } };

    ghost invariant = { λ t. IsTree t.text.now t.rows.items t.tokens.items };
}

impl<'s> SyntaxTree<'s> {
    /// How many nodes the tree has, the root included.
    pub fn len(&self) -> u32
        ensures value { result ≡ length self.now.nodes }
        ensures rooted { 0 < result }
        ensures few { result ≤ 2000000 }
        ensures tree { IsSyntaxTree self.now }
    {
        self.rows.len() as u32
    }

    /// What the node is.
    pub fn kind(&self, n: Node) -> Kind
        requires inside { n.0 < length self.now.nodes }
        ensures value { kind_of self.now n ≡ Some result }
    {
        self.rows[n.0 as usize].kind
    }

    /// The node's parent, and `None` exactly for the root.
    pub fn parent(&self, n: Node) -> Option<Node>
        requires inside { n.0 < length self.now.nodes }
        ensures value { result ≡ parent_of self.now n }
        ensures root { IsNone result ↔ (n.0 ≡ 0) }
        ensures before { IfSome result (λ p. p.0 < n.0) }
    {
        self.rows[n.0 as usize].parent
    }

    /// The number past the node's last descendant, or past the node where it has none: the descendants are the nodes
    /// between. It is `len` where no node follows them.
    pub fn subtree_end(&self, n: Node) -> Node
        requires inside { n.0 < length self.now.nodes }
        ensures past { n.0 < result.0 }
        ensures within { result.0 ≤ length self.now.nodes }
        ensures descendants { (m : Node) → IsTrue (is_descendant self.now m n) ↔ ((n.0 < m.0) × (m.0 < result.0)) }
    {
        Node(self.rows[n.0 as usize].end)
    }

    /// The nodes whose parent is the node, in order.
    pub fn children(&self, n: Node) -> Children<'_>
        requires inside { n.0 < length self.now.nodes }
        ensures value { result ≡ children_of self.now n }
        ensures few { length result ≤ 2000000 }
        ensures inside { All (λ c. (n.0 < c.0) × (c.0 < length self.now.nodes)) result }
    {
        Children::new(self.rows.as_slice(), n)
    }

    /// The sibling before the node: the last node before it with the same parent, or `None` where it is the first child or
    /// the root.
    pub fn preceding_sibling(&self, n: Node) -> Option<Node>
        requires inside { n.0 < length self.now.nodes }
        ensures value { IsPrecedingSibling self.now n result }
    {
        let sibling = self.rows[n.0 as usize].sibling_before;
        if sibling < n.0 {
            Some(Node(sibling))
        } else {
            None
        }
    }

    /// The stretch of the text that the node spans.
    pub fn span(&self, n: Node) -> Span
        requires inside { n.0 < length self.now.nodes }
        ensures value { span_of self.now n ≡ Some result }
        ensures within { IsSpanOf self.now.text result }
    {
        self.rows[n.0 as usize].span
    }

    /// The text that the node spans.
    pub fn text(&self, n: Node) -> &'s str
        requires inside { n.0 < length self.now.nodes }
        ensures value { text_of self.now n ≡ Some result.now }
    {
        let span = self.rows[n.0 as usize].span;
        &self.text[span.from as usize..span.to as usize]
    }

    /// The texts of the node's own tokens, which were given to it and to no child, in order.
    pub fn own(&self, n: Node) -> OwnTokens<'_>
        requires inside { n.0 < length self.now.nodes }
        ensures value { own_of self.now n ≡ Some result }
        ensures few { length result ≤ 4294967294 }
    {
        OwnTokens::new(
            self.text,
            self.tokens.as_slice(),
            n,
            self.rows[n.0 as usize].first_own,
        )
    }

    /// The tree of these rows and tokens, once each node leads to its first token and each token to the next.
    #[tactic(auto, using(crate::proofs::Seen::greatest_depth_same))]
    pub(crate) fn linked(
        text: &'s str,
        mut rows: Vec<Row>,
        mut tokens: Vec<OwnToken>,
    ) -> SyntaxTree<'s>
        requires few { length rows.items ≤ 2000000 }
        requires shallow { greatest_depth_in (row_parents rows.items) ≤ 1000 }
        requires few_tokens { length tokens.items ≤ 4294967294 }
        requires rooted { 0 < length rows.items }
        requires ends { HasEnds rows.items }
        requires ended { AllEnded rows.items }
        requires siblings { LeadsBack rows.items }
        requires one_root { (n : ℕ) → 0 < n → n < length rows.items → 0 < above_at rows.items n }
        requires spans { (n : ℕ) → n < length rows.items → IsSpanOf text.now (row_at rows.items n).span }
        requires owners { OwnersAre rows.items tokens.items }
        requires unlinked { Unlinked rows.items }
        requires token_spans { TokenSpans text.now tokens.items }
        ensures text { result.text ≡ text.now }
        ensures nodes { result.nodes ≡ nodes_seen rows.items tokens.items }
    {
        link(&mut rows, &mut tokens);
        SyntaxTree { text, rows, tokens }
    }
}
