//! Where findings stand.
ghost use Rattle.std.specs.Prelude.{◌≡◌, ◌<◌, length};
ghost use Rattle.pj_findings.specs.Extents.{last_of, extent_of};

use pj_tree::{Node, Place, Span, SyntaxTree};
use pj_xvalue::Attributes;

/// Where a node stands in its file.
#[derive(Clone, Copy, Debug, PartialEq, Eq)]
pub struct Extent {
    /// The place of its first character.
    pub begin: Place,
    /// The place of its last character: of a node without characters, where it begins.
    pub end: Place,
}

/// The offset of the last byte of a span, and of an empty span where it begins.
fn last_of(span: Span) -> u32
    ensures { result ≡ last_of span }
{
    if span.from < span.to {
        span.to - 1
    } else {
        span.from
    }
}

/// Where a node stands: the whole span of it, in the file as it is.
pub fn extent_of<A: Attributes>(tree: &SyntaxTree<'_>, facts: &A, n: Node) -> Extent
    requires inside { n.0 < length tree.now.nodes }
    requires text { A.text_length facts.now ≡ length tree.now.text }
    ensures { result ≡ extent_of (A.place_of facts.now) tree.now n }
{
    let span = tree.span(n);
    let begin = facts.place(span.from);
    let end = facts.place(last_of(span));
    Extent { begin, end }
}
