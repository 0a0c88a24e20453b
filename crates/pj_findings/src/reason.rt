//! Why findings are suppressed.
ghost use Rattle.std.specs.Prelude.{◌≡◌, ◌<◌, ◌==◌, length};
ghost use Rattle.std.specs.List.{list_any};
ghost use Rattle.std.specs.List.Sorted.{IsNonDecreasing};
ghost use Rattle.pj_suppress.specs.Annotation.{by_annotation};
ghost use Rattle.pj_findings.specs.Reasons.{plain_reason};

use pj_base::Text;
use pj_reports::Reason;
use pj_suppress::{Lines, by_annotation, is_marked};
use pj_tree::{Node, SyntaxTree};
use pj_xvalue::Attributes;

/// The first reason that covers a finding of the rule of this name at a node that begins on the line, where comments mark
/// these lines and the rule's own regular expression covers its message or does not. Whether the rule's XPath covers the
/// finding is asked only where there is none.
pub fn plain_reason<A: Attributes>(
    tree: &SyntaxTree<'_>,
    facts: &A,
    marked: &Lines,
    rule: &Text,
    is_covered: bool,
    n: Node,
    line: u32,
) -> Option<Reason>
    requires inside { n.0 < length tree.now.nodes }
    requires facts { A.nodes facts.now ≡ length tree.now.nodes }
    requires ascending { IsNonDecreasing marked.now }
    ensures { result ≡ plain_reason (by_annotation tree.now (A.attribute_of facts.now) rule.now n) (list_any (λ other. other == line) marked.now) is_covered }
{
    if by_annotation(tree, facts, n, rule) {
        return Some(Reason::Annotation);
    }
    if is_marked(marked, line) {
        return Some(Reason::Comment);
    }
    if is_covered {
        return Some(Reason::Regex);
    }
    None
}
