//! Where the nodes of an axis stand: a test for one, the numbers between which all stand, and how far to go from one.
//!
//! Each takes a bounded number of reads of the tree: of the ends of subtrees, of parents and of siblings before.
ghost use Rattle.std.specs.Prelude.{◌≡◌, ◌+◌, ◌<◌, ◌≤◌, length, MatchOption, true, [], ◌∷◌, ◌-◌, reverse};
ghost use Rattle.pj_tree.specs.Tree.{parent_of, is_parent, is_descendant};
ghost use Rattle.pj_xaxes.specs.Axes.{on_axis, is_reverse, same_parent};
ghost use Rattle.pj_xaxes.specs.Search.{picked};
ghost use Rattle.pj_xaxes.specs.Search.{is_over, least, reach, IsPastParent, NoneFrom, IsWindow, IsPastSiblingBefore, IsPastSiblings};

use pj_tree::{Node, SyntaxTree};
use pj_xexpressions::Axis;

/// Whether the axis goes backwards.
pub fn goes_backwards(axis: Axis) -> bool
    ensures { result ≡ is_reverse axis }
{
    match axis {
        Axis::Parent
        | Axis::Ancestor
        | Axis::PrecedingSibling
        | Axis::Preceding
        | Axis::AncestorOrSelf => true,
        _ => false,
    }
}

/// Whether both parents are there and are the same.
fn is_same_parent(tree: &SyntaxTree<'_>, n: Node, m: Node) -> bool
    requires inside_n { n.0 < length tree.now.nodes }
    requires inside_m { m.0 < length tree.now.nodes }
    ensures { result ≡ same_parent (parent_of tree.now m) (parent_of tree.now n) }
{
    match (tree.parent(m), tree.parent(n)) {
        (Some(p), Some(q)) => p.0 == q.0,
        _ => false,
    }
}

/// Whether the node `above` is the other node's parent.
fn is_parent_of(tree: &SyntaxTree<'_>, above: Node, m: Node) -> bool
    requires inside { m.0 < length tree.now.nodes }
    ensures { result ≡ is_parent above (parent_of tree.now m) }
{
    match tree.parent(m) {
        Some(p) => p.0 == above.0,
        None => false,
    }
}

/// Whether the node is a descendant of the node `above`.
fn is_below(tree: &SyntaxTree<'_>, above: Node, m: Node) -> bool
    requires inside { above.0 < length tree.now.nodes }
    ensures { result ≡ is_descendant tree.now m above }
{
    let end = tree.subtree_end(above);
    above.0 < m.0 && m.0 < end.0
}

/// Whether the node `m` is on the axis of the node `n`.
pub fn is_on_axis(tree: &SyntaxTree<'_>, axis: Axis, n: Node, m: Node) -> bool
    requires inside_n { n.0 < length tree.now.nodes }
    requires inside_m { m.0 < length tree.now.nodes }
    ensures { result ≡ on_axis tree.now axis n m }
{
    match axis {
        Axis::Child => is_parent_of(tree, n, m),
        Axis::Descendant => is_below(tree, n, m),
        Axis::SelfNode => m.0 == n.0,
        Axis::DescendantOrSelf => m.0 == n.0 || is_below(tree, n, m),
        Axis::FollowingSibling => n.0 < m.0 && is_same_parent(tree, n, m),
        Axis::Following => n.0 < m.0 && !is_below(tree, n, m),
        Axis::Parent => is_parent_of(tree, m, n),
        Axis::Ancestor => is_below(tree, m, n),
        Axis::PrecedingSibling => m.0 < n.0 && is_same_parent(tree, n, m),
        Axis::Preceding => m.0 < n.0 && !is_below(tree, m, n),
        Axis::AncestorOrSelf => m.0 == n.0 || is_below(tree, m, n),
    }
}

/// Whether on this axis subtrees are stepped over.
fn steps_over(axis: Axis) -> bool
    ensures { result ≡ is_over axis }
{
    match axis {
        Axis::Child | Axis::FollowingSibling => true,
        _ => false,
    }
}

/// The number to go on from behind the node `m`: no node between is on the axis of the node `n`. Children and siblings
/// are stepped over with all that is below them.
pub fn next_number(tree: &SyntaxTree<'_>, axis: Axis, n: Node, m: Node) -> u32
    requires inside_n { n.0 < length tree.now.nodes }
    requires inside_m { m.0 < length tree.now.nodes }
    requires behind { least axis n ≤ m.0 }
    ensures later { m.0 < result }
    ensures none { NoneFrom (on_axis tree.now axis n) (m.0 + 1) result }
{
    let count = tree.len();
    prove!(m.0 < count);
    if steps_over(axis) {
        tree.subtree_end(m).0
    } else {
        m.0 + 1
    }
}

/// The number past the node's parent, or 0 for the root.
fn past_parent(tree: &SyntaxTree<'_>, m: Node) -> u32
    requires inside { m.0 < length tree.now.nodes }
    ensures past { IsPastParent (parent_of tree.now m) result }
    ensures before { result ≤ m.0 }
{
    match tree.parent(m) {
        Some(p) => p.0 + 1,
        None => 0,
    }
}

/// The number past the sibling before the node, or 0 where it is the first child or the root.
fn past_sibling_before(tree: &SyntaxTree<'_>, n: Node) -> u32
    requires inside { n.0 < length tree.now.nodes }
    ensures { IsPastSiblingBefore tree.now n result }
{
    match tree.preceding_sibling(n) {
        Some(m) => m.0 + 1,
        None => 0,
    }
}

/// The number below which to go on from the node `m`, backwards: no node from it on and before `m` is on the axis of the
/// node `n`. From an ancestor one goes to its parent, and from a sibling to the sibling before it.
pub fn last_number(tree: &SyntaxTree<'_>, axis: Axis, n: Node, m: Node, is_on: bool) -> u32
    requires inside_n { n.0 < length tree.now.nodes }
    requires inside_m { m.0 < length tree.now.nodes }
    requires before { m.0 < reach axis n }
    requires is_on { is_on ≡ on_axis tree.now axis n m }
    ensures earlier { result ≤ m.0 }
    ensures none { NoneFrom (on_axis tree.now axis n) result m.0 }
{
    let count = tree.len();
    prove!(m.0 < count);
    if !is_on {
        return m.0;
    }
    match axis {
        Axis::Ancestor | Axis::AncestorOrSelf => past_parent(tree, m),
        Axis::PrecedingSibling => past_sibling_before(tree, m),
        _ => m.0,
    }
}

/// The number past the last sibling of the node and all that is below it, and 0 for the root.
fn past_siblings(tree: &SyntaxTree<'_>, n: Node) -> u32
    requires inside { n.0 < length tree.now.nodes }
    ensures within { result ≤ length tree.now.nodes }
    ensures past { IsPastSiblings tree.now (parent_of tree.now n) result }
{
    match tree.parent(n) {
        Some(p) => tree.subtree_end(p).0,
        None => 0,
    }
}

/// The numbers between which all nodes of the axis stand: the first, and the one past the last.
pub fn window(tree: &SyntaxTree<'_>, axis: Axis, n: Node) -> (u32, u32)
    requires inside { n.0 < length tree.now.nodes }
    ensures { IsWindow tree.now axis n result.0 result.1 }
{
    let count = tree.len();
    let end = tree.subtree_end(n).0;
    let past = past_parent(tree, n);
    match axis {
        Axis::Child => (n.0 + 1, end),
        Axis::Descendant => (n.0 + 1, end),
        Axis::SelfNode => (n.0, n.0 + 1),
        Axis::DescendantOrSelf => (n.0, end),
        Axis::FollowingSibling => (end, past_siblings(tree, n)),
        Axis::Following => (end, count),
        Axis::Parent => (past.saturating_sub(1), past),
        Axis::Ancestor => (0, past),
        Axis::PrecedingSibling => (past, past_sibling_before(tree, n)),
        Axis::Preceding => (0, n.0),
        Axis::AncestorOrSelf => (0, n.0 + 1),
    }
}

/// The first node on the axis from one number on and below another, with the number to go on from.
pub fn first_between(
    tree: &SyntaxTree<'_>,
    axis: Axis,
    n: Node,
    low: u32,
    high: u32,
) -> (Option<Node>, u32)
    requires inside { n.0 < length tree.now.nodes }
    requires within { high ≤ length tree.now.nodes }
    requires behind { least axis n ≤ low }
    ensures found { MatchOption result.0 ((picked (on_axis tree.now axis n) low (high - low) ≡ []) × (picked (on_axis tree.now axis n) result.1 (high - result.1) ≡ [])) (λ m. picked (on_axis tree.now axis n) low (high - low) ≡ m ∷ picked (on_axis tree.now axis n) result.1 (high - result.1)) }
    ensures behind { least axis n ≤ result.1 }
{
    let mut from = low;
    while from < high {
        let m = Node(from);
        from = next_number(tree, axis, n, m);
        if is_on_axis(tree, axis, n, m) {
            return (Some(m), from);
        }
    }
    (None, from)
}

/// The last node on the axis from one number on and below another, with the number below which to go on.
pub fn last_between(
    tree: &SyntaxTree<'_>,
    axis: Axis,
    n: Node,
    low: u32,
    high: u32,
) -> (Option<Node>, u32)
    requires inside { n.0 < length tree.now.nodes }
    requires within { high ≤ length tree.now.nodes }
    requires before { high ≤ reach axis n }
    ensures found { MatchOption result.0 ((reverse (picked (on_axis tree.now axis n) low (high - low)) ≡ []) × (reverse (picked (on_axis tree.now axis n) low (result.1 - low)) ≡ [])) (λ m. reverse (picked (on_axis tree.now axis n) low (high - low)) ≡ m ∷ reverse (picked (on_axis tree.now axis n) low (result.1 - low))) }
    ensures before { result.1 ≤ high }
{
    let mut to = high;
    while low < to {
        let m = Node(to - 1);
        let is_on = is_on_axis(tree, axis, n, m);
        to = last_number(tree, axis, n, m, is_on);
        if is_on {
            return (Some(m), to);
        }
    }
    (None, to)
}
