//! Steps over many items.
ghost use Rattle.std.specs.Prelude.{◌≡◌, ◌<◌, ◌≤◌, ◌-◌, ◌++◌, ◌∷◌, [], List, IfOk, OnOk, filter, length, map};
ghost use Rattle.pj_xvalue.specs.Items.{ItemValue, Element, value_of_item, values_of, IsOfTree};
ghost use Rattle.pj_xvalue.specs.OfTree.{OfTree};
ghost use Rattle.pj_xexpressions.specs.declared.axis.Axis.TheVariants.{DescendantOrSelf};
ghost use Rattle.pj_xexpressions.specs.declared.expr.NodeTest.TheVariants.{AnyNode};
ghost use Rattle.pj_xaxes.specs.Order.{ordered};
ghost use Rattle.pj_xsteps.specs.Steps.{passes};
ghost use Rattle.pj_xeval.specs.Over.{AreParents, above, items_above, may_go_down, stepped_at, stepped_at_each};

use pj_base::NoMemory;
use pj_tree::{Node, SyntaxTree};
use pj_xaxes::in_order;
use pj_xexpressions::{Axis, NodeTest};
use pj_xsteps::{is_backwards, stepped, turned_back};
use pj_xvalue::{Item, Sequence};
use std::alloc::Global;

/// What a step without predicates gives at the item, in document order.
#[tactic(auto, using(crate::proofs::OfTree::of_tree))]
fn step_from<'t>(
    alloc: Global,
    tree: &'t SyntaxTree<'t>,
    along: Axis,
    test: &NodeTest,
    item: &Item<'_>,
) -> Result<Sequence<'t>, NoMemory>
    requires { IsOfTree (length tree.now.nodes) (value_of_item item.now) }
    ensures { IfOk result (λ found. values_of found ≡ stepped_at tree.now along test.now (value_of_item item.now)) }
{
    let found = stepped(alloc, tree, along, test, item)?;
    if is_backwards(along) {
        Ok(turned_back(found))
    } else {
        Ok(found)
    }
}

/// What a step without predicates gives at each of the items, as it comes (XPath 2.0, 3.2).
pub fn step_from_each<'t>(
    alloc: Global,
    tree: &'t SyntaxTree<'t>,
    along: Axis,
    test: &NodeTest,
    items: &[Item<'t>],
) -> Result<Sequence<'t>, NoMemory>
    requires { OfTree (length tree.now.nodes) (values_of items.now) }
    ensures value { IfOk result (λ found. values_of found ≡ stepped_at_each tree.now along test.now (values_of items.now)) }
    ensures of_tree { IfOk result (λ found. OfTree (length tree.now.nodes) (values_of found)) }
{
    let count = tree.len();
    let is_rooted = 0 < count;
    prove!(is_rooted);
    let mut found = Sequence::new(alloc);
    for item in items {
        let more = step_from(alloc, tree, along, test, item)?;
        found.append(more)?;
    }
    Ok(found)
}

/// Whether the element passes the test.
fn is_passed(tree: &SyntaxTree<'_>, test: &NodeTest, n: Node) -> bool
    requires { n.0 < length tree.now.nodes }
    ensures { result ≡ passes tree.now test.now (Element n) }
{
    match test {
        NodeTest::Name(name) => tree.kind(n).name() == name.as_str(),
        _ => true,
    }
}

/// The item above a node: its parent, and above the root the document.
fn item_above<'t>(tree: &SyntaxTree<'_>, m: Node) -> Item<'t>
    requires { m.0 < length tree.now.nodes }
    ensures { value_of_item result ≡ above tree.now m }
{
    match tree.parent(m) {
        Some(parent) => Item::Node(parent),
        None => Item::Document,
    }
}

/// Puts the item above the node at the end where the node passes the test.
fn push_item_above<'t>(
    tree: &SyntaxTree<'_>,
    found: &mut Sequence<'t>,
    test: &NodeTest,
    m: Node,
) -> Result<(), NoMemory>
    requires { m.0 < length tree.now.nodes }
    ensures { OnOk result (values_of found.new ≡ values_of found.old ++ map (above tree.now) (filter (λ n. passes tree.now test.now (Element n)) (m ∷ []))) }
{
    if is_passed(tree, test, m) {
        found.push(item_above(tree, m))?;
    }
    Ok(())
}

/// Puts the items above those nodes from one number on and below another that pass the test at the end.
fn push_items_above<'t>(
    tree: &SyntaxTree<'t>,
    found: &mut Sequence<'t>,
    test: &NodeTest,
    from: u32,
    to: u32,
) -> Result<(), NoMemory>
    requires { to ≤ length tree.now.nodes }
    ensures { OnOk result (values_of found.new ≡ values_of found.old ++ items_above tree.now test.now from (to - from)) }
{
    for number in from..to {
        push_item_above(tree, found, test, Node(number))?;
    }
    Ok(())
}

/// Puts the parents of what is below the item and passes the test at the end: each node below it is looked at once.
fn push_parents_below<'t>(
    tree: &SyntaxTree<'t>,
    found: &mut Sequence<'t>,
    test: &NodeTest,
    item: &Item<'_>,
) -> Result<(), NoMemory>
    requires { IsOfTree (length tree.now.nodes) (value_of_item item.now) }
    ensures { (below : List ItemValue) → AreParents tree.now test.now below (values_of found.old) → OnOk result (AreParents tree.now test.now (below ++ stepped_at tree.now DescendantOrSelf AnyNode (value_of_item item.now)) (values_of found.new)) }
{
    let count = tree.len();
    let is_rooted = 0 < count;
    prove!(is_rooted);
    match item {
        Item::Node(n) => {
            let end = tree.subtree_end(*n);
            push_items_above(tree, found, test, n.0 + 1, end.0)?;
            Ok(())
        }
        Item::Document => {
            let end = tree.subtree_end(Node(0));
            push_items_above(tree, found, test, 0, end.0)?;
            Ok(())
        }
        _ => Ok(()),
    }
}

/// The items at which a step along `child` finds something, of those at or below the given ones, in document order: what
/// `descendant-or-self::node()` gives, without all that has no such child.
pub fn parents_below<'t>(
    alloc: Global,
    tree: &SyntaxTree<'t>,
    test: &NodeTest,
    items: &[Item<'t>],
) -> Result<Sequence<'t>, NoMemory>
    requires { OfTree (length tree.now.nodes) (values_of items.now) }
    ensures value { IfOk result (λ found. values_of found ≡ filter (may_go_down tree.now test.now) (ordered (stepped_at_each tree.now DescendantOrSelf AnyNode (values_of items.now)))) }
    ensures of_tree { IfOk result (λ found. OfTree (length tree.now.nodes) (values_of found)) }
{
    let count = tree.len();
    let is_rooted = 0 < count;
    prove!(is_rooted);
    let mut found = Sequence::new(alloc);
    for item in items {
        push_parents_below(tree, &mut found, test, item)?;
    }
    Ok(in_order(found))
}
