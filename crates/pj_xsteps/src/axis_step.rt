//! Axis steps and attribute steps.
ghost use Rattle.std.specs.Prelude.{◌≡◌, ℕ, ◌<◌, ◌^◌, ◌++◌, ◌∷◌, [], ◌&&◌, IfOk, OnOk, length, filter, map, slice_index_or};
ghost use Rattle.pj_tree.specs.Tree.{Tree};
ghost use Rattle.pj_xvalue.specs.Items.{Attribute as AttributeValue, Document as DocumentValue, Element as ElementValue, value_of_item, values_of, IsOfTree};
ghost use Rattle.pj_xvalue.specs.OfTree.{OfTree};
ghost use Rattle.pj_xaxes.specs.Axes.{axis_nodes, is_reverse};
ghost use Rattle.pj_xsteps.specs.Context.{around};
ghost use Rattle.pj_xsteps.specs.Steps.{attributes as attributes_of_item, attributes_of, document_behind, elements, has_value, named_attributes, of_attribute, of_document, of_element, passes, passes_name, stepped as stepped_of};

use crate::setting::Setting;
use pj_base::NoMemory;
use pj_tree::{Node, SyntaxTree};
use pj_xaxes::axis;
use pj_xexpressions::{Axis, NodeTest};
use pj_xvalue::{Attributes, Item, Sequence};
use std::alloc::Global;

/// Whether the element passes the test.
fn element_passes(tree: &SyntaxTree<'_>, test: &NodeTest, n: Node) -> bool
    requires { n.0 < length tree.now.nodes }
    ensures { result ≡ passes tree.now test.now (ElementValue n) }
{
    match test {
        NodeTest::Name(name) => tree.kind(n).name() == name.as_str(),
        _ => true,
    }
}

/// Puts the elements of an axis that pass the test at the end, in axis order.
fn push_elements<'t>(
    tree: &'t SyntaxTree<'t>,
    items: &mut Sequence<'t>,
    along: Axis,
    test: &NodeTest,
    n: Node,
) -> Result<(), NoMemory>
    requires { n.0 < length tree.now.nodes }
    ensures { OnOk result (values_of items.new ≡ values_of items.old ++ filter (passes tree.now test.now) (elements (axis_nodes tree.now along n))) }
{
    for m in axis(tree, along, n) {
        if element_passes(tree, test, m) {
            items.push(Item::Node(m))?;
        }
    }
    Ok(())
}

/// Puts the document at the end where it passes the test, which none of a name does.
fn push_document<'t>(items: &mut Sequence<'t>, test: &NodeTest) -> Result<(), NoMemory>
    ensures { (t : Tree) → OnOk result (values_of items.new ≡ values_of items.old ++ filter (passes t test.now) (DocumentValue ∷ [])) }
{
    if let NodeTest::AnyNode = test {
        items.push(Item::Document)?;
    }
    Ok(())
}

/// Puts the attribute at the end where it passes the test, as an item of an axis of nodes.
fn push_attribute<'t>(
    items: &mut Sequence<'t>,
    test: &NodeTest,
    n: Node,
    place: u32,
) -> Result<(), NoMemory>
    ensures { (t : Tree) → OnOk result (values_of items.new ≡ values_of items.old ++ filter (passes t test.now) (AttributeValue n place ∷ [])) }
{
    if let NodeTest::AnyNode = test {
        items.push(Item::Attribute(n, place))?;
    }
    Ok(())
}

/// Puts the document at the end where it is behind the elements of the axis and passes the test.
fn push_document_behind<'t>(
    items: &mut Sequence<'t>,
    along: Axis,
    test: &NodeTest,
    n: Node,
) -> Result<(), NoMemory>
    ensures { (t : Tree) → OnOk result (values_of items.new ≡ values_of items.old ++ filter (passes t test.now) (document_behind along n)) }
{
    match along {
        Axis::Parent => {
            if n.0 == 0 {
                push_document(items, test)
            } else {
                Ok(())
            }
        }
        Axis::Ancestor | Axis::AncestorOrSelf => push_document(items, test),
        _ => Ok(()),
    }
}

/// Puts what passes the test of an element's axis at the end, in axis order.
#[tactic(auto, using(crate::proofs::Values::filters))]
fn push_of_element<'t>(
    tree: &'t SyntaxTree<'t>,
    items: &mut Sequence<'t>,
    along: Axis,
    test: &NodeTest,
    n: Node,
) -> Result<(), NoMemory>
    requires { n.0 < length tree.now.nodes }
    ensures { OnOk result (values_of items.new ≡ values_of items.old ++ filter (passes tree.now test.now) (of_element tree.now along n)) }
{
    push_elements(tree, items, along, test, n)?;
    push_document_behind(items, along, test, n)?;
    Ok(())
}

/// Puts what passes the test of the document's axis at the end, in axis order.
#[tactic(auto, using(crate::proofs::Values::filters))]
fn push_of_document<'t>(
    tree: &'t SyntaxTree<'t>,
    items: &mut Sequence<'t>,
    along: Axis,
    test: &NodeTest,
) -> Result<(), NoMemory>
    ensures { OnOk result (values_of items.new ≡ values_of items.old ++ filter (passes tree.now test.now) (of_document tree.now along)) }
{
    let count = tree.len();
    let is_rooted = 0 < count;
    prove!(is_rooted);
    match along {
        Axis::Child => push_root(tree, items, test),
        Axis::Descendant => push_elements(tree, items, Axis::DescendantOrSelf, test, Node(0)),
        Axis::DescendantOrSelf => {
            push_document(items, test)?;
            push_elements(tree, items, Axis::DescendantOrSelf, test, Node(0))?;
            Ok(())
        }
        Axis::SelfNode | Axis::AncestorOrSelf => push_document(items, test),
        _ => Ok(()),
    }
}

/// Puts the root at the end where it passes the test.
fn push_root<'t>(
    tree: &SyntaxTree<'t>,
    items: &mut Sequence<'t>,
    test: &NodeTest,
) -> Result<(), NoMemory>
    requires { 0 < length tree.now.nodes }
    ensures { OnOk result (values_of items.new ≡ values_of items.old ++ filter (passes tree.now test.now) (ElementValue (record { 0 = 0 }) ∷ [])) }
{
    push_element(tree, items, test, Node(0))
}

/// Puts the element at the end where it passes the test.
fn push_element<'t>(
    tree: &SyntaxTree<'t>,
    items: &mut Sequence<'t>,
    test: &NodeTest,
    n: Node,
) -> Result<(), NoMemory>
    requires { n.0 < length tree.now.nodes }
    ensures { OnOk result (values_of items.new ≡ values_of items.old ++ filter (passes tree.now test.now) (ElementValue n ∷ [])) }
{
    if element_passes(tree, test, n) {
        items.push(Item::Node(n))?;
    }
    Ok(())
}

/// Puts what passes the test of an attribute's axis at the end, in axis order.
#[tactic(auto, using(crate::proofs::Values::filters))]
fn push_of_attribute<'t>(
    tree: &'t SyntaxTree<'t>,
    items: &mut Sequence<'t>,
    along: Axis,
    test: &NodeTest,
    n: Node,
    place: u32,
) -> Result<(), NoMemory>
    requires { n.0 < length tree.now.nodes }
    ensures { OnOk result (values_of items.new ≡ values_of items.old ++ filter (passes tree.now test.now) (of_attribute tree.now along n place)) }
{
    match along {
        Axis::SelfNode | Axis::DescendantOrSelf => push_attribute(items, test, n, place),
        Axis::Following => {
            push_of_element(tree, items, Axis::Descendant, test, n)?;
            push_of_element(tree, items, Axis::Following, test, n)?;
            Ok(())
        }
        Axis::Parent => push_element(tree, items, test, n),
        Axis::Ancestor => push_of_element(tree, items, Axis::AncestorOrSelf, test, n),
        Axis::Preceding => push_of_element(tree, items, Axis::Preceding, test, n),
        Axis::AncestorOrSelf => {
            push_attribute(items, test, n, place)?;
            push_of_element(tree, items, Axis::AncestorOrSelf, test, n)?;
            Ok(())
        }
        Axis::Child | Axis::Descendant | Axis::FollowingSibling | Axis::PrecedingSibling => Ok(()),
    }
}

/// The items of an axis that pass the test, in axis order.
fn items_on_axis<'t>(
    alloc: Global,
    tree: &'t SyntaxTree<'t>,
    along: Axis,
    test: &NodeTest,
    item: &Item<'_>,
) -> Result<Sequence<'t>, NoMemory>
    requires { IsOfTree (length tree.now.nodes) (value_of_item item.now) }
    ensures { IfOk result (λ items. values_of items ≡ stepped_of tree.now along test.now (value_of_item item.now)) }
{
    let mut items = Sequence::new(alloc);
    match item {
        Item::Node(n) => push_of_element(tree, &mut items, along, test, *n)?,
        Item::Document => push_of_document(tree, &mut items, along, test)?,
        Item::Attribute(n, place) => push_of_attribute(tree, &mut items, along, test, *n, *place)?,
        _ => {}
    }
    Ok(items)
}

/// The items of an axis that pass the test, in axis order (XPath 2.0, 3.2.1). An atomic value has none.
pub fn stepped<'t>(
    alloc: Global,
    tree: &'t SyntaxTree<'t>,
    along: Axis,
    test: &NodeTest,
    item: &Item<'_>,
) -> Result<Sequence<'t>, NoMemory>
    requires { IsOfTree (length tree.now.nodes) (value_of_item item.now) }
    ensures value { IfOk result (λ items. values_of items ≡ stepped_of tree.now along test.now (value_of_item item.now)) }
    ensures of_tree { IfOk result (λ items. OfTree (length tree.now.nodes) (values_of items)) }
{
    let count = tree.len();
    let is_rooted = 0 < count;
    prove!(is_rooted);
    let found = items_on_axis(alloc, tree, along, test, item)?;
    Ok(found)
}

/// Whether an attribute of this name passes the test.
fn name_passes(test: &NodeTest, name: &str) -> bool
    ensures { result ≡ passes_name test.now name.now }
{
    match test {
        NodeTest::Name(wanted) => name == wanted.as_str(),
        NodeTest::AnyName => true,
        NodeTest::AnyNode => true,
        NodeTest::AnyElement => false,
    }
}

/// Whether the node has an attribute of this name that passes the test.
fn attribute_passes<'t, A: Attributes>(
    setting: &Setting<'t, A>,
    test: &NodeTest,
    n: Node,
    name: &str,
) -> bool
    requires { n.0 < length setting.now.tree.now.nodes }
    ensures { result ≡ (passes_name test.now name.now && has_value (A.attribute_of setting.now.facts.now n name.now)) }
{
    name_passes(test, name) && setting.facts.attribute(n, name).is_some()
}

/// Puts the attribute of this place and name at the end where it passes the test.
fn push_named<'t, A: Attributes>(
    setting: &Setting<'t, A>,
    items: &mut Sequence<'t>,
    test: &NodeTest,
    n: Node,
    place: usize,
    name: &str,
) -> Result<(), NoMemory>
    requires inside { n.0 < length setting.now.tree.now.nodes }
    requires few { place < 2 ^ 32 }
    ensures { OnOk result (values_of items.new ≡ values_of items.old ++ named_attributes (A.attribute_of setting.now.facts.now n) test.now n ((place, name.now) ∷ [])) }
{
    if attribute_passes(setting, test, n, name) {
        items.push(Item::Attribute(n, place as u32))?;
    }
    Ok(())
}

/// The name at a place.
fn name_at(names: &'static [&'static str], place: usize) -> &'static str
    requires { place < length names.now }
    ensures { result.now ≡ slice_index_or (map (λ name. name.now) names.now) place result.now }
{
    names[place]
}

/// The attributes of a node that pass the test, in order.
fn node_attributes<'t, A: Attributes>(
    setting: &Setting<'t, A>,
    test: &NodeTest,
    n: Node,
) -> Result<Sequence<'t>, NoMemory>
    requires { n.0 < length setting.now.tree.now.nodes }
    ensures { IfOk result (λ items. values_of items ≡ attributes_of (around setting.now.tree.now (A.attribute_of setting.now.facts.now) (A.names_of setting.now.facts.now) setting.now.patterns.now) test.now n) }
{
    let mut items = Sequence::new(setting.alloc);
    let names = setting.facts.names(n);
    for i in 0..names.len() {
        let name = name_at(names, i);
        push_named(setting, &mut items, test, n, i, name)?;
    }
    Ok(items)
}

/// The attributes of an item that pass the test, in order (XPath 2.0, 3.2.1). Only elements have attributes.
pub fn attributes<'t, A: Attributes>(
    setting: &Setting<'t, A>,
    test: &NodeTest,
    item: &Item<'_>,
) -> Result<Sequence<'t>, NoMemory>
    requires { IsOfTree (length setting.now.tree.now.nodes) (value_of_item item.now) }
    ensures value { IfOk result (λ items. values_of items ≡ attributes_of_item (around setting.now.tree.now (A.attribute_of setting.now.facts.now) (A.names_of setting.now.facts.now) setting.now.patterns.now) test.now (value_of_item item.now)) }
    ensures of_tree { IfOk result (λ items. OfTree (length setting.now.tree.now.nodes) (values_of items)) }
{
    match item {
        Item::Node(n) => {
            let found = node_attributes(setting, test, *n)?;
            Ok(found)
        }
        _ => Ok(Sequence::new(setting.alloc)),
    }
}

/// Whether the axis goes backwards (XPath 2.0, 3.2.1.1).
pub fn is_backwards(along: Axis) -> bool
    ensures { result ≡ is_reverse along }
{
    match along {
        Axis::Parent => true,
        Axis::Ancestor => true,
        Axis::PrecedingSibling => true,
        Axis::Preceding => true,
        Axis::AncestorOrSelf => true,
        _ => false,
    }
}
