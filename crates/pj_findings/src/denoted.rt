//! The nodes that a query finds.
ghost use Rattle.std.specs.Prelude.{◌≡◌, ◌++◌, IfOk, IsTrue, OnOk, flat_map};
ghost use Rattle.std.specs.List.{list_all};
ghost use Rattle.pj_xaxes.specs.Order.{ordered};
ghost use Rattle.pj_xvalue.specs.Items.{value_of_item, values_of};
ghost use Rattle.pj_findings.specs.Denoted.{denoted, element_in, is_element};

use pj_base::{ListOf, NoMemory};
use pj_tree::Node;
use pj_xaxes::in_order;
use pj_xvalue::{Item, Sequence, XCode};
use std::alloc::Global;

/// Nodes of a tree.
pub type Nodes = ListOf<Node>;

/// Whether an item is an element, that is a node of the tree.
fn is_element(item: &Item<'_>) -> bool
    ensures { result ≡ is_element (value_of_item item.now) }
{
    match item {
        Item::Node(_) => true,
        _ => false,
    }
}

/// Whether each item is one.
fn is_each_element(items: &[Item<'_>]) -> bool
    ensures { result ≡ list_all (λ item. is_element (value_of_item item)) items.now }
{
    items.iter().all(|item| is_element(item))
}

/// Whether all are nodes of the tree.
fn are_elements(items: &[Item<'_>]) -> bool
    ensures { result ≡ list_all is_element (values_of items.now) }
{
    is_each_element(items)
}

/// Puts the node of the tree that an item is behind others, if it is one.
fn put_element(nodes: &mut Nodes, item: &Item<'_>) -> Result<(), NoMemory>
    ensures { OnOk result (nodes.new ≡ nodes.old ++ element_in (value_of_item item.now)) }
{
    match item {
        Item::Node(n) => nodes.push(*n),
        _ => Ok(()),
    }
}

/// The nodes of the tree among the items.
fn elements_in(alloc: Global, items: &[Item<'_>]) -> Result<Nodes, NoMemory>
    ensures { IfOk result (λ nodes. nodes ≡ flat_map (λ item. element_in (value_of_item item)) items.now) }
{
    let mut nodes = Nodes::new(alloc);
    for item in items {
        put_element(&mut nodes, item)?;
    }
    Ok(nodes)
}

/// The nodes in the order of their numbers, each once.
fn nodes_in_order(alloc: Global, items: Sequence<'_>) -> Result<Nodes, NoMemory>
    requires { IsTrue (list_all is_element (values_of items)) }
    ensures { IfOk result (λ nodes. nodes ≡ flat_map element_in (ordered (values_of items.entry))) }
{
    let ordered = in_order(items);
    elements_in(alloc, ordered.as_slice())
}

/// The nodes that a query of these items finds, in the order of their numbers, each once. XPTY0004 comes exactly where an
/// item is an attribute, the document or an atomic value.
pub fn denoted_nodes(alloc: Global, items: Sequence<'_>) -> Result<Result<Nodes, XCode>, NoMemory>
    ensures { IfOk result (λ nodes. nodes ≡ denoted (values_of items.entry)) }
{
    if are_elements(items.as_slice()) {
        let nodes = nodes_in_order(alloc, items)?;
        return Ok(Ok(nodes));
    }
    Ok(Err(XCode::XPTY0004))
}
