//! What is asked of the items of a sequence.
ghost use Rattle.std.specs.Prelude.{◌≡◌, not};
ghost use Rattle.std.specs.List.{list_any, list_all};
ghost use Rattle.pj_xvalue.specs.Atomic.{has_node as has_node_of};
ghost use Rattle.pj_xvalue.specs.Items.{value_of_item, values_of, is_node, is_attribute, are_nodes as are_nodes_of, have_no_attribute as have_no_attribute_of};

use crate::item::Item;

/// Whether each item is a node.
fn is_each_node(items: &[Item<'_>]) -> bool
    ensures { result ≡ list_all (λ item. is_node (value_of_item item)) items.now }
{
    items.iter().all(|item| item.is_node())
}

/// Whether an item is a node.
fn is_some_node(items: &[Item<'_>]) -> bool
    ensures { result ≡ list_any (λ item. is_node (value_of_item item)) items.now }
{
    items.iter().any(|item| item.is_node())
}

/// Whether no item is an attribute.
fn is_each_no_attribute(items: &[Item<'_>]) -> bool
    ensures { result ≡ list_all (λ item. not (is_attribute (value_of_item item))) items.now }
{
    items.iter().all(|item| !item.is_attribute())
}

/// Whether all are nodes: the document, elements or attributes.
pub fn are_nodes(items: &[Item<'_>]) -> bool
    ensures { result ≡ are_nodes_of (values_of items.now) }
{
    is_each_node(items)
}

/// Whether one is a node.
pub fn has_node(items: &[Item<'_>]) -> bool
    ensures { result ≡ has_node_of (values_of items.now) }
{
    is_some_node(items)
}

/// Whether none is an attribute.
pub fn have_no_attribute(items: &[Item<'_>]) -> bool
    ensures { result ≡ have_no_attribute_of (values_of items.now) }
{
    is_each_no_attribute(items)
}
