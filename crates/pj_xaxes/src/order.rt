//! Document order.
ghost use Rattle.std.specs.Prelude.{◌≡◌, ℕ, map, IsTrue};
ghost use Rattle.std.specs.List.Sorted.{IsStrictlySortedBy};
ghost use Rattle.std.specs.Ordering.{eq_by_cmp, is_lt};
ghost use Rattle.pj_xaxes.specs.Standing.{standing};
ghost use Rattle.pj_xvalue.specs.Items.{ItemValue, value_of_item, values_of, are_nodes};
ghost use Rattle.pj_xvalue.specs.OfTree.{OfTree};
ghost use Rattle.pj_xaxes.specs.Order.{position_of, document_order, ordered, has_item};

use pj_xvalue::{Item, Sequence};
use std::cmp::Ordering;

/// Where a node, an attribute or the document stands: in document order, positions are in their own order.
#[derive(Clone, Copy, Debug, PartialEq, Eq, PartialOrd, Ord, Drop)]
struct Position {
    /// The number of the node, of which the document has none.
    node: Option<u32>,
    /// The place of the attribute, where it is one.
    attribute: Option<u32>,
}

/// Where an item stands in document order.
fn order_position(item: &Item<'_>) -> Position
    ensures { result ≡ standing (position_of (value_of_item item.now)) }
{
    match item {
        Item::Node(n) => Position {
            node: Some(n.0),
            attribute: None,
        },
        Item::Attribute(n, place) => Position {
            node: Some(n.0),
            attribute: Some(*place),
        },
        _ => Position {
            node: None,
            attribute: None,
        },
    }
}

/// Whether both items stand at one position in document order, as two nodes do exactly where they are one.
pub fn is_same_position(item: &Item<'_>, other: &Item<'_>) -> bool
    ensures { result ≡ eq_by_cmp document_order (value_of_item item.now) (value_of_item other.now) }
{
    order_position(item).cmp(&order_position(other)) == Ordering::Equal
}

/// Whether the node, attribute or document is among some that stand in document order, each once. The time is the logarithm
/// of their number.
pub fn is_among(nodes: &[Item<'_>], node: &Item<'_>) -> bool
    requires { IsStrictlySortedBy document_order (values_of nodes.now) }
    ensures { result ≡ has_item (values_of nodes.now) (value_of_item node.now) }
{
    let position = order_position(node);
    nodes
        .binary_search_by(|other| order_position(other).cmp(&position))
        .is_ok()
}

/// Whether the item stands before the other in document order.
fn stands_before(item: &Item<'_>, other: &Item<'_>) -> bool
    ensures { result ≡ is_lt (document_order (value_of_item item.now) (value_of_item other.now)) }
{
    order_position(item).cmp(&order_position(other)) == Ordering::Less
}

/// Whether each of the items stands behind the one before it in document order.
fn is_ascending(items: &[Item<'_>]) -> bool
    ensures { IsTrue result → IsStrictlySortedBy document_order (values_of items.now) }
{
    items.is_sorted_by(|item, next| stands_before(item, next))
}

/// The nodes, attributes and the document among the items in document order, each once: they are sorted.
fn sort_nodes(items: Sequence<'_>) -> Sequence<'_>
    requires { IsTrue (are_nodes (values_of items)) }
    ensures { values_of result ≡ ordered (values_of items.entry) }
{
    let mut held = items.into_vec();
    held.sort_unstable_by_key(|item| order_position(item));
    held.dedup_by(|item, last| is_same_position(item, last));
    Sequence::from_vec(held)
}

/// The nodes, attributes and the document among the items in document order, each once (XPath 2.0, 2.4.1): the document,
/// then each node, its attributes, and its children. It takes no memory. Those that ascend are not sorted.
pub fn in_order(items: Sequence<'_>) -> Sequence<'_>
    requires { IsTrue (are_nodes (values_of items)) }
    ensures value { values_of result ≡ ordered (values_of items.entry) }
    ensures ascending { IsStrictlySortedBy document_order (values_of result) }
    ensures of_tree { (nodes : ℕ) → OfTree nodes (values_of items.entry) → OfTree nodes (values_of result) }
    ensures members { (x : ItemValue) → has_item (values_of result) x ≡ has_item (values_of items.entry) x }
{
    if is_ascending(items.as_slice()) {
        items
    } else {
        sort_nodes(items)
    }
}
