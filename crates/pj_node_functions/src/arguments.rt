//! What the functions take of an argument.
ghost use Rattle.std.specs.Prelude.{◌≡◌, ◌<◌, ◌++◌, ℕ, IfOk, OnOk};
ghost use Rattle.std.specs.Option.{option_map};
ghost use Rattle.pj_node_functions.specs.Arguments.{around_argument, one_node, text_argument};
ghost use Rattle.pj_xsteps.specs.Operands.{value_at, valued, with_values};
ghost use Rattle.pj_xvalue.specs.Arguments.{IsGiven};
ghost use Rattle.pj_xvalue.specs.Attributes.{attribute_value};
ghost use Rattle.pj_xvalue.specs.Items.{IsOfTree, value_of_item, values_of};
ghost use Rattle.pj_xvalue.specs.OfTree.{OfTree};
ghost use Rattle.pj_xvalue.specs.Replies.{outcome};

use pj_base::{Copied, NoMemory, Text};
use pj_tree::Node;
use pj_xvalue::{Attributes, Item, Sequence, Value, XCode, XFault, optional_string_argument};
use std::alloc::Global;

/// The node that is the only item; XPTY0004 for every other sequence.
pub(crate) fn one_node(items: &Sequence<'_>) -> Result<Node, XCode>
    ensures value { result ≡ one_node (values_of items.now) }
    ensures inside { (nodes : ℕ) → OfTree nodes (values_of items.now) → IfOk result (λ n. n.0 < nodes) }
{
    match items.as_slice() {
        [item] => match item {
            Item::Node(n) => Ok(*n),
            _ => Err(XCode::XPTY0004),
        },
        _ => Err(XCode::XPTY0004),
    }
}

/// The value of an attribute as an item.
fn item_of(value: Value<'_>) -> Item<'_>
    ensures { value_of_item result ≡ attribute_value value.entry }
{
    match value {
        Value::Str(text) => Item::Borrowed(text),
        Value::Int(number) => Item::Int(number),
        Value::Bool(truth) => Item::Bool(truth),
    }
}

/// The value of a node's attribute by its place among the names, if it has one.
fn value_at<'t, A: Attributes>(facts: &'t A, n: Node, place: u32) -> Option<Value<'t>>
    requires { n.0 < A.nodes facts.now }
    ensures { option_map attribute_value result ≡ value_at (around_argument (A.attribute_of facts.now) (A.names_of facts.now)) n place }
{
    let names = facts.names(n);
    match names.get(place as usize) {
        Some(name) => facts.attribute(n, name),
        None => None,
    }
}

/// Puts an item at the end, and in the place of an attribute its value.
fn push_valued<'t, A: Attributes>(
    facts: &'t A,
    values: &mut Sequence<'t>,
    item: &Item<'t>,
) -> Result<(), NoMemory>
    requires { IsOfTree (A.nodes facts.now) (value_of_item item.now) }
    ensures { OnOk result (values_of values.new ≡ values_of values.old ++ valued (around_argument (A.attribute_of facts.now) (A.names_of facts.now)) (value_of_item item.now)) }
{
    match item {
        Item::Attribute(n, place) => {
            if let Some(value) = value_at(facts, *n, *place) {
                values.push(item_of(value))?;
            }
            Ok(())
        }
        _ => values.push(item.copied()?),
    }
}

/// The items, with their values in the place of attributes (XPath 2.0, 2.4.2).
fn with_values<'t, A: Attributes>(
    alloc: Global,
    facts: &'t A,
    items: &[Item<'t>],
) -> Result<Sequence<'t>, NoMemory>
    requires { OfTree (A.nodes facts.now) (values_of items.now) }
    ensures { IfOk result (λ values. values_of values ≡ with_values (around_argument (A.attribute_of facts.now) (A.names_of facts.now)) (values_of items.now)) }
{
    let mut values = Sequence::new(alloc);
    for item in items {
        push_valued(facts, &mut values, item)?;
    }
    Ok(values)
}

/// `xs:string?`: a string or nothing, which is the empty string. The value of an attribute stands in its place. FOTY0012 comes where an element or the
/// document is among the items, and XPTY0004 for every other sequence.
pub fn text_argument<'t, A: Attributes>(
    alloc: Global,
    facts: &'t A,
    items: &Sequence<'t>,
) -> Result<Text, XFault>
    requires { OfTree (A.nodes facts.now) (values_of items.now) }
    ensures { IsGiven (text_argument (A.attribute_of facts.now) (A.names_of facts.now) (values_of items.now)) (outcome (λ text. text) result) }
{
    let values = with_values(alloc, facts, items.as_slice())?;
    let text = optional_string_argument(&values)?;
    Ok(Text::from_str(alloc, text)?)
}
