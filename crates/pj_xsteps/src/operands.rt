//! Operands: typed values, and the counts and types that operators want.
ghost use Rattle.std.specs.Prelude.{◌≡◌, ℕ, ◌<◌, ◌++◌, IfOk, OnOk, IsTrue, length, string_bytes};
ghost use Rattle.std.specs.Option.{option_map};
ghost use Rattle.pj_xvalue.specs.Attributes.{attribute_value};
ghost use Rattle.pj_xvalue.specs.Comparison.{general_comparison};
ghost use Rattle.pj_xvalue.specs.Items.{value_of_item, values_of, have_no_attribute, IsOfTree};
ghost use Rattle.pj_xvalue.specs.OfTree.{OfTree};
ghost use Rattle.pj_xvalue.specs.Replies.{outcome};
ghost use Rattle.pj_xvalue.specs.Arguments.{IsGiven, integer_or_nothing, text_in};
ghost use Rattle.pj_xsteps.specs.Context.{around};
ghost use Rattle.pj_xsteps.specs.Operands.{operand as operand_of, text_operand as text_operand_of, valued, value_at, with_values};

use crate::setting::Setting;
use pj_base::{Copied, NoMemory};
use pj_tree::Node;
use pj_xexpressions::Compare;
use pj_xvalue::{Attributes, Item, Sequence, Value, XCode, XFault, compare, has_node};
use std::alloc::Global;

/// The value of an attribute as an item.
fn item_of(value: Value<'_>) -> Item<'_>
    ensures { value_of_item result ≡ attribute_value value.entry }
{
    match value {
        Value::Str(text) => Item::Borrowed(text),
        Value::Int(number) => Item::Int(number),
        Value::Bool(truth) => Item::Bool(truth),
    }
}

/// The value of a node's attribute by its place among the names, if it has one.
fn value_at<'t, A: Attributes>(setting: &Setting<'t, A>, n: Node, place: u32) -> Option<Value<'t>>
    requires { n.0 < length setting.now.tree.now.nodes }
    ensures { option_map attribute_value result ≡ value_at (around setting.now.tree.now (A.attribute_of setting.now.facts.now) (A.names_of setting.now.facts.now) setting.now.patterns.now) n place }
{
    let names = setting.facts.names(n);
    match names.get(place as usize) {
        Some(name) => setting.facts.attribute(n, name),
        None => None,
    }
}

/// Puts the item at the end, and in the place of an attribute its value.
fn push_valued<'t, A: Attributes>(
    setting: &Setting<'t, A>,
    items: &mut Sequence<'t>,
    item: &Item<'t>,
) -> Result<(), NoMemory>
    requires { IsOfTree (length setting.now.tree.now.nodes) (value_of_item item.now) }
    ensures no_attribute { IsTrue (have_no_attribute (values_of items.old)) → OnOk result (IsTrue (have_no_attribute (values_of items.new))) }
    ensures of_tree { (n : ℕ) → IsOfTree n (value_of_item item.now) → OfTree n (values_of items.old) → OnOk result (OfTree n (values_of items.new)) }
    ensures value { OnOk result (values_of items.new ≡ values_of items.old ++ valued (around setting.now.tree.now (A.attribute_of setting.now.facts.now) (A.names_of setting.now.facts.now) setting.now.patterns.now) (value_of_item item.now)) }
{
    match item {
        Item::Attribute(n, place) => {
            if let Some(value) = value_at(setting, *n, *place) {
                items.push(item_of(value))?;
            }
            Ok(())
        }
        _ => items.push(item.copied()?),
    }
}

/// The items, with their values in the place of attributes (XPath 2.0, 2.4.2).
pub(crate) fn with_values<'t, A: Attributes>(
    setting: &Setting<'t, A>,
    items: &[Item<'t>],
) -> Result<Sequence<'t>, NoMemory>
    requires { OfTree (length setting.now.tree.now.nodes) (values_of items.now) }
    ensures value { IfOk result (λ values. values_of values ≡ with_values (around setting.now.tree.now (A.attribute_of setting.now.facts.now) (A.names_of setting.now.facts.now) setting.now.patterns.now) (values_of items.now)) }
    ensures no_attribute { IfOk result (λ values. IsTrue (have_no_attribute (values_of values))) }
    ensures of_tree { IfOk result (λ values. OfTree (length setting.now.tree.now.nodes) (values_of values)) }
{
    let mut values = Sequence::new(setting.alloc);
    for item in items {
        push_valued(setting, &mut values, item)?;
    }
    Ok(values)
}

/// One integer, or none.
fn integer_or_nothing(items: &[Item<'_>]) -> Result<Option<i64>, XCode>
    ensures { result ≡ integer_or_nothing (values_of items.now) }
{
    match items {
        [] => Ok(None),
        [item] => match item {
            Item::Int(value) => Ok(Some(*value)),
            _ => Err(XCode::XPTY0004),
        },
        _ => Err(XCode::XPTY0004),
    }
}

/// An operand of an arithmetic operator or of `to` (XPath 2.0, 3.3.1, 3.4): one integer, or none.
///
/// FOTY0012 is the answer to an element and the document, and then XPTY0004 to several items and to what is no integer.
pub fn operand<'t, A: Attributes>(
    setting: &Setting<'t, A>,
    items: &Sequence<'t>,
) -> Result<Option<i64>, XFault>
    requires { OfTree (length setting.now.tree.now.nodes) (values_of items.now) }
    ensures { IsGiven (operand_of (around setting.now.tree.now (A.attribute_of setting.now.facts.now) (A.names_of setting.now.facts.now) setting.now.patterns.now) (values_of items.now)) (outcome (λ value. value) result) }
{
    let values = with_values(setting, items.as_slice())?;
    if has_node(values.as_slice()) {
        return Err(XFault::Code(XCode::FOTY0012));
    }
    let number = integer_or_nothing(values.as_slice())?;
    Ok(number)
}

/// At most one item as text.
fn text_of(alloc: Global, items: &[Item<'_>]) -> Result<String, XFault>
    ensures { IsGiven (text_in (values_of items.now)) (outcome string_bytes result) }
{
    let mut text = String::new(alloc);
    match items {
        [] => Ok(text),
        [item] => {
            item.push_text(&mut text)?;
            Ok(text)
        }
        _ => Err(XFault::Code(XCode::XPTY0004)),
    }
}

/// An operand of `||` as text (XPath 3.1, 3.6): one atomic value, or none.
///
/// FOTY0012 is the answer to an element and the document, and then XPTY0004 to several items.
pub fn text_operand<'t, A: Attributes>(
    setting: &Setting<'t, A>,
    items: &Sequence<'t>,
) -> Result<String, XFault>
    requires { OfTree (length setting.now.tree.now.nodes) (values_of items.now) }
    ensures { IsGiven (text_operand_of (around setting.now.tree.now (A.attribute_of setting.now.facts.now) (A.names_of setting.now.facts.now) setting.now.patterns.now) (values_of items.now)) (outcome string_bytes result) }
{
    let values = with_values(setting, items.as_slice())?;
    if has_node(values.as_slice()) {
        return Err(XFault::Code(XCode::FOTY0012));
    }
    text_of(setting.alloc, values.as_slice())
}

/// Whether some pair of a left and a right item is as the operator says, with values in the place of attributes (XPath 2.0,
/// 3.5.2).
pub fn compared<'t, A: Attributes>(
    setting: &Setting<'t, A>,
    op: Compare,
    left: &Sequence<'t>,
    right: &Sequence<'t>,
) -> Result<bool, XFault>
    requires left { OfTree (length setting.now.tree.now.nodes) (values_of left.now) }
    requires right { OfTree (length setting.now.tree.now.nodes) (values_of right.now) }
    ensures { IsGiven (general_comparison op
        (with_values (around setting.now.tree.now (A.attribute_of setting.now.facts.now) (A.names_of setting.now.facts.now) setting.now.patterns.now) (values_of left.now))
        (with_values (around setting.now.tree.now (A.attribute_of setting.now.facts.now) (A.names_of setting.now.facts.now) setting.now.patterns.now) (values_of right.now))) (outcome (λ truth. truth) result) }
{
    let left_values = with_values(setting, left.as_slice())?;
    let right_values = with_values(setting, right.as_slice())?;
    let truth = compare(op, &left_values, &right_values)?;
    Ok(truth)
}
