//! General comparisons.
ghost use Rattle.std.specs.Prelude.{◌≡◌, map, IsTrue};
ghost use Rattle.pj_xvalue.specs.Items.{value_of_item, values_of, have_no_attribute};
ghost use Rattle.pj_xvalue.specs.Comparison.{holds, pair_compares, first_deciding, general_comparison};

use crate::fault::XCode;
use crate::item::{Item, Sequence};
use pj_xexpressions::Compare;
use std::cmp::Ordering;

/// Whether some pair of a left and a right item is as the operator says (XPath 2.0, 3.5.2).
///
/// The pairs are tried in the order of the left items and, for each, of the right ones. The first that compares makes
/// it true, and the first that is an error is the answer: FOTY0012 where one of the two is an element or the document,
/// else XPTY0004 where they are values of two types. In the place of an attribute its value has been put before.
pub fn compare(op: Compare, left: &Sequence<'_>, right: &Sequence<'_>) -> Result<bool, XCode>
    requires no_attribute_left { IsTrue (have_no_attribute (values_of left.now)) }
    requires no_attribute_right { IsTrue (have_no_attribute (values_of right.now)) }
    ensures { result ≡ general_comparison op (values_of left.now) (values_of right.now) }
{
    for item in left.as_slice() {
        if compare_item(op, item, right.as_slice())? {
            return Ok(true);
        }
    }
    Ok(false)
}

/// Whether the item and some right one are as the operator says.
fn compare_item(op: Compare, item: &Item<'_>, right: &[Item<'_>]) -> Result<bool, XCode>
    ensures { result ≡ first_deciding op (map (λ other. (value_of_item item.now, other)) (values_of right.now)) }
{
    for other in right {
        if compare_pair(op, item, other)? {
            return Ok(true);
        }
    }
    Ok(false)
}

/// Whether the two are as the operator says.
fn compare_pair(op: Compare, left: &Item<'_>, right: &Item<'_>) -> Result<bool, XCode>
    ensures { result ≡ pair_compares op (value_of_item left.now) (value_of_item right.now) }
{
    match (left, right) {
        (Item::Int(a), Item::Int(b)) => Ok(is_as(op, a.cmp(b))),
        (Item::Bool(a), Item::Bool(b)) => Ok(is_as(op, a.cmp(b))),
        _ => match (left.as_text(), right.as_text()) {
            (Some(a), Some(b)) => Ok(is_as(op, a.cmp(b))),
            _ if left.is_node() || right.is_node() => Err(XCode::FOTY0012),
            _ => Err(XCode::XPTY0004),
        },
    }
}

/// Whether two values that stand in this order are as the operator says.
fn is_as(op: Compare, order: Ordering) -> bool
    ensures { result ≡ holds op order }
{
    match op {
        Compare::Equal => order.is_eq(),
        Compare::NotEqual => order.is_ne(),
        Compare::Less => order.is_lt(),
        Compare::LessOrEqual => order.is_le(),
        Compare::Greater => order.is_gt(),
        Compare::GreaterOrEqual => order.is_ge(),
    }
}
