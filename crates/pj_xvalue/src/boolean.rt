//! The effective boolean value.
ghost use Rattle.std.specs.Prelude.{◌≡◌};
ghost use Rattle.pj_xvalue.specs.Items.{value_of_item, values_of};
ghost use Rattle.pj_xvalue.specs.Boolean.{effective_boolean, atomic_boolean};

use crate::fault::XCode;
use crate::item::{Item, Sequence};

/// The effective boolean value of a sequence, or FORG0006 where it has none (XPath 2.0, 2.4.3).
pub fn boolean_value(items: &Sequence<'_>) -> Result<bool, XCode>
    ensures { result ≡ effective_boolean (values_of items.now) }
{
    match items.as_slice() {
        [] => Ok(false),
        [item] => Ok(item_boolean(item)),
        [first, ..] => {
            if first.is_node() {
                Ok(true)
            } else {
                Err(XCode::FORG0006)
            }
        }
    }
}

/// The effective boolean value of one item: a node is true, and an atomic value is judged by itself.
fn item_boolean(item: &Item<'_>) -> bool
    ensures { result ≡ atomic_boolean (value_of_item item.now) }
{
    match item {
        Item::Bool(value) => *value,
        Item::Int(value) => *value != 0,
        Item::Str(text) => !text.is_empty(),
        Item::Borrowed(text) => !text.is_empty(),
        _ => true,
    }
}
