//! What parameters take of arguments (XPath 2.0, 3.1.5), and sequences of one item.
ghost use Rattle.std.specs.Prelude.{◌≡◌, ◌∷◌, [], pos, IfOk, string_bytes};
ghost use Rattle.pj_xvalue.specs.Items.{Boolean, Integer, String as StringValue, value_of_item, values_of};
ghost use Rattle.pj_xvalue.specs.Replies.{outcome};
ghost use Rattle.pj_xvalue.specs.Arguments.{IsGiven, all_integers, integer_or_nothing, integers as integers_of, one_integer, one_string, optional_integer, optional_string, integer, seen_as, string, string_or_nothing, atomic as atomic_of};

use crate::fault::{XCode, XFault};
use crate::item::{Item, Sequence};
use crate::sequence::has_node;
use pj_base::{NoMemory, Text};
use std::alloc::Global;

/// `xs:string?`: at most one string, and nothing is the empty string.
pub fn optional_string_argument<'a>(items: &'a Sequence<'_>) -> Result<&'a str, XCode>
    ensures { seen_as (λ text. text.now) result ≡ optional_string (values_of items.now) }
{
    if has_node(items.as_slice()) {
        return Err(XCode::FOTY0012);
    }
    string_or_nothing(items.as_slice())
}

/// The string among the items, of which there is one at most; no text where there is none.
fn string_or_nothing<'a>(items: &'a [Item<'_>]) -> Result<&'a str, XCode>
    ensures { seen_as (λ text. text.now) result ≡ string_or_nothing (values_of items.now) }
{
    match items {
        [] => Ok(""),
        _ => one_string(items),
    }
}

/// `xs:string`: one string.
pub fn string_argument<'a>(items: &'a Sequence<'_>) -> Result<&'a str, XCode>
    ensures { seen_as (λ text. text.now) result ≡ string (values_of items.now) }
{
    if has_node(items.as_slice()) {
        return Err(XCode::FOTY0012);
    }
    one_string(items.as_slice())
}

/// The string that is the only item.
fn one_string<'a>(items: &'a [Item<'_>]) -> Result<&'a str, XCode>
    ensures { seen_as (λ text. text.now) result ≡ one_string (values_of items.now) }
{
    match items {
        [item] => match item {
            Item::Str(text) => Ok(text.as_str()),
            Item::Borrowed(text) => Ok(*text),
            _ => Err(XCode::XPTY0004),
        },
        _ => Err(XCode::XPTY0004),
    }
}

/// `xs:integer`: one integer.
pub fn integer_argument(items: &Sequence<'_>) -> Result<i64, XCode>
    ensures { result ≡ integer (values_of items.now) }
{
    if has_node(items.as_slice()) {
        return Err(XCode::FOTY0012);
    }
    one_integer(items.as_slice())
}

/// The integer that is the only item.
fn one_integer(items: &[Item<'_>]) -> Result<i64, XCode>
    ensures { result ≡ one_integer (values_of items.now) }
{
    match items {
        [item] => match item {
            Item::Int(value) => Ok(*value),
            _ => Err(XCode::XPTY0004),
        },
        _ => Err(XCode::XPTY0004),
    }
}

/// `xs:integer?`: at most one integer.
pub fn optional_integer_argument(items: &Sequence<'_>) -> Result<Option<i64>, XCode>
    ensures { result ≡ optional_integer (values_of items.now) }
{
    if has_node(items.as_slice()) {
        return Err(XCode::FOTY0012);
    }
    integer_or_nothing(items.as_slice())
}

/// The integer among the items, of which there is one at most.
fn integer_or_nothing(items: &[Item<'_>]) -> Result<Option<i64>, XCode>
    ensures { result ≡ integer_or_nothing (values_of items.now) }
{
    match items {
        [] => Ok(None),
        [item] => match item {
            Item::Int(value) => Ok(Some(*value)),
            _ => Err(XCode::XPTY0004),
        },
        _ => Err(XCode::XPTY0004),
    }
}

/// `xs:integer*`: integers alone.
pub fn integers_argument(alloc: Global, items: &Sequence<'_>) -> Result<Vec<i64>, XFault>
    ensures { IsGiven (all_integers (values_of items.now)) (outcome (λ numbers. numbers.items) result) }
{
    if has_node(items.as_slice()) {
        return Err(XFault::Code(XCode::FOTY0012));
    }
    integers(alloc, items.as_slice())
}

/// The integers that the items are.
fn integers(alloc: Global, items: &[Item<'_>]) -> Result<Vec<i64>, XFault>
    ensures { IsGiven (integers_of (values_of items.now)) (outcome (λ numbers. numbers.items) result) }
{
    let mut numbers = Vec::new(alloc);
    for item in items {
        match item {
            Item::Int(value) => numbers.push(*value)?,
            _ => return Err(XFault::Code(XCode::XPTY0004)),
        }
    }
    Ok(numbers)
}

/// `xs:anyAtomicType`: one atomic value.
pub fn atomic_argument<'a, 't>(items: &'a Sequence<'t>) -> Result<&'a Item<'t>, XCode>
    ensures { seen_as (λ item. value_of_item item.now) result ≡ atomic_of (values_of items.now) }
{
    if has_node(items.as_slice()) {
        return Err(XCode::FOTY0012);
    }
    match items.as_slice() {
        [item] => Ok(item),
        _ => Err(XCode::XPTY0004),
    }
}

/// A sequence of one item.
pub fn singleton<'t>(alloc: Global, item: Item<'t>) -> Result<Sequence<'t>, NoMemory>
    ensures { IfOk result (λ items. values_of items ≡ value_of_item item.entry ∷ []) }
{
    let mut items = Sequence::new(alloc);
    items.push(item)?;
    Ok(items)
}

/// A sequence of one boolean.
pub fn boolean_singleton<'t>(alloc: Global, value: bool) -> Result<Sequence<'t>, NoMemory>
    ensures { IfOk result (λ items. values_of items ≡ Boolean value ∷ []) }
{
    singleton(alloc, Item::Bool(value))
}

/// A sequence of one string.
pub fn string_singleton<'t>(alloc: Global, text: String) -> Result<Sequence<'t>, NoMemory>
    ensures { IfOk result (λ items. values_of items ≡ StringValue (string_bytes text) ∷ []) }
{
    singleton(alloc, Item::Str(Text::from_string(text)))
}

/// A sequence of one integer.
pub fn integer_singleton<'t>(alloc: Global, value: i64) -> Result<Sequence<'t>, NoMemory>
    ensures { IfOk result (λ items. values_of items ≡ Integer value ∷ []) }
{
    singleton(alloc, Item::Int(value))
}

/// A sequence of a count. One past 64 bits is want of memory, since nothing has so many members.
pub fn count_singleton<'t>(alloc: Global, count: usize) -> Result<Sequence<'t>, NoMemory>
    ensures { IfOk result (λ items. values_of items ≡ Integer (pos count) ∷ []) }
{
    match i64::try_from(count) {
        Ok(value) => integer_singleton(alloc, value),
        Err(_) => Err(NoMemory),
    }
}
