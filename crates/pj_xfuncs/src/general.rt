//! Functions of any items, and what makes text of values.
ghost use Rattle.std.specs.Prelude.{◌≡◌, IfOk, map, string_bytes};
ghost use Rattle.pj_xvalue.specs.Atomic.{text_of};
ghost use Rattle.pj_xvalue.specs.Items.{value_of_item, values_of};
ghost use Rattle.pj_xvalue.specs.Replies.{outcome};
ghost use Rattle.pj_xvalue.specs.Arguments.{IsGiven, atomic_text, text_in};
ghost use Rattle.pj_xfuncs.specs.General.{boolean as boolean_of, concatenated, count as count_of, data_of, exists as exists_of, is_empty as is_empty_of, joined_with, negated as negated_of, string_join as string_join_of, string_value, texts_joined};

use pj_base::{Copied, NoMemory};
use pj_xvalue::{
    Item, Sequence, XCode, XFault, boolean_singleton, boolean_value, count_singleton, has_node,
    string_argument, string_singleton,
};
use std::alloc::Global;

/// `count`.
pub(crate) fn count<'t>(alloc: Global, items: &Sequence<'_>) -> Result<Sequence<'t>, XFault>
    ensures { IsGiven (count_of (values_of items.now)) (outcome values_of result) }
{
    Ok(count_singleton(alloc, items.len())?)
}

/// `exists`.
pub(crate) fn exists<'t>(alloc: Global, items: &Sequence<'_>) -> Result<Sequence<'t>, XFault>
    ensures { IsGiven (exists_of (values_of items.now)) (outcome values_of result) }
{
    Ok(boolean_singleton(alloc, !items.is_empty())?)
}

/// `empty`.
pub(crate) fn is_empty<'t>(alloc: Global, items: &Sequence<'_>) -> Result<Sequence<'t>, XFault>
    ensures { IsGiven (is_empty_of (values_of items.now)) (outcome values_of result) }
{
    Ok(boolean_singleton(alloc, items.is_empty())?)
}

/// `boolean`.
pub(crate) fn boolean<'t>(alloc: Global, items: &Sequence<'_>) -> Result<Sequence<'t>, XFault>
    ensures { IsGiven (boolean_of (values_of items.now)) (outcome values_of result) }
{
    let value = boolean_value(items)?;
    Ok(boolean_singleton(alloc, value)?)
}

/// `not`.
pub(crate) fn negated<'t>(alloc: Global, items: &Sequence<'_>) -> Result<Sequence<'t>, XFault>
    ensures { IsGiven (negated_of (values_of items.now)) (outcome values_of result) }
{
    let value = boolean_value(items)?;
    Ok(boolean_singleton(alloc, !value)?)
}

/// `string` of an argument.
pub(crate) fn string_of<'t>(alloc: Global, items: &Sequence<'_>) -> Result<Sequence<'t>, XFault>
    ensures { IsGiven (string_value (values_of items.now)) (outcome values_of result) }
{
    let text = text_of(alloc, items.as_slice())?;
    Ok(string_singleton(alloc, text)?)
}

/// At most one item as text.
fn text_of(alloc: Global, items: &[Item<'_>]) -> Result<String, XFault>
    ensures { IsGiven (text_in (values_of items.now)) (outcome string_bytes result) }
{
    match items {
        [] => Ok(String::new(alloc)),
        [item] => Ok(one_text(alloc, item)?),
        _ => Err(XFault::Code(XCode::XPTY0004)),
    }
}

/// An item as text.
fn one_text(alloc: Global, item: &Item<'_>) -> Result<String, NoMemory>
    ensures { IfOk result (λ text. string_bytes text ≡ text_of (value_of_item item.now)) }
{
    let mut text = String::new(alloc);
    item.push_text(&mut text)?;
    Ok(text)
}

/// `data`.
pub(crate) fn data<'t>(alloc: Global, items: &Sequence<'t>) -> Result<Sequence<'t>, XFault>
    ensures { IsGiven (data_of (values_of items.now)) (outcome values_of result) }
{
    if has_node(items.as_slice()) {
        return Err(XFault::Code(XCode::FOTY0012));
    }
    Ok(copied_items(alloc, items.as_slice())?)
}

/// The same items again.
pub(crate) fn copied_items<'t>(alloc: Global, items: &[Item<'t>]) -> Result<Sequence<'t>, NoMemory>
    ensures { IfOk result (λ copy. copy ≡ items.now) }
{
    let mut copy = Sequence::new(alloc);
    for item in items {
        copy.push(item.copied()?)?;
    }
    Ok(copy)
}

/// `concat`.
pub(crate) fn concat<'t>(alloc: Global, arguments: &[Sequence<'_>]) -> Result<Sequence<'t>, XFault>
    ensures { IsGiven (concatenated (map values_of arguments.now)) (outcome values_of result) }
{
    let text = texts_joined(alloc, arguments)?;
    Ok(string_singleton(alloc, text)?)
}

/// The texts of the arguments, one after the other.
fn texts_joined(alloc: Global, arguments: &[Sequence<'_>]) -> Result<String, XFault>
    ensures { IsGiven (texts_joined (map values_of arguments.now)) (outcome string_bytes result) }
{
    let mut text = String::new(alloc);
    for argument in arguments {
        let part = atomic_text(alloc, argument)?;
        text.push_str(part.as_str())?;
    }
    Ok(text)
}

/// At most one atomic value as text.
fn atomic_text(alloc: Global, items: &Sequence<'_>) -> Result<String, XFault>
    ensures { IsGiven (atomic_text (values_of items.now)) (outcome string_bytes result) }
{
    if has_node(items.as_slice()) {
        return Err(XFault::Code(XCode::FOTY0012));
    }
    text_of(alloc, items.as_slice())
}

/// `string-join`.
pub(crate) fn string_join<'t>(
    alloc: Global,
    items: &Sequence<'_>,
    separator: &Sequence<'_>,
) -> Result<Sequence<'t>, XFault>
    ensures { IsGiven (string_join_of (values_of items.now) (values_of separator.now)) (outcome values_of result) }
{
    if has_node(items.as_slice()) {
        return Err(XFault::Code(XCode::FOTY0012));
    }
    let between = string_argument(separator)?;
    let text = joined(alloc, items.as_slice(), between)?;
    Ok(string_singleton(alloc, text)?)
}

/// The texts of the items, with the separator between each two.
fn joined(alloc: Global, items: &[Item<'_>], separator: &str) -> Result<String, NoMemory>
    ensures { IfOk result (λ text. string_bytes text ≡ joined_with separator.now (map text_of (values_of items.now))) }
{
    match items {
        [] => Ok(String::new(alloc)),
        [first, rest @ ..] => {
            let mut text = one_text(alloc, first)?;
            for item in rest {
                text.push_str(separator)?;
                item.push_text(&mut text)?;
            }
            Ok(text)
        }
    }
}
