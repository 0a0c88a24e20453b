//! Functions of integers.
ghost use Rattle.std.specs.Prelude.{◌≡◌, ◌+ℤ◌, nat_abs, pos};
ghost use Rattle.pj_xvalue.specs.Items.{values_of};
ghost use Rattle.pj_xvalue.specs.Replies.{outcome};
ghost use Rattle.pj_xvalue.specs.Arguments.{IsGiven, item_or_nothing};
ghost use Rattle.pj_xfuncs.specs.Gathered.{added};
ghost use Rattle.pj_xfuncs.specs.Numbers.{absolute, best, greater as greater_of, held, lesser as lesser_of, maximum as maximum_of, minimum as minimum_of, sum as sum_of, sum_from, sum_with as sum_with_of};

use crate::general::copied_items;
use pj_xvalue::{
    Item, Sequence, XCode, XFault, has_node, integer_singleton, integers_argument,
    optional_integer_argument,
};
use std::alloc::Global;

/// `sum` of one argument.
pub(crate) fn sum<'t>(alloc: Global, items: &Sequence<'_>) -> Result<Sequence<'t>, XFault>
    ensures { IsGiven (sum_of (values_of items.now)) (outcome values_of result) }
{
    let numbers = integers_argument(alloc, items)?;
    let total = sum_from(numbers.as_slice())?;
    Ok(integer_singleton(alloc, total)?)
}

/// `sum` with what is the sum of nothing.
pub(crate) fn sum_with<'t>(
    alloc: Global,
    items: &Sequence<'_>,
    zero: &Sequence<'t>,
) -> Result<Sequence<'t>, XFault>
    ensures { IsGiven (sum_with_of (values_of items.now) (values_of zero.now)) (outcome values_of result) }
{
    let numbers = integers_argument(alloc, items)?;
    if has_node(zero.as_slice()) {
        return Err(XFault::Code(XCode::FOTY0012));
    }
    let nothing = item_or_nothing(alloc, zero.as_slice())?;
    if numbers.is_empty() {
        return Ok(nothing);
    }
    let total = sum_from(numbers.as_slice())?;
    Ok(integer_singleton(alloc, total)?)
}

/// At most one item.
fn item_or_nothing<'t>(alloc: Global, items: &[Item<'t>]) -> Result<Sequence<'t>, XFault>
    ensures { IsGiven (item_or_nothing (values_of items.now)) (outcome values_of result) }
{
    match items {
        [] => Ok(copied_items(alloc, items)?),
        [_] => Ok(copied_items(alloc, items)?),
        _ => Err(XFault::Code(XCode::XPTY0004)),
    }
}

/// The sum from left to right, or FOAR0002 at the first partial sum past 64 bits.
fn sum_from(numbers: &[i64]) -> Result<i64, XCode>
    ensures { result ≡ sum_from (pos 0) numbers.now }
{
    let mut total = Ok(0i64);
    for z in numbers {
        total = added(total, *z);
    }
    total
}

/// A sum with one more integer, where there is no code.
fn added(total: Result<i64, XCode>, z: i64) -> Result<i64, XCode>
    ensures { result ≡ added total z }
{
    match total {
        Ok(sum) => plus(sum, z),
        Err(code) => Err(code),
    }
}

/// A sum of two.
fn plus(total: i64, z: i64) -> Result<i64, XCode>
    ensures { result ≡ held (total +ℤ z) }
{
    match total.checked_add(z) {
        Some(sum) => Ok(sum),
        None => Err(XCode::FOAR0002),
    }
}

/// `min`.
pub(crate) fn minimum<'t>(alloc: Global, items: &Sequence<'_>) -> Result<Sequence<'t>, XFault>
    ensures { IsGiven (minimum_of (values_of items.now)) (outcome values_of result) }
{
    let numbers = integers_argument(alloc, items)?;
    match numbers.as_slice() {
        [] => Ok(Sequence::new(alloc)),
        [first, rest @ ..] => Ok(integer_singleton(alloc, least(*first, rest))?),
    }
}

/// The least of an integer and some more.
fn least(first: i64, rest: &[i64]) -> i64
    ensures { result ≡ best lesser_of first rest.now }
{
    let mut so_far = first;
    for z in rest {
        so_far = lesser(so_far, *z);
    }
    so_far
}

/// The lesser of two.
fn lesser(a: i64, b: i64) -> i64
    ensures { result ≡ lesser_of a b }
{
    if b < a { b } else { a }
}

/// `max`.
pub(crate) fn maximum<'t>(alloc: Global, items: &Sequence<'_>) -> Result<Sequence<'t>, XFault>
    ensures { IsGiven (maximum_of (values_of items.now)) (outcome values_of result) }
{
    let numbers = integers_argument(alloc, items)?;
    match numbers.as_slice() {
        [] => Ok(Sequence::new(alloc)),
        [first, rest @ ..] => Ok(integer_singleton(alloc, greatest(*first, rest))?),
    }
}

/// The greatest of an integer and some more.
fn greatest(first: i64, rest: &[i64]) -> i64
    ensures { result ≡ best greater_of first rest.now }
{
    let mut so_far = first;
    for z in rest {
        so_far = greater(so_far, *z);
    }
    so_far
}

/// The greater of two.
fn greater(a: i64, b: i64) -> i64
    ensures { result ≡ greater_of a b }
{
    if a < b { b } else { a }
}

/// `abs`.
pub(crate) fn magnitude<'t>(alloc: Global, items: &Sequence<'_>) -> Result<Sequence<'t>, XFault>
    ensures { IsGiven (absolute (values_of items.now)) (outcome values_of result) }
{
    match optional_integer_argument(items)? {
        None => Ok(Sequence::new(alloc)),
        Some(z) => {
            let value = absolute(z)?;
            Ok(integer_singleton(alloc, value)?)
        }
    }
}

/// The absolute value, or FOAR0002 past 64 bits.
fn absolute(z: i64) -> Result<i64, XCode>
    ensures { result ≡ held (pos (nat_abs z)) }
{
    match z.checked_abs() {
        Some(value) => Ok(value),
        None => Err(XCode::FOAR0002),
    }
}
