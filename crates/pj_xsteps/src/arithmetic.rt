//! Arithmetic of integers of 64 bits, and ranges.
ghost use Rattle.std.specs.Prelude.{◌≡◌, IfOk, pos, ◌+ℤ◌, ◌-ℤ◌};
ghost use Rattle.pj_xvalue.specs.Items.{values_of};
ghost use Rattle.pj_xvalue.specs.Replies.{outcome};
ghost use Rattle.pj_xvalue.specs.Arguments.{IsGiven};
ghost use Rattle.pj_xsteps.specs.Arithmetic.{integers as integers_between, literal as literal_of, natural, number_items as number_items_of, plus, product as product_of, range as range_of, signed as signed_of, sum as sum_of, times};

use crate::sequences::one;
use pj_base::NoMemory;
use pj_xexpressions::{Additive, Multiplicative, Sign};
use pj_xvalue::{Item, Sequence, XCode, XFault};
use std::alloc::Global;

/// A sum or a difference.
fn plus(operator: Additive, left: i64, right: i64) -> Result<Option<i64>, XCode>
    ensures { result ≡ plus operator left right }
{
    match operator {
        Additive::Plus => match left.checked_add(right) {
            Some(value) => Ok(Some(value)),
            None => Err(XCode::FOAR0002),
        },
        Additive::Minus => match left.checked_sub(right) {
            Some(value) => Ok(Some(value)),
            None => Err(XCode::FOAR0002),
        },
    }
}

/// A product, a quotient or a remainder.
fn times(operator: Multiplicative, left: i64, right: i64) -> Result<Option<i64>, XCode>
    ensures { result ≡ times operator left right }
{
    match operator {
        Multiplicative::Times => match left.checked_mul(right) {
            Some(value) => Ok(Some(value)),
            None => Err(XCode::FOAR0002),
        },
        Multiplicative::IntegerDivide => {
            if right == 0 {
                return Err(XCode::FOAR0001);
            }
            match left.checked_div(right) {
                Some(value) => Ok(Some(value)),
                None => Err(XCode::FOAR0002),
            }
        }
        Multiplicative::Modulo => {
            if right == 0 {
                return Err(XCode::FOAR0001);
            }
            // The least number has no quotient by -1 in 64 bits, and the remainder 0.
            match left.checked_rem(right) {
                Some(rest) => Ok(Some(rest)),
                None => Ok(Some(0)),
            }
        }
    }
}

/// A sum or a difference of two operands, of which an empty one makes the result empty (XPath 2.0, 3.4).
pub fn sum(operator: Additive, left: Option<i64>, right: Option<i64>) -> Result<Option<i64>, XCode>
    ensures { result ≡ sum_of operator left right }
{
    match (left, right) {
        (Some(left), Some(right)) => plus(operator, left, right),
        _ => Ok(None),
    }
}

/// A product, a quotient or a remainder of two operands, of which an empty one makes the result empty (XPath 2.0, 3.4).
pub fn product(
    operator: Multiplicative,
    left: Option<i64>,
    right: Option<i64>,
) -> Result<Option<i64>, XCode>
    ensures { result ≡ product_of operator left right }
{
    match (left, right) {
        (Some(left), Some(right)) => times(operator, left, right),
        _ => Ok(None),
    }
}

/// An operand with a sign (XPath 2.0, 3.4).
pub fn signed(sign: Sign, operand: Option<i64>) -> Result<Option<i64>, XCode>
    ensures { result ≡ signed_of sign operand }
{
    match sign {
        Sign::Plus => Ok(operand),
        Sign::Minus => match operand {
            Some(value) => plus(Additive::Minus, 0, value),
            None => Ok(None),
        },
    }
}

/// An integer as a sequence, and the empty sequence where there is none.
pub fn number_items<'t>(alloc: Global, number: Option<i64>) -> Result<Sequence<'t>, NoMemory>
    ensures { IfOk result (λ items. values_of items ≡ number_items_of number) }
{
    match number {
        Some(value) => one(alloc, Item::Int(value)),
        None => Ok(Sequence::new(alloc)),
    }
}

/// The value of a literal of digits, which is none above the greatest integer (XPath 2.0, 3.1.1).
pub fn literal<'t>(alloc: Global, value: Option<i64>) -> Result<Sequence<'t>, XFault>
    ensures { IsGiven (literal_of value) (outcome values_of result) }
{
    match value {
        Some(value) => Ok(one(alloc, Item::Int(value))?),
        None => Err(XFault::Code(XCode::FOAR0002)),
    }
}

/// The integers from the first operand on to the second one, of which there are none where one is empty or the second is
/// less (XPath 2.0, 3.3.1).
pub fn range<'t>(
    alloc: Global,
    from: Option<i64>,
    to: Option<i64>,
) -> Result<Sequence<'t>, NoMemory>
    ensures { IfOk result (λ items. values_of items ≡ range_of from to) }
{
    match (from, to) {
        (Some(from), Some(to)) => integers(alloc, from, to),
        _ => Ok(Sequence::new(alloc)),
    }
}

/// How many integers there are from one on to another. More than 64 bits count are want of memory.
fn count(from: i64, to: i64) -> Result<u64, NoMemory>
    ensures { IfOk result (λ n. natural ((to -ℤ from) +ℤ pos 1) ≡ n) }
{
    if to < from {
        return Ok(0);
    }
    match to.checked_sub(from) {
        Some(difference) => match difference.checked_add(1) {
            Some(number) => match u64::try_from(number) {
                Ok(n) => Ok(n),
                Err(_) => Err(NoMemory),
            },
            None => Err(NoMemory),
        },
        None => Err(NoMemory),
    }
}

/// The integer so many places behind another.
fn behind(from: i64, places: u64) -> Result<i64, NoMemory>
    ensures { IfOk result (λ z. z ≡ from +ℤ pos places) }
{
    match i64::try_from(places) {
        Ok(number) => match from.checked_add(number) {
            Some(z) => Ok(z),
            None => Err(NoMemory),
        },
        Err(_) => Err(NoMemory),
    }
}

/// The integers from one on to another.
fn integers<'t>(alloc: Global, from: i64, to: i64) -> Result<Sequence<'t>, NoMemory>
    ensures { IfOk result (λ items. values_of items ≡ integers_between from to) }
{
    let count = count(from, to)?;
    let mut items = Sequence::new(alloc);
    for place in 0..count {
        let z = behind(from, place)?;
        items.push(Item::Int(z))?;
    }
    Ok(items)
}
