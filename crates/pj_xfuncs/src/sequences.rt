//! Functions of sequences.
ghost use Rattle.std.specs.Prelude.{◌≡◌, ◌+◌, ◌++◌, ◌∷◌, [], pos, reverse, IfOk, OnOk, if◌then◌else◌};
ghost use Rattle.pj_xvalue.specs.Items.{Integer, value_of_item, values_of};
ghost use Rattle.pj_xvalue.specs.Replies.{outcome};
ghost use Rattle.pj_xvalue.specs.Arguments.{IsGiven};
ghost use Rattle.pj_xfuncs.specs.Sequences.{at_places, distinct_values as distinct_values_of, first_occurrences, index_of as index_of_of, is_from, is_within, places_from, reversed as reversed_of, same as same_of, subsequence as subsequence_of, subsequence_from as subsequence_from_of};

use crate::general::copied_items;
use crate::places::{before, behind, first_of, within};
use crate::seen::Seen;
use pj_base::{Copied, NoMemory};
use pj_xvalue::{Item, Sequence, XCode, XFault, atomic_argument, has_node, integer_argument};
use std::alloc::Global;

/// `reverse`.
pub(crate) fn reversed<'t>(alloc: Global, items: &Sequence<'t>) -> Result<Sequence<'t>, XFault>
    ensures { IsGiven (reversed_of (values_of items.now)) (outcome values_of result) }
{
    Ok(items_reversed(alloc, items.as_slice())?)
}

/// The items from the last to the first.
fn items_reversed<'t>(alloc: Global, items: &[Item<'t>]) -> Result<Sequence<'t>, NoMemory>
    ensures { IfOk result (λ all. values_of all ≡ reverse (values_of items.now)) }
{
    let all = slice_reversed(alloc, items)?;
    Ok(all)
}

/// The items in reverse order.
fn slice_reversed<'t>(alloc: Global, items: &[Item<'t>]) -> Result<Sequence<'t>, NoMemory>
    ensures { IfOk result (λ all. all ≡ reverse items.now) }
{
    let mut all = copied_items(alloc, items)?.into_vec();
    all.as_mut_slice().reverse();
    Ok(Sequence::from_vec(all))
}

/// `subsequence` of two arguments.
pub(crate) fn subsequence_from<'t>(
    alloc: Global,
    items: &Sequence<'t>,
    start: &Sequence<'_>,
) -> Result<Sequence<'t>, XFault>
    ensures { IsGiven (subsequence_from_of (values_of items.now) (values_of start.now)) (outcome values_of result) }
{
    let first = integer_argument(start)?;
    Ok(items_from(alloc, items.as_slice(), first)?)
}

/// `subsequence` with a length.
pub(crate) fn subsequence<'t>(
    alloc: Global,
    items: &Sequence<'t>,
    start: &Sequence<'_>,
    length: &Sequence<'_>,
) -> Result<Sequence<'t>, XFault>
    ensures { IsGiven (subsequence_of (values_of items.now) (values_of start.now) (values_of length.now)) (outcome values_of result) }
{
    let first = integer_argument(start)?;
    let number = integer_argument(length)?;
    Ok(items_within(alloc, items.as_slice(), first, number)?)
}

/// The items from a place on.
fn items_from<'t>(alloc: Global, items: &[Item<'t>], first: i64) -> Result<Sequence<'t>, NoMemory>
    ensures { IfOk result (λ kept. values_of kept ≡ at_places (is_from first) (values_of items.now)) }
{
    let skipped = before(first);
    let part = behind(items, skipped);
    let kept = copied_items(alloc, part)?;
    Ok(kept)
}

/// So many items from a place on.
fn items_within<'t>(
    alloc: Global,
    items: &[Item<'t>],
    first: i64,
    number: i64,
) -> Result<Sequence<'t>, NoMemory>
    ensures { IfOk result (λ kept. values_of kept ≡ at_places (is_within first number) (values_of items.now)) }
{
    let skipped = before(first);
    let rest = behind(items, skipped);
    let count = within(first, number);
    let part = first_of(rest, count);
    let kept = copied_items(alloc, part)?;
    Ok(kept)
}

/// `distinct-values`.
pub(crate) fn distinct_values<'t>(
    alloc: Global,
    items: &Sequence<'t>,
) -> Result<Sequence<'t>, XFault>
    ensures { IsGiven (distinct_values_of (values_of items.now)) (outcome values_of result) }
{
    if has_node(items.as_slice()) {
        return Err(XFault::Code(XCode::FOTY0012));
    }
    Ok(first_occurrences(alloc, items.as_slice())?)
}

/// The values that equal none of those before them, which stand in sets: so many cost no more than their order.
fn first_occurrences<'t>(alloc: Global, items: &[Item<'t>]) -> Result<Sequence<'t>, NoMemory>
    ensures { IfOk result (λ kept. values_of kept ≡ first_occurrences [] (values_of items.now)) }
{
    let mut kept = Sequence::new(alloc);
    let mut seen = Seen::new(alloc);
    for i in 0..items.len() {
        let item = &items[i];
        let was_before = seen.meet(item)?;
        push_unless(&mut kept, was_before, item)?;
    }
    Ok(kept)
}

/// Puts a copy of the item at the end, unless it is left out.
fn push_unless<'t>(
    kept: &mut Sequence<'t>,
    is_left_out: bool,
    item: &Item<'t>,
) -> Result<(), NoMemory>
    ensures { OnOk result (values_of kept.new ≡ values_of kept.old ++ (if is_left_out then [] else value_of_item item.now ∷ [])) }
{
    if is_left_out {
        return Ok(());
    }
    kept.push(item.copied()?)
}

/// `index-of`.
pub(crate) fn index_of<'t>(
    alloc: Global,
    items: &Sequence<'_>,
    sought: &Sequence<'_>,
) -> Result<Sequence<'t>, XFault>
    ensures { IsGiven (index_of_of (values_of items.now) (values_of sought.now)) (outcome values_of result) }
{
    if has_node(items.as_slice()) {
        return Err(XFault::Code(XCode::FOTY0012));
    }
    let value = atomic_argument(sought)?;
    Ok(places_of(alloc, items.as_slice(), value)?)
}

/// The places of the values that are equal to one.
fn places_of<'t>(
    alloc: Global,
    items: &[Item<'_>],
    sought: &Item<'_>,
) -> Result<Sequence<'t>, NoMemory>
    ensures { IfOk result (λ places. values_of places ≡ places_from (value_of_item sought.now) 1 (values_of items.now)) }
{
    let mut places = Sequence::new(alloc);
    for i in 0..items.len() {
        push_place(&mut places, same(&items[i], sought), i)?;
    }
    Ok(places)
}

/// Puts the place behind so many others at the end, where the value sought is there. One past 64 bits is want of memory, since nothing
/// has so many members.
fn push_place(places: &mut Sequence<'_>, is_there: bool, others: usize) -> Result<(), NoMemory>
    ensures { OnOk result (values_of places.new ≡ values_of places.old ++ (if is_there then Integer (pos (others + 1)) ∷ [] else [])) }
{
    if !is_there {
        return Ok(());
    }
    match i64::try_from(others) {
        Ok(before) => match before.checked_add(1) {
            Some(place) => places.push(Item::Int(place)),
            None => Err(NoMemory),
        },
        Err(_) => Err(NoMemory),
    }
}

/// Whether two atomic values are equal, where values of two types are different.
pub(crate) fn same(a: &Item<'_>, b: &Item<'_>) -> bool
    ensures { result ≡ same_of (value_of_item a.now) (value_of_item b.now) }
{
    match (a, b) {
        (Item::Int(x), Item::Int(y)) => *x == *y,
        (Item::Bool(x), Item::Bool(y)) => *x == *y,
        _ => match (a.as_text(), b.as_text()) {
            (Some(x), Some(y)) => x == y,
            _ => false,
        },
    }
}
