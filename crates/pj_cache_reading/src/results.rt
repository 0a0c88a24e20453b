//! Reading results: rows of keys, with the classes that were asked for.
ghost use Rattle.std.specs.Prelude.{◌≡◌, ◌≤◌, ◌<◌, length, Some, None, IfOk, OnOk, []};
ghost use Rattle.std.specs.List.{All};
ghost use Rattle.pj_format.specs.Format.{first};
ghost use Rattle.pj_format.specs.Fields.{Gives, several_from, each};
ghost use Rattle.pj_cache.specs.Places.{member_at};
ghost use Rattle.pj_cache_format.specs.FormatTwo.{is_key_place, key_place, key_places, is_name_place, name_at, name_list, key_rows, first_of, with_places, result as result_format};

use crate::fields::{is_number_behind, or_memory, wrong};
use crate::rows::rows_of;
use pj_base::{Copied, NoMemory};
use pj_cache::{CachedResult, Group, Key, KeyRows, SharedName, SharedNames};
use pj_format::{Refused, u32_of};
use std::alloc::Global;
use std::collections::BTreeSet;

/// Whether it is one of so many keys, behind the one before, which no earlier result of the entry has.
fn is_key_place(count: usize, used: &BTreeSet<u32>, before: Option<u32>, place: u32) -> bool
    ensures { result ≡ is_key_place count used.now.keys before place }
{
    (place as usize) < count && is_number_behind(before, place) && !used.contains(&place)
}

/// The place of a key.
#[tactic(auto, using(pj_format::proofs::Laws::reads), unfolding(pj_cache_format::specs::FormatTwo::key_place))]
fn key_place_of(
    count: usize,
    used: &BTreeSet<u32>,
    before: Option<u32>,
    bytes: &[u8],
    at: u32,
) -> Result<(u32, u32), Refused>
    requires { length bytes.now ≤ 4294967294 }
    ensures value { Gives (λ x. ((x.0, Some x.0), x.1)) result (first (key_place count used.now.keys before) bytes.now at) }
    ensures there { IfOk result (λ x. x.0 < count) }
{
    let (place, behind) = u32_of(bytes, at)?;
    if !is_key_place(count, used, before, place) {
        return Err(wrong(at));
    }
    Ok((place, behind))
}

/// The places of so many keys.
fn several_key_places_of(
    alloc: Global,
    key_count: usize,
    used: &BTreeSet<u32>,
    before: Option<u32>,
    bytes: &[u8],
    count: u32,
    at: u32,
) -> Result<(Vec<u32>, u32), Refused>
    requires { length bytes.now ≤ 4294967294 }
    ensures value { Gives (λ x. (x.0.items, x.1)) result (first (several_from (key_place key_count used.now.keys) count before) bytes.now at) }
    ensures there { IfOk result (λ x. All (λ p. p < key_count) x.0.items) }
{
    let mut list = Vec::new(alloc);
    let mut last = before;
    let mut place = at;
    for _ in 0..count {
        let (item, behind) = key_place_of(key_count, used, last, bytes, place)?;
        list.push(item)?;
        last = Some(item);
        place = behind;
    }
    Ok((list, place))
}

/// The places of the keys of a result, one at least, behind their number.
#[tactic(auto, using(pj_format::proofs::Laws::reads), unfolding(pj_cache_format::specs::FormatTwo::key_places))]
fn key_places_of(
    alloc: Global,
    key_count: usize,
    used: &BTreeSet<u32>,
    before: Option<u32>,
    bytes: &[u8],
    at: u32,
) -> Result<(Vec<u32>, u32), Refused>
    requires { length bytes.now ≤ 4294967294 }
    ensures value { Gives (λ x. (x.0.items, x.1)) result (first (key_places key_count used.now.keys before) bytes.now at) }
    ensures there { IfOk result (λ x. All (λ p. p < key_count) x.0.items) }
{
    let (count, behind) = u32_of(bytes, at)?;
    if count == 0 {
        return Err(wrong(at));
    }
    several_key_places_of(alloc, key_count, used, before, bytes, count, behind)
}

/// Whether it is one of so many names, behind the one before.
fn is_name_place(count: usize, before: Option<u32>, place: u32) -> bool
    ensures { result ≡ is_name_place count before place }
{
    (place as usize) < count && is_number_behind(before, place)
}

/// The name at a place.
fn name_in(names: &[SharedName], place: u32) -> Result<SharedName, NoMemory>
    requires { place < length names.now }
    ensures { IfOk result (λ name. name ≡ member_at names.now place) }
{
    names[place as usize].copied()
}

/// A name by its place, and the place.
#[tactic(auto, using(pj_format::proofs::Laws::reads, crate::proofs::Texts::lengths), unfolding(pj_cache_format::specs::FormatTwo::name_at))]
fn name_of(
    names: &[SharedName],
    before: Option<u32>,
    bytes: &[u8],
    at: u32,
) -> Result<((SharedName, u32), u32), Refused>
    requires { length bytes.now ≤ 4294967294 }
    ensures { Gives (λ x. ((x.0.0, Some x.0.1), x.1)) result (first (name_at names.now before) bytes.now at) }
{
    let (place, behind) = u32_of(bytes, at)?;
    if !is_name_place(names.len(), before, place) {
        return Err(wrong(at));
    }
    Ok(((or_memory(name_in(names, place))?, place), behind))
}

/// So many names by their strictly ascending places.
fn several_names_of(
    alloc: Global,
    names: &[SharedName],
    bytes: &[u8],
    count: u32,
    at: u32,
) -> Result<(Vec<SharedName>, u32), Refused>
    requires { length bytes.now ≤ 4294967294 }
    ensures { Gives (λ x. (x.0.items, x.1)) result (first (several_from (name_at names.now) count None) bytes.now at) }
{
    let mut list = Vec::new(alloc);
    let mut before = None;
    let mut place = at;
    for _ in 0..count {
        let ((item, found), behind) = name_of(names, before, bytes, place)?;
        list.push(item)?;
        before = Some(found);
        place = behind;
    }
    Ok((list, place))
}

/// The names behind their number.
#[tactic(auto, using(pj_format::proofs::Laws::reads), unfolding(pj_cache_format::specs::FormatTwo::name_list))]
pub(crate) fn names_of(
    alloc: Global,
    names: &[SharedName],
    bytes: &[u8],
    at: u32,
) -> Result<(SharedNames, u32), Refused>
    requires { length bytes.now ≤ 4294967294 }
    ensures { Gives (λ x. x) result (first (name_list names.now) bytes.now at) }
{
    let (count, behind) = u32_of(bytes, at)?;
    let (list, end) = several_names_of(alloc, names, bytes, count, behind)?;
    Ok((SharedNames::from_vec(list), end))
}

/// The key at a place.
fn key_in(keys: &[Key], place: u32) -> Result<Key, NoMemory>
    requires { place < length keys.now }
    ensures { IfOk result (λ key. key ≡ member_at keys.now place) }
{
    keys[place as usize].copied()
}

/// The rows of the key at a place.
#[tactic(auto, using(pj_format::proofs::Laws::reads), unfolding(pj_cache_format::specs::FormatTwo::key_rows))]
fn key_rows_of(
    alloc: Global,
    keys: &[Key],
    place: u32,
    bytes: &[u8],
    at: u32,
) -> Result<(KeyRows, u32), Refused>
    requires small { length bytes.now ≤ 4294967294 }
    requires there { place < length keys.now }
    ensures { Gives (λ x. x) result (first (key_rows keys.now place) bytes.now at) }
{
    let (rows, behind) = rows_of(alloc, bytes, at)?;
    let key = or_memory(key_in(keys, place))?;
    Ok((KeyRows { key, rows }, behind))
}

/// The rows of the keys at some places.
fn group_of(
    alloc: Global,
    keys: &[Key],
    places: &[u32],
    bytes: &[u8],
    at: u32,
) -> Result<(Vec<KeyRows>, u32), Refused>
    requires small { length bytes.now ≤ 4294967294 }
    requires there { All (λ p. p < length keys.now) places.now }
    ensures { Gives (λ x. (x.0.items, x.1)) result (first (each (key_rows keys.now) places.now) bytes.now at) }
{
    let mut list = Vec::new(alloc);
    let mut from = at;
    for place in places {
        let (item, behind) = key_rows_of(alloc, keys, *place, bytes, from)?;
        list.push(item)?;
        from = behind;
    }
    Ok((list, from))
}

/// Puts places to others.
fn use_places(used: &mut BTreeSet<u32>, places: &[u32]) -> Result<(), NoMemory>
    ensures { OnOk result (used.new.keys ≡ with_places used.old.keys places.now) }
{
    for place in places {
        used.insert(*place)?;
    }
    Ok(())
}

/// A result behind the first key of another one, and the place of its own first key. The places of its keys come to those of
/// the entry's earlier results.
#[tactic(auto, using(pj_format::proofs::Laws::reads), unfolding(pj_cache_format::specs::FormatTwo::result))]
fn result_of(
    alloc: Global,
    keys: &[Key],
    names: &[SharedName],
    before: Option<u32>,
    used: &mut BTreeSet<u32>,
    bytes: &[u8],
    at: u32,
) -> Result<((CachedResult, Option<u32>), u32), Refused>
    requires { length bytes.now ≤ 4294967294 }
    ensures { Gives (λ x. ((x.0.0, (x.0.1, used.new.keys)), x.1)) result (first (result_format keys.now names.now (before, used.old.keys)) bytes.now at) }
{
    let (places, behind) = key_places_of(alloc, keys.len(), used, before, bytes, at)?;
    let (asked, behind) = names_of(alloc, names, bytes, behind)?;
    let (group, end) = group_of(alloc, keys, &places, bytes, behind)?;
    or_memory(use_places(used, &places))?;
    let group = Group::from_vec(group);
    Ok((
        (
            CachedResult {
                group,
                names: asked,
            },
            places.first().copied(),
        ),
        end,
    ))
}

/// So many results of an entry.
pub(crate) fn several_results_of(
    alloc: Global,
    keys: &[Key],
    names: &[SharedName],
    bytes: &[u8],
    count: u32,
    at: u32,
) -> Result<(Vec<CachedResult>, u32), Refused>
    requires { length bytes.now ≤ 4294967294 }
    ensures { Gives (λ x. (x.0.items, x.1)) result (first (several_from (result_format keys.now names.now) count (None, [])) bytes.now at) }
{
    let mut list = Vec::new(alloc);
    let mut used = BTreeSet::new(alloc);
    let mut before = None;
    let mut place = at;
    for _ in 0..count {
        let ((item, first), behind) = result_of(
            alloc, keys, names, before, &mut used, bytes, place,
        )?;
        list.push(item)?;
        before = first;
        place = behind;
    }
    Ok((list, place))
}
