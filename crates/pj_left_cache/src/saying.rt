//! What the results of a file say of each rule.
ghost use Rattle.std.specs.Prelude.{◌≡◌, [], IfOk, OnOk};
ghost use Rattle.pj_left_cache.specs.Said.{row_at, said_by, said_from, said_of_rules, with_group, with_groups, with_row};

use crate::missing::smaller;
use pj_base::{Copied, ListOf, NoMemory};
use pj_cache::{CachedResult, Key, KeyRows};
use pj_reports::{Ruled, Spots};
use std::alloc::Global;
use std::collections::BTreeMap;

/// What is said of rules, in their order.
pub type RuledList = ListOf<Ruled>;

/// Puts a row to others, unless there is one of its key.
fn note_row(held: &mut BTreeMap<Key, KeyRows>, row: &KeyRows) -> Result<(), NoMemory>
    ensures { OnOk result (held.new.entries ≡ with_row held.old.entries row.now) }
{
    let is_held = held.contains_key(&row.key);
    if is_held {
        return Ok(());
    }
    let _ = held.insert(row.key.copied()?, row.copied()?)?;
    Ok(())
}

/// Puts the rows of a result to others.
fn note_group(held: &mut BTreeMap<Key, KeyRows>, group: &[KeyRows]) -> Result<(), NoMemory>
    ensures { OnOk result (held.new.entries ≡ with_group held.old.entries group.now) }
{
    for row in group {
        note_row(held, row)?;
    }
    Ok(())
}

/// Puts the rows of results to others.
fn note_groups(held: &mut BTreeMap<Key, KeyRows>, results: &[CachedResult]) -> Result<(), NoMemory>
    ensures { OnOk result (held.new.entries ≡ with_groups held.old.entries results.now) }
{
    for item in results {
        note_group(held, item.group.as_slice())?;
    }
    Ok(())
}

/// What rows by their keys say of a rule: nothing, where it is not active or there is no row of its key.
fn said_of(
    alloc: Global,
    rows: &BTreeMap<Key, KeyRows>,
    key: &Key,
    is_active: bool,
) -> Result<Ruled, NoMemory>
    ensures { IfOk result (λ said. said ≡ said_by (row_at rows.now.entries key.now) is_active) }
{
    if !is_active {
        return Ok(Ruled::Spots(Spots::new(alloc)));
    }
    match rows.get(key) {
        Some(row) => Ok(row.copied()?.rows),
        None => Ok(Ruled::Spots(Spots::new(alloc))),
    }
}

/// What rows by their keys say of rules.
fn said_from(
    alloc: Global,
    rows: &BTreeMap<Key, KeyRows>,
    keys: &[Key],
    is_active: &[bool],
) -> Result<RuledList, NoMemory>
    ensures { IfOk result (λ all. all ≡ said_from rows.now.entries keys.now is_active.now) }
{
    let mut all = RuledList::new(alloc);
    let count = smaller(keys.len(), is_active.len());
    for i in 0..count {
        let said = said_of(alloc, rows, &keys[i], is_active[i])?;
        all.push(said)?;
    }
    Ok(all)
}

/// What the results of a file say of each rule, in the order of the rules: the rows of its key, and nothing where none of them has
/// the key or the rule is not active. `keys` has the key of each rule, and `is_active` whether it is active; where one of both
/// is longer, its rest counts for nothing.
pub fn rows_of_rules(
    alloc: Global,
    results: &[CachedResult],
    keys: &[Key],
    is_active: &[bool],
) -> Result<RuledList, NoMemory>
    ensures { IfOk result (λ all. all ≡ said_of_rules results.now keys.now is_active.now) }
{
    let mut rows = BTreeMap::new(alloc);
    note_groups(&mut rows, results)?;
    said_from(alloc, &rows, keys, is_active)
}
