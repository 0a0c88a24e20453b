//! Entries carried over.
ghost use Rattle.std.specs.Prelude.{◌≡◌, ◌<◌, ◌++◌, ◌∷◌, [], length, map, None, IfOk, OnOk};
ghost use Rattle.std.specs.List.{All};
ghost use Rattle.pj_carry.specs.Carried.{carried_entries, carried_entry, entry_by, entry_with, key_rows, listed, results_of};
ghost use Rattle.pj_carry.specs.Form.{are_of_rules, lone_message};
ghost use Rattle.pj_reports.specs.declared.ruled.Head.TheVariants.{Message, Package};
ghost use Rattle.pj_carrying.specs.ByRule.{row_at, rows_in};

use crate::firsts::First;
use crate::form::{are_of_rules, lone_message};
use crate::rows::rows_by_rule;
use pj_base::{Copied, NoMemory, Text};
use pj_cache::{
    CachedResult, Entries, Entry, Group, Key, KeyRows, OldEntries, OldEntry, Results, SharedNames,
};
use pj_reports::{FileRows, Head, Ruled};
use std::alloc::Global;

/// An equal value.
fn copied_rows(rows: &Ruled) -> Result<Ruled, NoMemory>
    ensures { IfOk result (λ copy. copy ≡ rows.now) }
{
    Ok(match rows {
        Ruled::Spots(spots) => Ruled::Spots(spots.copied()?),
        Ruled::Message(message) => Ruled::Message(message.copied()?),
    })
}

/// Puts the rows of a key at the end: those of the rule of this number.
fn put_rows(group: &mut Group, all: &[Ruled], key: &Key, rule: u32) -> Result<(), NoMemory>
    requires { rule < length all.now }
    ensures { OnOk result (group.new ≡ group.old ++ record { key = key.now; rows = row_at all.now rule } ∷ []) }
{
    let row = &all[rule as usize];
    let rows = copied_rows(row)?;
    let key = key.copied()?;
    group.push(KeyRows { key, rows })?;
    Ok(())
}

/// The rows of each key: those of its first rule.
fn group_by(alloc: Global, all: &[Ruled], firsts: &[First]) -> Result<Group, NoMemory>
    requires { All (λ first. first.1 < length all.now) firsts.now }
    ensures { IfOk result (λ group. group ≡ map (rows_in all.now) firsts.now) }
{
    let mut group = Group::new(alloc);
    for first in firsts {
        put_rows(&mut group, all, &first.0, first.1)?;
    }
    Ok(group)
}

/// What rows say of the rules of each key: one walk along the rows, and one along the keys.
fn group_of(
    alloc: Global,
    count: usize,
    firsts: &[First],
    rows: &FileRows,
) -> Result<Group, NoMemory>
    requires { All (λ first. first.1 < count) firsts.now }
    ensures { IfOk result (λ group. group ≡ map (key_rows rows.now) firsts.now) }
{
    let all = rows_by_rule(alloc, count, rows)?;
    let group = group_by(alloc, all.as_slice(), firsts)?;
    Ok(group)
}

/// One result for all keys, and none without rules.
fn results_of(
    alloc: Global,
    count: usize,
    firsts: &[First],
    rows: &FileRows,
    names: SharedNames,
) -> Result<Results, NoMemory>
    requires { All (λ first. first.1 < count) firsts.now }
    ensures { IfOk result (λ results. results ≡ results_of firsts.now rows.now names) }
{
    let mut results = Results::new(alloc);
    if firsts.is_empty() {
        return Ok(results);
    }
    let group = group_of(alloc, count, firsts, rows)?;
    results.push(CachedResult { group, names })?;
    Ok(results)
}

/// The message of a file without a tree, if these are its rows.
fn lone_copy(rows: &FileRows) -> Result<Option<Text>, NoMemory>
    ensures { IfOk result (λ message. message ≡ lone_message rows.now) }
{
    match lone_message(rows) {
        Some(message) => Ok(Some(message.copied()?)),
        None => Ok(None),
    }
}

/// The entry of a file without a tree.
fn without_tree(alloc: Global, old: OldEntry, message: Text) -> Entry
    ensures { result ≡ entry_with old (Message message) [] }
{
    let OldEntry { path, bytes, .. } = old;
    Entry {
        path,
        bytes,
        head: Head::Message(message),
        results: Results::new(alloc),
    }
}

/// The entry of a file with a tree.
fn with_results(
    alloc: Global,
    count: usize,
    firsts: &[First],
    old: OldEntry,
) -> Result<Entry, NoMemory>
    requires { All (λ first. first.1 < count) firsts.now }
    ensures { IfOk result (λ entry. entry ≡ entry_with old (Package old.rows.«package») (results_of firsts.now old.rows old.names)) }
{
    let OldEntry {
        path,
        bytes,
        names,
        rows,
    } = old;
    let results = results_of(alloc, count, firsts, &rows, names)?;
    let head = Head::Package(rows.package);
    Ok(Entry {
        path,
        bytes,
        head,
        results,
    })
}

/// The entry of a file with a tree, if its rows are those of rules.
fn carry_rows(
    alloc: Global,
    count: usize,
    firsts: &[First],
    old: OldEntry,
) -> Result<Option<Entry>, NoMemory>
    requires { All (λ first. first.1 < count) firsts.now }
    ensures { IfOk result (λ entry. entry ≡ entry_by firsts.now old None (are_of_rules old.rows)) }
{
    let of_rules = are_of_rules(alloc, &old.rows)?;
    if !of_rules {
        return Ok(None);
    }
    let entry = with_results(alloc, count, firsts, old)?;
    Ok(Some(entry))
}

/// The entry of a file, if its rows are those of a file.
fn carry_entry(
    alloc: Global,
    count: usize,
    firsts: &[First],
    old: OldEntry,
) -> Result<Option<Entry>, NoMemory>
    requires { All (λ first. first.1 < count) firsts.now }
    ensures { IfOk result (λ entry. entry ≡ carried_entry firsts.now old) }
{
    let lone = lone_copy(&old.rows)?;
    match lone {
        Some(message) => Ok(Some(without_tree(alloc, old, message))),
        None => carry_rows(alloc, count, firsts, old),
    }
}

/// Puts an entry behind others, if there is one.
fn put_entry(entries: &mut Entries, entry: Option<Entry>) -> Result<(), NoMemory>
    ensures { OnOk result (entries.new ≡ entries.old ++ listed entry) }
{
    if let Some(entry) = entry {
        entries.push(entry)?;
    }
    Ok(())
}

/// The entries of files whose rows are those of a file.
pub(crate) fn carry_entries(
    alloc: Global,
    count: usize,
    firsts: &[First],
    old: OldEntries,
) -> Result<Entries, NoMemory>
    requires { All (λ first. first.1 < count) firsts.now }
    ensures { IfOk result (λ entries. entries ≡ carried_entries firsts.now old) }
{
    let mut entries = Entries::new(alloc);
    for entry in old.into_vec() {
        put_entry(&mut entries, carry_entry(alloc, count, firsts, entry)?)?;
    }
    Ok(entries)
}
