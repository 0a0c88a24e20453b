//! What the entries of a cache name: keys of rules, and classes.
ghost use Rattle.std.specs.Prelude.{◌≡◌, OnOk, IfOk, map, flat_map};
ghost use Rattle.std.specs.List.Sorted.{IsStrictlySortedBy};
ghost use Rattle.pj_cache.specs.Places.{byte_order};
ghost use Rattle.pj_cache_format.specs.FormatTwo.{with_more, keys_of, names_of};

use pj_base::{Copied, NoMemory};
use pj_cache::{CachedResult, Entry, Key, KeyRows, SharedName};
use std::alloc::Global;
use std::collections::BTreeSet;

/// Puts the keys of a result to others.
fn note_group(held: &mut BTreeSet<Key>, group: &[KeyRows]) -> Result<(), NoMemory>
    ensures { OnOk result (held.new.keys ≡ with_more held.old.keys (map (λ k. k.key) group.now)) }
{
    for member in group {
        held.insert(member.key.copied()?)?;
    }
    Ok(())
}

/// Puts the keys of results to others.
fn note_keys(held: &mut BTreeSet<Key>, results: &[CachedResult]) -> Result<(), NoMemory>
    ensures { OnOk result (held.new.keys ≡ with_more held.old.keys (flat_map (λ r. map (λ k. k.key) r.group) results.now)) }
{
    for result in results {
        note_group(held, result.group.as_slice())?;
    }
    Ok(())
}

/// The members of a set in their order.
fn listed_keys(alloc: Global, held: &BTreeSet<Key>) -> Result<Vec<Key>, NoMemory>
    ensures keys { IfOk result (λ list. list.items ≡ held.now.keys) }
    ensures ascending { IfOk result (λ list. IsStrictlySortedBy byte_order list.items) }
{
    let mut list = Vec::new(alloc);
    for key in held {
        list.push(key.copied()?)?;
    }
    Ok(list)
}

/// The keys that entries have, in the order of their bytes, each once.
pub fn keys_of(alloc: Global, entries: &[Entry]) -> Result<Vec<Key>, NoMemory>
    ensures keys { IfOk result (λ keys. keys.items ≡ keys_of entries.now) }
    ensures ascending { IfOk result (λ keys. IsStrictlySortedBy byte_order keys.items) }
{
    let mut held = BTreeSet::new(alloc);
    for entry in entries {
        note_keys(&mut held, entry.results.as_slice())?;
    }
    listed_keys(alloc, &held)
}

/// Puts names to others.
fn note_classes(held: &mut BTreeSet<SharedName>, names: &[SharedName]) -> Result<(), NoMemory>
    ensures { OnOk result (held.new.keys ≡ with_more held.old.keys names.now) }
{
    for name in names {
        held.insert(name.copied()?)?;
    }
    Ok(())
}

/// Puts the names of results to others.
fn note_names(held: &mut BTreeSet<SharedName>, results: &[CachedResult]) -> Result<(), NoMemory>
    ensures { OnOk result (held.new.keys ≡ with_more held.old.keys (flat_map (λ r. r.names) results.now)) }
{
    for result in results {
        note_classes(held, result.names.as_slice())?;
    }
    Ok(())
}

/// The members of a set in their order.
fn listed_names(alloc: Global, held: &BTreeSet<SharedName>) -> Result<Vec<SharedName>, NoMemory>
    ensures keys { IfOk result (λ list. list.items ≡ held.now.keys) }
{
    let mut list = Vec::new(alloc);
    for name in held {
        list.push(name.copied()?)?;
    }
    Ok(list)
}

/// The classes that entries name, in the order of their bytes, each once.
pub fn names_of(alloc: Global, entries: &[Entry]) -> Result<Vec<SharedName>, NoMemory>
    ensures { IfOk result (λ names. names.items ≡ names_of entries.now) }
{
    let mut held = BTreeSet::new(alloc);
    for entry in entries {
        note_names(&mut held, entry.results.as_slice())?;
    }
    listed_names(alloc, &held)
}
