//! The rules that a cache serves at a file.
ghost use Rattle.std.specs.Prelude.{◌≡◌, OnOk, IfOk, [], map, if◌then◌else◌};
ghost use Rattle.std.specs.List.{list_any};
ghost use Rattle.std.specs.List.Sorted.{IsStrictlySortedBy};
ghost use Rattle.pj_names.specs.Told.{Asks, seen};
ghost use Rattle.pj_cache.specs.Places.{byte_order};
ghost use Rattle.pj_reuse.specs.Serving.{has_key, are_kept, with_keys, keys_of_result, keys_of_results, places_from, served};

use crate::current::is_kept;
use pj_base::{Copied, NoMemory, Numbers};
use pj_cache::{Cache, CachedResult, Entry, Key, KeyRows, Keys, SharedName};
use pj_names::{Answer, AskFault, ClassName, Oracle};
use std::alloc::Global;
use std::collections::BTreeSet;
use std::sync::Arc;

/// Whether each of the names has the answer that is among these, asked in their order up to the first one that has another.
#[tactic(auto, using(pj_names::proofs::AskingLaws::asking_loops))]
pub(crate) fn are_kept<O: Oracle>(
    oracle: &mut O,
    answers: &[(ClassName, Arc<Answer>)],
    names: &[SharedName],
) -> Result<bool, AskFault>
    requires { IsStrictlySortedBy byte_order (map (λ a. a.0) answers.now) }
    ensures { Asks (are_kept (map (λ a. (a.0, a.1.value)) answers.now) names.now) (O.tells oracle.old) (O.tells oracle.new) result }
{
    for name in names {
        let name = name.as_name();
        let now = oracle.ask(name)?;
        let is_same = is_kept(answers, name, &*now);
        if !is_same {
            return Ok(false);
        }
    }
    Ok(true)
}

/// Whether a result is for one of the keys.
pub(crate) fn has_one(wanted: &BTreeSet<Key>, group: &[KeyRows]) -> bool
    ensures { result ≡ list_any (has_key wanted.now.keys) (map (λ k. k.key) group.now) }
{
    for member in group {
        let is_wanted = wanted.contains(&member.key);
        if is_wanted {
            return true;
        }
    }
    false
}

/// Puts the keys of a result to others.
fn note_group(held: &mut BTreeSet<Key>, group: &[KeyRows]) -> Result<(), NoMemory>
    ensures { OnOk result (held.new.keys ≡ with_keys held.old.keys (map (λ k. k.key) group.now)) }
{
    for member in group {
        held.insert(member.key.copied()?)?;
    }
    Ok(())
}

/// Puts keys to others.
pub(crate) fn note_keys(held: &mut BTreeSet<Key>, keys: &[Key]) -> Result<(), NoMemory>
    ensures { OnOk result (held.new.keys ≡ with_keys held.old.keys keys.now) }
{
    for key in keys {
        held.insert(key.copied()?)?;
    }
    Ok(())
}

/// The keys, with those of a result if it stands.
fn noted(held: BTreeSet<Key>, stand: bool, group: &[KeyRows]) -> Result<BTreeSet<Key>, NoMemory>
    ensures { IfOk result (λ set. set.keys ≡ (if stand then with_keys held.keys (map (λ k. k.key) group.now) else held.keys)) }
{
    let mut held = held;
    if !stand {
        return Ok(held);
    }
    note_group(&mut held, group)?;
    Ok(held)
}

/// The keys, with those of a result where it stands.
#[tactic(auto, using(pj_names::proofs::AskingLaws::asking_steps))]
fn keys_of_result<O: Oracle>(
    oracle: &mut O,
    answers: &[(ClassName, Arc<Answer>)],
    wanted: &BTreeSet<Key>,
    held: BTreeSet<Key>,
    item: &CachedResult,
) -> Result<BTreeSet<Key>, AskFault>
    requires { IsStrictlySortedBy byte_order (map (λ a. a.0) answers.now) }
    ensures { Asks (keys_of_result (map (λ a. (a.0, a.1.value)) answers.now) wanted.now.keys held.keys item.now) (O.tells oracle.old) (O.tells oracle.new) (seen (λ set. set.keys) result) }
{
    let is_wanted = has_one(wanted, item.group.as_slice());
    if !is_wanted {
        return Ok(held);
    }
    let stand = are_kept(oracle, answers, item.names.as_slice())?;
    Ok(noted(held, stand, item.group.as_slice())?)
}

/// The keys of the results that are for one of the keys asked of, and that stand.
#[tactic(auto, using(pj_names::proofs::AskingLaws::asking_loops))]
fn keys_of_results<O: Oracle>(
    alloc: Global,
    oracle: &mut O,
    answers: &[(ClassName, Arc<Answer>)],
    wanted: &BTreeSet<Key>,
    items: &[CachedResult],
) -> Result<BTreeSet<Key>, AskFault>
    requires { IsStrictlySortedBy byte_order (map (λ a. a.0) answers.now) }
    ensures { Asks (keys_of_results (map (λ a. (a.0, a.1.value)) answers.now) wanted.now.keys [] items.now) (O.tells oracle.old) (O.tells oracle.new) (seen (λ set. set.keys) result) }
{
    let mut held = BTreeSet::new(alloc);
    for item in items {
        held = keys_of_result(oracle, answers, wanted, held, item)?;
    }
    Ok(held)
}

/// The places of the keys that are among others. More than four bytes tell are want of memory.
fn places_among(alloc: Global, held: &BTreeSet<Key>, keys: &[Key]) -> Result<Numbers, NoMemory>
    ensures { IfOk result (λ places. places ≡ places_from (has_key held.now.keys) 0 keys.now) }
{
    let mut places = Numbers::new(alloc);
    let mut place: u32 = 0;
    for key in keys {
        let is_held = held.contains(key);
        if is_held {
            places.push(place)?;
        }
        if place == u32::MAX {
            return Err(NoMemory);
        }
        place += 1;
    }
    Ok(places)
}

/// The places, counted from 0, of the keys that a result of the entry has, each of whose answers in the cache is what the oracle
/// answers now. For each result that has one of the keys, its names are asked in the order of the result, up to the first one
/// whose answer is another; no other name is asked. The conditions are that the bytes of the entry are those of the file, which no
/// clause says, and that the answers of the cache stand in the order of their names' bytes, each once.
#[tactic(auto, using(pj_names::proofs::AskingLaws::asking_steps))]
pub fn served<O: Oracle>(
    alloc: Global,
    oracle: &mut O,
    entry: &Entry,
    cache: &Cache,
    keys: &Keys,
) -> Result<Numbers, AskFault>
    requires { IsStrictlySortedBy byte_order (map (λ a. a.0) cache.now.answers) }
    ensures { Asks (served cache.now.answers entry.now.results keys.now) (O.tells oracle.old) (O.tells oracle.new) result }
{
    let mut wanted = BTreeSet::new(alloc);
    note_keys(&mut wanted, keys.as_slice())?;
    let answers = cache.answers.as_slice();
    let held = keys_of_results(alloc, oracle, answers, &wanted, entry.results.as_slice())?;
    Ok(places_among(alloc, &held, keys.as_slice())?)
}
