//! The rules for which a run makes new results at a file.
ghost use Rattle.std.specs.Prelude.{◌≡◌, ◌++◌, ◌∷◌, ◌&&◌, not, [], IfOk, OnOk, map, min, if◌then◌else◌};
ghost use Rattle.std.specs.BTreeSet.{insert_key};
ghost use Rattle.pj_cache.specs.Places.{byte_order};
ghost use Rattle.pj_reuse.specs.Serving.{has_key, with_keys};
ghost use Rattle.pj_left_cache.specs.Missing.{missing_from, missing_rules, with_results};

use pj_base::{Copied, NoMemory, Numbers};
use pj_cache::{CachedResult, Key, KeyRows};
use std::alloc::Global;
use std::collections::BTreeSet;

/// Puts the keys of a result to others.
fn note_group(held: &mut BTreeSet<Key>, group: &[KeyRows]) -> Result<(), NoMemory>
    ensures { OnOk result (held.new.keys ≡ with_keys held.old.keys (map (λ k. k.key) group.now)) }
{
    for member in group {
        held.insert(member.key.copied()?)?;
    }
    Ok(())
}

/// Puts the keys of results to others.
fn note_results(held: &mut BTreeSet<Key>, results: &[CachedResult]) -> Result<(), NoMemory>
    ensures { OnOk result (held.new.keys ≡ with_results held.old.keys results.now) }
{
    for item in results {
        note_group(held, item.group.as_slice())?;
    }
    Ok(())
}

/// The smaller of two numbers.
pub(crate) fn smaller(first: usize, second: usize) -> usize
    ensures { result ≡ min first second }
{
    if first < second {
        return first;
    }
    second
}

/// The number of a rule by its place; past 32 bits it wants memory.
fn rule_number(place: usize) -> Result<u32, NoMemory>
    ensures { IfOk result (λ number. number ≡ place) }
{
    match u32::try_from(place) {
        Ok(number) => Ok(number),
        Err(_) => Err(NoMemory),
    }
}

/// Notes an active rule: its number is taken and its key is put to others, unless it is there.
fn note_rule(
    held: &mut BTreeSet<Key>,
    numbers: &mut Numbers,
    number: u32,
    key: &Key,
    is_active: bool,
) -> Result<(), NoMemory>
    ensures held { OnOk result (held.new.keys ≡ (if is_active && not (has_key held.old.keys key.now) then insert_key byte_order held.old.keys key.now else held.old.keys)) }
    ensures numbers { OnOk result (numbers.new ≡ (if is_active && not (has_key held.old.keys key.now) then numbers.old ++ number ∷ [] else numbers.old)) }
{
    let is_held = held.contains(key);
    if !is_active || is_held {
        return Ok(());
    }
    held.insert(key.copied()?)?;
    numbers.push(number)?;
    Ok(())
}

/// The numbers of the active rules whose key is not among some keys, of each key the first one.
fn numbers_besides(
    alloc: Global,
    held: BTreeSet<Key>,
    keys: &[Key],
    is_active: &[bool],
) -> Result<Numbers, NoMemory>
    ensures { IfOk result (λ numbers. numbers ≡ map (λ rule. rule.0) (missing_from held.keys 0 keys.now is_active.now)) }
{
    let mut held = held;
    let mut numbers = Numbers::new(alloc);
    let count = smaller(keys.len(), is_active.len());
    for i in 0..count {
        let number = rule_number(i)?;
        note_rule(&mut held, &mut numbers, number, &keys[i], is_active[i])?;
    }
    Ok(numbers)
}

/// The numbers, counted from 0 and ascending, of the active rules whose key none of the results that stay has, of each key the
/// first one: for these a run makes new results. `keys` has the key of each rule, in the order of the rules, and `is_active`
/// whether it is active; where one of both is longer, its rest counts for nothing.
pub fn missing_rules(
    alloc: Global,
    stay: &[CachedResult],
    keys: &[Key],
    is_active: &[bool],
) -> Result<Numbers, NoMemory>
    ensures { IfOk result (λ numbers. numbers ≡ map (λ rule. rule.0) (missing_rules stay.now keys.now is_active.now)) }
{
    let mut held = BTreeSet::new(alloc);
    note_results(&mut held, stay)?;
    numbers_besides(alloc, held, keys, is_active)
}
