//! The keys of rules, each once, with the number of its first rule.
ghost use Rattle.std.specs.Prelude.{◌≡◌, ◌<◌, length, IfOk, OnOk};
ghost use Rattle.std.specs.List.{All};
ghost use Rattle.pj_carry.specs.Carried.{first_rules, with_rule};

use pj_base::{Copied, NoMemory};
use pj_cache::Key;
use std::alloc::Global;
use std::collections::BTreeMap;

/// Puts the key of a rule to others, unless it is there.
fn note_rule(held: &mut BTreeMap<Key, u32>, key: &Key, rule: u32) -> Result<(), NoMemory>
    ensures { OnOk result (held.new.entries ≡ with_rule held.old.entries key.now rule) }
{
    let is_held = held.contains_key(key);
    if is_held {
        return Ok(());
    }
    let _ = held.insert(key.copied()?, rule)?;
    Ok(())
}

/// The number of a rule by its place; past 32 bits it wants memory.
fn rule_number(place: usize) -> Result<u32, NoMemory>
    ensures { IfOk result (λ number. number ≡ place) }
{
    match u32::try_from(place) {
        Ok(number) => Ok(number),
        Err(_) => Err(NoMemory),
    }
}

/// The keys of rules, with the number of the first rule of each.
pub(crate) type First = (Key, u32);

/// The members of a map in their order.
fn listed(alloc: Global, held: &BTreeMap<Key, u32>) -> Result<Vec<First>, NoMemory>
    ensures { IfOk result (λ list. list.items ≡ held.now.entries) }
{
    let mut list = Vec::new(alloc);
    for (key, rule) in held {
        list.push((key.copied()?, *rule))?;
    }
    Ok(list)
}

/// The keys of rules, each with the number of its first rule.
fn noted_rules(alloc: Global, keys: &[Key]) -> Result<BTreeMap<Key, u32>, NoMemory>
    ensures { IfOk result (λ held. held.entries ≡ first_rules keys.now) }
{
    let mut held = BTreeMap::new(alloc);
    for (place, key) in keys.iter().enumerate() {
        note_rule(&mut held, key, rule_number(place)?)?;
    }
    Ok(held)
}

/// The keys of rules in their order, each once, with the number of its first rule.
pub(crate) fn first_rules(alloc: Global, keys: &[Key]) -> Result<Vec<First>, NoMemory>
    ensures firsts { IfOk result (λ firsts. firsts.items ≡ first_rules keys.now) }
    ensures numbers { IfOk result (λ firsts. All (λ first. first.1 < length keys.now) firsts.items) }
{
    let held = noted_rules(alloc, keys)?;
    let firsts = listed(alloc, &held)?;
    Ok(firsts)
}
