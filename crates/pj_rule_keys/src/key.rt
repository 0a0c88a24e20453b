//! Keys of rules and of lists of rules.
ghost use Rattle.std.specs.Prelude.{◌≡◌, ◌<◌, ◌++◌, IfOk, OnOk, codes, flat_map, length};
ghost use Rattle.std.specs.Fmt.{decimal};
ghost use Rattle.std.specs.List.{All, HoldsAt};
ghost use Rattle.pj_rule_keys.specs.Keys.{rule_texts, spelled, key_of, list_key_of, HasRoom, FitsKey, FitsTopKey, FitListKey};

use crate::put::{put_number, put_rule, put_text};
use pj_base::{Bytes, NoMemory, Text};
use pj_cache::Key;
use pj_rule_sets::{Rule, RuleSet};
use std::alloc::Global;

/// The bytes of the key of a rule.
fn key_bytes(alloc: Global, marker: &Text, rule: &Rule) -> Result<Vec<u8>, NoMemory>
    ensures value { IfOk result (λ bytes. bytes.items ≡ key_of marker.now rule.now) }
    ensures room { IfOk result (λ _. HasRoom marker.now × FitsKey rule.now) }
{
    let mut out = Vec::new(alloc);
    put_text(&mut out, "java-17")?;
    put_text(&mut out, marker.as_str())?;
    put_rule(alloc, &mut out, rule)?;
    Ok(out)
}

/// The key of a rule.
fn key_made(alloc: Global, marker: &Text, rule: &Rule) -> Result<Key, NoMemory>
    ensures value { IfOk result (λ key. key ≡ key_of marker.now rule.now) }
    ensures room { IfOk result (λ _. HasRoom marker.now × FitsKey rule.now) }
{
    let bytes = key_bytes(alloc, marker, rule)?;
    Key::new(alloc, Bytes::from_vec(bytes))
}

/// The key of a rule, by its number from 0. A text of more bytes than four bytes tell is want of memory. The condition is that the
/// rule is there.
pub fn rule_key(alloc: Global, rules: &RuleSet, rule: u32) -> Result<Key, NoMemory>
    requires { rule < length rules.now.rules }
    ensures value { IfOk result (λ key. HoldsAt (λ r. key ≡ key_of rules.now.marker r) rules.now.rules rule) }
    ensures room { IfOk result (λ _. HasRoom rules.now.marker × HoldsAt FitsKey rules.now.rules rule) }
{
    let marker = rules.marker();
    let list = rules.rules().as_slice();
    let found = &list[rule as usize];
    key_made(alloc, marker, found)
}

/// Puts a rule behind the number of its top ruleset.
fn put_top_rule(alloc: Global, out: &mut Vec<u8>, rule: &Rule) -> Result<(), NoMemory>
    ensures put { OnOk result (out.new.items ≡ out.old.items ++ (spelled (decimal rule.now.top) ++ flat_map spelled (rule_texts rule.now))) }
    ensures room { OnOk result (FitsTopKey rule.now) }
{
    put_number(alloc, out, rule.top as usize)?;
    put_rule(alloc, out, rule)?;
    Ok(())
}

/// Puts rules.
fn put_rules(alloc: Global, out: &mut Vec<u8>, rules: &[Rule]) -> Result<(), NoMemory>
    ensures put { OnOk result (out.new.items ≡ out.old.items ++ flat_map (λ r. spelled (decimal r.top) ++ flat_map spelled (rule_texts r)) rules.now) }
    ensures room { OnOk result (All FitsTopKey rules.now) }
{
    for rule in rules {
        put_top_rule(alloc, out, rule)?;
    }
    Ok(())
}

/// The bytes of the key of a list of rules.
fn list_key_bytes(alloc: Global, marker: &Text, rules: &[Rule]) -> Result<Vec<u8>, NoMemory>
    ensures value { IfOk result (λ bytes. bytes.items ≡ list_key_of marker.now rules.now) }
    ensures room { IfOk result (λ _. HasRoom marker.now × FitListKey rules.now) }
{
    let mut out = Vec::new(alloc);
    put_text(&mut out, marker.as_str())?;
    put_number(alloc, &mut out, rules.len())?;
    put_rules(alloc, &mut out, rules)?;
    Ok(out)
}

/// The key of all rules, in their order, as caches of format 1 have it. A text of more bytes than four bytes tell is want of memory.
pub fn list_key(alloc: Global, rules: &RuleSet) -> Result<Bytes, NoMemory>
    ensures value { IfOk result (λ key. key ≡ list_key_of rules.now.marker rules.now.rules) }
    ensures room { IfOk result (λ _. HasRoom rules.now.marker × FitListKey rules.now.rules) }
{
    let bytes = list_key_bytes(alloc, rules.marker(), rules.rules().as_slice())?;
    Ok(Bytes::from_vec(bytes))
}
