//! Rules and configuration errors in words.
use crate::put::{or_nothing, put_number};
use pj_base::NoMemory;
use pj_rows::{put, put_between};
use pj_rule_sets::{Rule, RuleSet};
use std::alloc::Global;

/// Puts the number of a rule's top ruleset and its row.
fn put_row(out: &mut String, rule: &Rule) -> Result<(), NoMemory> {
    put_number(out, rule.top)?;
    put(out, &[" ", rule.row.name.as_str(), " "])?;
    put_number(out, u32::from(rule.row.priority))?;
    put(out, &[" [", rule.row.message.as_str(), "] ["])?;
    put(out, &[rule.row.rule_set.as_str(), "]"])
}

/// Puts a rule's properties.
fn put_properties(out: &mut String, rule: &Rule) -> Result<(), NoMemory> {
    for property in rule.properties.as_slice() {
        let (name, kind) = (property.name.as_str(), property.kind.as_str());
        put(out, &[" ", name, ":", kind, "=", property.value.as_str()])?;
    }
    Ok(())
}

/// Puts a rule: the number of its top ruleset, its row, its query and its properties.
fn put_rule(out: &mut String, rule: &Rule) -> Result<(), NoMemory> {
    put_between(out, " ")?;
    put_row(out, rule)?;
    put(out, &[" ", rule.xpath.as_str()])?;
    put_properties(out, rule)?;
    put(out, &[";"])
}

/// Puts a configuration error.
fn put_error(out: &mut String, rule: &str, message: &str) -> Result<(), NoMemory> {
    put_between(out, " ")?;
    put(out, &["!", rule, ": ", message, ";"])
}

/// Puts each rule with a `;` behind it.
fn put_rules(out: &mut String, set: &RuleSet) -> Result<(), NoMemory> {
    for rule in set.rules().as_slice() {
        put_rule(out, rule)?;
    }
    Ok(())
}

/// Puts each configuration error behind a `!`, with a `;` behind it.
fn put_errors(out: &mut String, set: &RuleSet) -> Result<(), NoMemory> {
    for error in set.unusable().as_slice() {
        put_error(out, error.rule.as_str(), error.message.as_str())?;
    }
    Ok(())
}

/// Each rule, then each configuration error.
pub fn set_shown(alloc: Global, set: &RuleSet) -> Result<String, NoMemory> {
    let mut out = String::new(alloc);
    put_rules(&mut out, set)?;
    put_errors(&mut out, set)?;
    or_nothing(alloc, out)
}

/// How many rules a set has, and how many configuration errors.
pub fn counts_shown(alloc: Global, set: &RuleSet) -> Result<String, NoMemory> {
    let (rules, errors) = (set.rules().len(), set.unusable().len());
    Ok(format!(in alloc; "{rules} {errors}")?)
}
