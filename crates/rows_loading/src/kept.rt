//! What a set keeps of its rules.
use crate::put::put_number;
use pj_base::NoMemory;
use pj_rows::put;
use pj_rule_sets::{Rule, RuleSet};
use pj_xpatterns::PatternFlags;
use std::alloc::Global;

/// Puts the pattern, where it stands with no flags in the rule's query.
fn put_pattern(
    out: &mut String,
    alloc: Global,
    rule: &Rule,
    pattern: &str,
) -> Result<(), NoMemory> {
    let flags = PatternFlags {
        any_case: false,
        multi_line: false,
        dot_all: false,
    };
    let found = rule.query_patterns().get(alloc, pattern, flags)?;
    if found.is_some() {
        put(out, &[", ", pattern])?;
    }
    Ok(())
}

/// Puts a rule: how many variables it has, whether it has an expression that suppresses findings and patterns of that, and which of the
/// patterns `a+` and `b` stand in its query.
fn put_kept(out: &mut String, alloc: Global, rule: &Rule) -> Result<(), NoMemory> {
    put(out, &["; ", rule.row.name.as_str(), " "])?;
    put_number(
        out,
        u32::try_from(rule.variables().len()).unwrap_or(u32::MAX),
    )?;
    if rule.suppression().is_some() {
        put(out, &[", suppression"])?;
    }
    if rule.suppression_patterns().is_some() {
        put(out, &[", its patterns"])?;
    }
    put_pattern(out, alloc, rule, "a+")?;
    put_pattern(out, alloc, rule, "b")
}

/// The marker, and each rule.
pub fn kept_shown(alloc: Global, set: &RuleSet) -> Result<String, NoMemory> {
    let mut out = String::from_str(alloc, set.marker().as_str())?;
    for rule in set.rules().as_slice() {
        put_kept(&mut out, alloc, rule)?;
    }
    Ok(out)
}
