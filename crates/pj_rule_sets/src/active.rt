//! Which rules are active for a path.
ghost use Rattle.std.specs.Prelude.{◌≡◌, IfOk, IsTrue, map};
ghost use Rattle.pj_rule_texts.specs.Values.{Text as TextOf};
ghost use Rattle.pj_rule_sets.specs.Active.{is_active};

use crate::rule::Rule;
use pj_base::{Exact, ListOf, NoMemory};
use std::alloc::Global;

/// Whether both rules have the same path patterns, as those of one top ruleset have: both are active for the same paths.
fn has_patterns_of(rule: &Rule, other: &Rule) -> bool
    ensures { IsTrue result → (path : TextOf) → is_active rule.now path ≡ is_active other.now path }
{
    rule.exclude.is(&other.exclude) && rule.include.is(&other.include)
}

/// For each of the rules whether it is active for the path. Where rules that follow each other have the same path patterns, as
/// those of a top ruleset have, these are matched once.
pub fn which_are_active(alloc: Global, rules: &[Rule], path: &str) -> Result<ListOf<bool>, NoMemory>
    ensures { IfOk result (λ each. each ≡ map (λ rule. is_active rule path.now) rules.now) }
{
    let mut each = ListOf::new(alloc);
    let mut before: Option<&Rule> = None;
    let mut is_active = true;
    for rule in rules {
        let is_known = match before {
            Some(other) => has_patterns_of(rule, other),
            None => false,
        };
        if !is_known {
            is_active = rule.is_active(alloc, path)?;
        }
        each.push(is_active)?;
        before = Some(rule);
    }
    Ok(each)
}
