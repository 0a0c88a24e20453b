//! Sets of rules.
ghost use Rattle.std.specs.Prelude.{◌≡◌, IfOk, Ok};
ghost use Rattle.pj_rule_sets.specs.Active.{covers_at, is_active_at};

use crate::rule::Rule;
use pj_base::{ListOf, NoMemory, Text};
use pj_names::ConfigErrors;
use std::alloc::Global;
use std::marker::Model;

/// Rules, by their numbers from 0.
pub type Rules = ListOf<Rule>;

/// The rules of a load, with what cannot be used, and the marker.
#[derive(Drop)]
pub struct RuleSet {
    rules: Rules,
    unusable: ConfigErrors,
    marker: Text,
}

impl Model for RuleSet {
    ghost use Rattle.pj_rule_sets.specs.Rules.{EffectiveRules};

    ghost Value = { EffectiveRules };

    ghost view = { λ set. record { rules = set.rules; unusable = set.unusable; marker = set.marker } };
}

impl RuleSet {
    /// The set of these rules.
    pub fn of(rules: Rules, unusable: ConfigErrors, marker: Text) -> RuleSet
        ensures { result ≡ record { rules = rules; unusable = unusable; marker = marker } }
    {
        RuleSet {
            rules,
            unusable,
            marker,
        }
    }

    /// The rules, in order.
    pub fn rules(&self) -> &Rules
        ensures { result.now ≡ self.now.rules }
    {
        &self.rules
    }

    /// The configuration errors, in the order in which the rulesets take them.
    pub fn unusable(&self) -> &ConfigErrors
        ensures { result.now ≡ self.now.unusable }
    {
        &self.unusable
    }

    /// The marker that the load was given.
    pub fn marker(&self) -> &Text
        ensures { result.now ≡ self.now.marker }
    {
        &self.marker
    }
}

/// Whether the rule of this number is active for a path: unless an exclude pattern of its top ruleset matches the whole path and no
/// include pattern does. No rule is active that is not there.
pub fn is_active(alloc: Global, rules: &RuleSet, rule: u32, path: &Text) -> Result<bool, NoMemory>
    ensures { IfOk result (λ active. active ≡ is_active_at rules.now rule path.now) }
{
    match rules.rules().get(rule as usize) {
        Some(rule) => rule.is_active(alloc, path.as_str()),
        None => Ok(false),
    }
}

/// Whether the rule of this number has a `violationSuppressRegex` that matches its whole message. It was searched for in the load, so no
/// memory is wanted here.
pub fn regex_covers(rules: &RuleSet, rule: u32) -> Result<bool, NoMemory>
    ensures { result ≡ Ok (covers_at rules.now rule) }
{
    match rules.rules().get(rule as usize) {
        Some(rule) => Ok(rule.covers()),
        None => Ok(false),
    }
}
