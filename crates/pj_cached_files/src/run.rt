//! What a run has at hand for each file.
use pj_cache::{Cache, Keys};
use pj_peg::WellFormed;
use pj_rule_sets::RuleSet;

/// What a run has at hand for each file.
#[derive(Drop)]
pub struct Run<'r> {
    /// The grammar of Java 17.
    pub grammar: &'r WellFormed,
    /// The cache that was found.
    pub found: &'r Cache,
    /// The rules.
    pub rules: &'r RuleSet,
    /// Their keys, in their order.
    pub keys: &'r Keys,
}
