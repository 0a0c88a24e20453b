//! Rulesets: the rules of the files that are named, with the rules that these refer to. What a definition or a reference of a file adds is said
//! without the files that wait for it.
#![tactic(auto)]

mod counting;
mod defining;
mod fault;
mod gathering;
mod laws;
mod loading;
mod looking_up;
mod open_file;
mod progress;
mod reading;
mod referral;
mod rest;
mod taking;
mod top;

pub use fault::{RuleFault, RuleRefused, RuleWhat};
pub use laws::{files_are_read, one_first_fault, one_set, rules_are_sound, rules_or_fault};
pub use loading::load;
pub use pj_rule_sets::{Rule, RuleSet, Rules, is_active, regex_covers};
