//! Keys of rules: what tells all that a rule is but the number of its top ruleset, and all that a list of rules is.
#![tactic(auto)]

mod key;
mod laws;
mod put;

pub use key::{list_key, rule_key};
pub use laws::{keys_tell_rules, list_keys_are_of_format_one, list_keys_tell_rules};
