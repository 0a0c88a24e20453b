//! What reports say: laws, without code.
#![tactic(auto)]

mod laws;

pub use laws::{cold_reports_say_what_rules_mean, reports_say_what_rules_mean};
