//! What caches of rules as they are written say: laws, without code.
#![tactic(auto)]

mod laws;

pub use laws::{
    left_caches_make_cold_reports, rules_of_one_key_have_one_meaning, rules_of_sets_are_written,
    written_rules_have_files,
};
