//! Which caches are right, that they stay so whatever comes later, and that what they say is what rules mean: laws, without code.
#![tactic(auto)]

mod laws;

pub use laws::{
    left_caches_are_right, left_caches_fit, left_entries_say_what_rules_mean, one_left_cache,
    one_looked, results_are_made_where_none_serve, right_results_serve, second_runs_reuse_all,
    served_rules_come,
};
