//! The cache that a run leaves, made of what it found in files.
#![tactic(auto)]

mod laws;
mod leaving;
mod missing;
mod ordering;
mod saying;

pub use laws::{
    left_cache_is, left_caches_are_in_order, missing_rules_are, results_are_left,
    results_stand_by_bytes, said_is,
};
pub use leaving::left_cache;
pub use missing::missing_rules;
pub use ordering::in_order;
pub use saying::rows_of_rules;
