//! Laws of caches that are carried over: rows are merged as they are to be, and what a cache becomes keeps the format's rules.
#![tactic(auto)]

mod laws;

pub use laws::{carried_caches_are_in_order, carried_caches_fit, rows_are_merged_by_rule};
