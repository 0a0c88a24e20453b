//! XPath: laws of what expressions denote, of one tree, of several, and of known patterns, each the contract of a call that does nothing.
#![tactic(auto)]

mod laws;
mod tree_laws;

pub use laws::{by_answers, filtered_by_true, one_thing, united_with_itself};
pub use tree_laws::{patterns_are_a_set, tree_facts_alone, trees_tell_expressions};
