//! The findings of rules in a file: which nodes they are, where they stand, what suppresses them, and the rows of the file.
//!
//! Nothing here evaluates: a query's items are given, and so is what suppresses a finding by an expression.
#![tactic(auto)]

mod denoted;
mod extent;
mod laws;
mod message;
mod reason;
mod rows;
mod run;

pub use denoted::{Nodes, denoted_nodes};
pub use extent::{Extent, extent_of};
pub use laws::{errors_are_the_rules, findings_are_the_rules, nodes_are_the_items};
pub use message::{code_name, rule_message};
pub use reason::plain_reason;
pub use rows::file_rows;
pub use run::{RuleRun, RuleRuns};
