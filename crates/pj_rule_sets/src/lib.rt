//! Rules: each with the expressions that its texts spell, in the lists that files make, and in the sets that a run applies.
#![tactic(auto)]

mod active;
mod entry;
mod expressions;
mod fault;
mod known;
mod laws;
mod list;
mod path_patterns;
mod patterns;
mod rule;
mod rule_set;
mod spelled;
mod table;
mod usable;

pub use active::which_are_active;
pub use entry::{Entry, Origin, Unusable, not_an_xpath_rule, not_available};
pub use expressions::{RuleExpressions, expressions_of};
pub use fault::ExpressionFault;
pub use known::{Known, OpenPaths, ReadFiles, RuleList};
pub use laws::{one_fault, sound_or_fault};
pub use list::{named, put_without};
pub use path_patterns::{PathPattern, PathPatterns};
pub use patterns::whole;
pub use rule::Rule;
pub use rule_set::{RuleSet, Rules, is_active, regex_covers};
pub use spelled::Spelled;
pub use table::{NameSet, RuleTable};
pub use usable::UsableRule;
