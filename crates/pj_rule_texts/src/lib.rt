//! The texts of rulesets: what is written in a ruleset file, or why it is no ruleset, and the texts of the rules that its elements define
//! or change.
//!
//! Nothing here reads XPath: a rule is its texts, and a reference to another file is told apart, not followed.
#![tactic(auto)]

mod draft;
mod fault;
mod file;
mod file_fault;
mod members;
mod numbers;
mod priority;
mod properties;
mod reading;
mod reference;
mod rule;
mod spaces;
mod types;
mod value;
mod written;

pub use draft::needs_no_type;
pub use fault::TextFault;
pub use file::read_ruleset;
pub use file_fault::{FileFault, FileRefused};
pub use members::members_of;
pub use priority::priority_of;
pub use properties::{Properties, Property};
pub use reading::written_ruleset;
pub use reference::{Reference, beside, is_from_elsewhere, reference_of};
pub use rule::{RuleTexts, defined, is_xpath_rule, overridden};
pub use spaces::normalized;
pub use types::{PropertyType, type_named};
pub use value::{typed_value, variables_of};
pub use written::{Part, Piece, WrittenProperty, WrittenRule, WrittenRuleset};
