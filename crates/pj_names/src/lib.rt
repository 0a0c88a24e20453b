//! Names of classes, types and answers, that contracts see as lists and sets; the form of every computation that asks for classes: its
//! meaning, its oracle, its laws; and the rows of rules and configuration errors that the loading of rulesets hands to reports.
#![tactic(auto)]

mod answer;
mod answers;
mod asking;
mod class_name;
mod class_name_set;
mod laws;
mod map_oracle;
mod oracle;
mod recorder;
mod rule_row;
mod ty;

pub use answer::{Answer, Broken, ClassFault, ClassInfo, Member, Members};
pub use answers::Answers;
pub use asking::{ClassNames, look_up};
pub use class_name::ClassName;
pub use class_name_set::ClassNameSet;
pub use laws::{
    agreement, answers_are_meant, asked_are_needs, one_outcome, sequence_unites, whole_is_done,
};
pub use map_oracle::MapOracle;
pub use oracle::{AskFault, Oracle};
pub use recorder::Recorder;
pub use rule_row::{ConfigError, ConfigErrors, RuleRow, RuleRowList};
pub use ty::{
    Bindings, PrimitiveType as Prim, Ty, TyList, Types, copied_bindings, copied_types, same_types,
};
