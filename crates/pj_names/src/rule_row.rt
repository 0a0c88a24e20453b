//! What a report says of the rules.
use pj_base::{Copied, ListOf, NoMemory, Text};

/// What a report says of a rule.
#[derive(Debug, PartialEq, Eq, Drop)]
pub struct RuleRow {
    /// The rule's name.
    pub name: Text,
    /// The message of each of its findings.
    pub message: Text,
    /// The priority, from 1, the highest, to 5.
    pub priority: u8,
    /// The name of the ruleset that defines the rule, empty where that has none.
    pub rule_set: Text,
}

/// The rows of rules, in the order of their numbers.
pub type RuleRowList = ListOf<RuleRow>;

/// A rule, or a reference to rules, that a ruleset names and that cannot be used.
#[derive(Debug, PartialEq, Eq, Drop)]
pub struct ConfigError {
    /// The rule's name, or the text of the reference where it has none.
    pub rule: Text,
    /// Why it cannot be used.
    pub message: Text,
}

/// Configuration errors, in the order of reading.
pub type ConfigErrors = ListOf<ConfigError>;

impl Copied for RuleRow {
    fn copied(&self) -> Result<RuleRow, NoMemory> {
        Ok(RuleRow {
            name: self.name.copied()?,
            message: self.message.copied()?,
            priority: self.priority,
            rule_set: self.rule_set.copied()?,
        })
    }
}

impl Copied for ConfigError {
    fn copied(&self) -> Result<ConfigError, NoMemory> {
        Ok(ConfigError {
            rule: self.rule.copied()?,
            message: self.message.copied()?,
        })
    }
}
