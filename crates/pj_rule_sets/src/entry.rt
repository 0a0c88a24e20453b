//! The members of the lists that files make.
ghost use Rattle.std.specs.Prelude.{◌≡◌, IfOk};
ghost use Rattle.pj_rule_sets.specs.Lists.{not_an_xpath_rule, not_available};

use crate::usable::UsableRule;
use pj_base::{Copied, NoMemory, Text};
use pj_names::ConfigError;
use std::alloc::Global;

/// What a rule is told apart by: a rule by the file in which it is defined and its name there, and a reference to a file that is
/// not available by the file in which it is written and its text.
#[derive(PartialEq, Eq, Hash, Drop)]
pub struct Origin {
    /// Whether it is a reference.
    pub is_reference: bool,
    /// The path of the file.
    pub path: Text,
    /// The name or the reference.
    pub text: Text,
}

/// A rule that cannot be used.
#[derive(Drop)]
pub struct Unusable {
    /// The name under which it is taken or excluded; a reference to a whole file has none.
    pub name: Option<Text>,
    /// What the report says of it.
    pub error: ConfigError,
}

/// A rule, or what stands for one that cannot be used.
#[derive(Drop)]
pub enum Entry {
    /// A rule, with the expressions that its texts spell.
    Rule(UsableRule),
    /// A rule that cannot be used.
    Unusable(Unusable),
}

impl Copied for Origin {
    fn copied(&self) -> Result<Origin, NoMemory> {
        Ok(Origin {
            is_reference: self.is_reference,
            path: self.path.copied()?,
            text: self.text.copied()?,
        })
    }
}

impl Copied for Unusable {
    fn copied(&self) -> Result<Unusable, NoMemory> {
        Ok(Unusable {
            name: Copied::copied(&self.name)?,
            error: self.error.copied()?,
        })
    }
}

impl Copied for Entry {
    fn copied(&self) -> Result<Entry, NoMemory> {
        Ok(match self {
            Entry::Rule(rule) => Entry::Rule(rule.copied()?),
            Entry::Unusable(unusable) => Entry::Unusable(unusable.copied()?),
        })
    }
}

/// What stands for a rule that is no XPath rule.
pub fn not_an_xpath_rule(alloc: Global, name: &Text) -> Result<Entry, NoMemory>
    ensures { IfOk result (λ entry. entry ≡ not_an_xpath_rule name.now) }
{
    Ok(Entry::Unusable(Unusable {
        name: Some(name.copied()?),
        error: ConfigError {
            rule: name.copied()?,
            message: Text::from_str(alloc, "not an XPath rule")?,
        },
    }))
}

/// What stands for a reference to a file that is not available.
pub fn not_available(alloc: Global, name: Option<Text>, reference: Text) -> Result<Entry, NoMemory>
    ensures { IfOk result (λ entry. entry ≡ not_available name reference) }
{
    Ok(Entry::Unusable(Unusable {
        name,
        error: ConfigError {
            rule: reference,
            message: Text::from_str(alloc, "rule is not available")?,
        },
    }))
}
