//! Why rulesets are refused.

use pj_base::{NoMemory, Text};
use pj_xparse::XSyntax;

/// A fault of a ruleset file.
#[derive(Debug, Drop)]
pub struct RuleFault {
    /// The path of the file in which the fault stands.
    pub path: Text,
    /// The fault.
    pub what: RuleWhat,
}

/// What is at fault.
#[derive(Debug, Drop)]
pub enum RuleWhat {
    /// The file is no markup, not UTF-8, or has another root than `ruleset`: the offset in bytes.
    Markup(u32),
    /// A rule has no name: the offset in bytes of its start tag.
    NoName(u32),
    /// The rule of this name has no property `xpath`.
    NoXPath(Text),
    /// An expression of the rule of this name has this fault.
    XPath(Text, XSyntax),
    /// The rule of this name has a priority that is none of 1 to 5.
    BadPriority(Text),
    /// The rule of this name has a property without name, value or type, or with a value outside its type, or a reference writes
    /// one that the rule does not declare.
    BadProperty(Text),
    /// This reference has neither form, or leads to a file or rule that is not there.
    MissingRef(Text),
    /// This reference leads to a file that is being read.
    RefCycle(Text),
    /// Two rules of the file have this name.
    SameName(Text),
    /// A pattern of the rule of this name, or this path pattern, is no pattern of `regex`'s grammar or nests past its depth.
    PatternRefused(Text),
    /// The file has more than 1,048,576 bytes.
    TooLong,
}

/// Why rulesets do not load.
#[derive(Debug, Drop)]
pub enum RuleRefused {
    /// The first fault in the order of reading.
    Rule(RuleFault),
    /// There are so many rules, more than 2,000, unusable ones included.
    TooManyRules(u32),
    /// The tree failed.
    Failed,
    /// There was no memory.
    Memory,
}

impl From<NoMemory> for RuleRefused {
    ghost use Rattle.std.specs.Prelude.{◌≡◌};
    ghost use Rattle.pj_rules.specs.declared.fault.RuleRefused.TheVariants.{Memory};

    ghost from_gives = { λ _ refused. refused ≡ Memory };

    fn from(_: NoMemory) -> Self {
        RuleRefused::Memory
    }
}
