//! Why an element makes no texts of a rule.

use pj_base::NoMemory;

/// Why an element makes no texts of a rule.
#[derive(Clone, Copy, Debug, PartialEq, Eq)]
pub enum TextFault {
    /// A priority is none of the digits 1 to 5.
    BadPriority,
    /// A property has no name, value or type, a type that is none, or a value outside its type, or a reference writes one that the
    /// rule does not declare.
    BadProperty,
    /// There is no property `xpath`.
    NoXPath,
    /// There was no memory.
    Memory,
}

impl From<NoMemory> for TextFault {
    ghost use Rattle.std.specs.Prelude.{◌≡◌};
    ghost use Rattle.pj_rule_texts.specs.declared.fault.TextFault.TheVariants.{Memory};

    ghost from_gives = { λ _ fault. fault ≡ Memory };

    fn from(_: NoMemory) -> Self {
        TextFault::Memory
    }
}
