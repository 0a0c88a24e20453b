//! Why the texts of a rule make no rule that can be used.

use pj_base::NoMemory;
use pj_xparse::XSyntax;
use pj_xpatterns::PatternFault;

/// Why the texts of a rule make no rule that can be used.
#[derive(Debug, Drop)]
pub enum ExpressionFault {
    /// The query, or else the expression that suppresses findings, is none.
    XPath(XSyntax),
    /// A pattern is none of `regex`'s grammar or nests past its depth.
    Pattern,
    /// There was no memory.
    Memory,
}

impl From<NoMemory> for ExpressionFault {
    ghost use Rattle.std.specs.Prelude.{◌≡◌};
    ghost use Rattle.pj_rule_sets.specs.declared.fault.ExpressionFault.TheVariants.{Memory};

    ghost from_gives = { λ _ fault. fault ≡ Memory };

    fn from(_: NoMemory) -> Self {
        ExpressionFault::Memory
    }
}

impl From<PatternFault> for ExpressionFault {
    ghost use Rattle.pj_rule_sets.specs.Refusals.{OfPattern};

    ghost from_gives = { OfPattern };

    fn from(fault: PatternFault) -> Self {
        match fault {
            PatternFault::Refused(_) => ExpressionFault::Pattern,
            PatternFault::Memory => ExpressionFault::Memory,
        }
    }
}

impl From<XSyntax> for ExpressionFault {
    ghost use Rattle.pj_rule_sets.specs.Refusals.{OfSyntax};

    ghost from_gives = { OfSyntax };

    fn from(fault: XSyntax) -> Self {
        match fault {
            XSyntax::Memory => ExpressionFault::Memory,
            fault => ExpressionFault::XPath(fault),
        }
    }
}
