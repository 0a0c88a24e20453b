//! Why a grammar is not well-formed.
use pj_base::NoMemory;

/// Why a grammar is not well-formed, with the number of the rule at fault, or that memory ran out.
#[derive(Clone, Copy, Debug, PartialEq, Eq)]
pub enum GrammarFault {
    /// The rule can come to itself at one place. What counts as able to take nothing on the way is said at `EmptyRepeat`.
    LeftRecursion(u16),
    /// The rule repeats an item that can take nothing. A look-ahead, a repetition and an optional part count as able to take
    /// nothing, also where they always fail.
    EmptyRepeat(u16),
    /// The rule names one that is not there.
    UnknownRule(u16),
    /// Memory ran out.
    Memory,
}

impl From<NoMemory> for GrammarFault {
    ghost use Rattle.std.specs.Prelude.{◌≡◌};
    ghost use Rattle.pj_peg_grammar.specs.declared.fault.GrammarFault.{GrammarFault};
    ghost use Rattle.pj_peg_grammar.specs.declared.fault.GrammarFault.TheVariants.{Memory};

    ghost from_gives = { λ _ e. e ≡ Memory };

    fn from(_: NoMemory) -> Self {
        GrammarFault::Memory
    }
}
