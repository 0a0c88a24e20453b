//! What is wrong with words.
use pj_base::{NoMemory, Text};
use std::alloc::AllocError;

/// What is wrong with the words of a run.
#[derive(Debug, PartialEq, Eq, Drop)]
pub enum UsageFault {
    /// The first word is missing, or it is no command.
    Command,
    /// The other words are no line of options.
    Line,
    /// The option of this long name, as `--dir`, has this value, which is none of its own.
    Value(Text, Text),
}

/// Why words have no settings.
#[derive(Debug, PartialEq, Eq, Drop)]
pub enum UsageRefused {
    /// There is something wrong with them.
    Fault(UsageFault),
    /// Memory ran out.
    Memory,
}

impl From<AllocError> for UsageRefused {
    ghost use Rattle.std.specs.Prelude.{◌≡◌};
    ghost use Rattle.pj_settings.specs.declared.usage.UsageRefused.TheVariants as refused;

    ghost from_gives = { λ _ e. e ≡ refused.Memory };

    fn from(_: AllocError) -> UsageRefused {
        UsageRefused::Memory
    }
}

impl From<NoMemory> for UsageRefused {
    ghost use Rattle.std.specs.Prelude.{◌≡◌};
    ghost use Rattle.pj_settings.specs.declared.usage.UsageRefused.TheVariants as refused;

    ghost from_gives = { λ _ e. e ≡ refused.Memory };

    fn from(_: NoMemory) -> UsageRefused {
        UsageRefused::Memory
    }
}
