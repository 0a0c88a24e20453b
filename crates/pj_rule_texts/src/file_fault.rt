//! Why a file is no ruleset.

use pj_base::NoMemory;
use pj_outside::Refused;

/// Why a file is no ruleset.
#[derive(Clone, Copy, Debug, PartialEq, Eq)]
pub enum FileFault {
    /// Its bytes are not UTF-8, its text is no markup or nests too deep, or its root is no `ruleset`: the offset in bytes.
    Markup(u32),
    /// It has more than 1,048,576 bytes.
    TooLong,
}

/// Why a file is not read.
#[derive(Clone, Copy, Debug, PartialEq, Eq)]
pub enum FileRefused {
    /// It is no ruleset.
    Fault(FileFault),
    /// The tree failed.
    Failed,
    /// There was no memory.
    Memory,
}

/// Why a text is not taken.
#[derive(Clone, Copy)]
pub enum Unread {
    /// It is no ruleset.
    Fault(FileFault),
    /// There was no memory.
    Memory,
}

impl From<NoMemory> for Unread {
    ghost use Rattle.std.specs.Prelude.{◌≡◌};
    ghost use Rattle.pj_rule_texts.specs.declared.file_fault.Unread.TheVariants.{Memory};

    ghost from_gives = { λ _ fault. fault ≡ Memory };

    fn from(_: NoMemory) -> Self {
        Unread::Memory
    }
}

impl From<Refused> for FileRefused {
    ghost use Rattle.pj_rule_texts.specs.Refusals.{OfTree};

    ghost from_gives = { OfTree };

    fn from(refused: Refused) -> Self {
        match refused {
            Refused::Failed => FileRefused::Failed,
            Refused::Memory => FileRefused::Memory,
        }
    }
}
