//! Why there are no sources.
ghost use Rattle.std.specs.Prelude.{◌≡◌};
ghost use Rattle.pj_sources.specs.declared.refused.ListRefused.TheVariants as unlisted;
ghost use Rattle.pj_sources.specs.declared.refused.ReadRefused.TheVariants as unread;

use crate::limits::SourceLimit;
use pj_base::{NoMemory, Text};

/// Why there is no list of sources.
#[derive(Debug, PartialEq, Eq, Drop)]
pub enum ListRefused {
    /// The tree failed. Its count of faults rose.
    Failed,
    /// There is no file at this item or below it; the item is as written.
    Missing(Text),
    /// Memory ran out.
    Memory,
}

/// Why the sources were not read.
#[derive(Debug, PartialEq, Eq, Drop)]
pub enum ReadRefused {
    /// The tree failed. Its count of faults rose.
    Failed,
    /// There is no file of this path.
    Missing(Text),
    /// There is too much of this.
    Limit(SourceLimit),
    /// Memory ran out.
    Memory,
}

impl From<NoMemory> for ListRefused {
    ghost from_gives = { λ _ e. e ≡ unlisted.Memory };

    fn from(_: NoMemory) -> Self {
        ListRefused::Memory
    }
}

impl From<NoMemory> for ReadRefused {
    ghost from_gives = { λ _ e. e ≡ unread.Memory };

    fn from(_: NoMemory) -> Self {
        ReadRefused::Memory
    }
}
