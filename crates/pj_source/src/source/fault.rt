//! Why there is no source text.

use pj_base::NoMemory;
use pj_tree::Place;

/// Why a file has no source text.
#[derive(Clone, Copy, Debug, PartialEq, Eq)]
pub enum SourceFault {
    /// The file is not UTF-8: how many bytes the longest front of it has that is, which is the offset, from 0, of the first
    /// byte of the first sequence that spells no character or is cut off.
    NotUtf8(u32),
    /// The place in the file of the first backslash that, with the `u` behind it, ought to begin a Unicode escape and does
    /// not (JLS 3.3).
    Escape(Place),
    /// Want of memory.
    Memory,
}

impl From<NoMemory> for SourceFault {
    ghost use Rattle.std.specs.Prelude.{◌≡◌};
    ghost use Rattle.pj_source.specs.declared.source.fault.SourceFault.TheVariants.{Memory};

    ghost from_gives = { λ _ fault. fault ≡ Memory };

    fn from(_: NoMemory) -> Self {
        SourceFault::Memory
    }
}
