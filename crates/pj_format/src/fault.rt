//! Why bytes are not of a format.
ghost use Rattle.std.specs.Prelude.{◌≡◌};
ghost use Rattle.pj_format.specs.declared.fault.Refused.TheVariants.{Memory};

use std::alloc::{AllocError, AllocFailed};

/// The kind of the fault that the bytes end.
pub const BYTES_END: u8 = 1;

/// What is wrong with bytes, and where.
#[derive(Clone, Copy, Debug, PartialEq, Eq)]
pub struct Fault {
    /// The kind, as the format numbers them; 1 is that the bytes end.
    pub kind: u8,
    /// The byte where it stands, counted from 0.
    pub offset: u32,
}

/// Why a reader gave no value.
#[derive(Clone, Copy, Debug, PartialEq, Eq)]
pub enum Refused {
    /// The bytes have a fault.
    Fault(Fault),
    /// Memory ran out.
    Memory,
}

impl From<AllocError> for Refused {
    ghost from_gives = { λ _ e. e ≡ Memory };

    fn from(_: AllocError) -> Refused {
        Refused::Memory
    }
}

impl<T: Drop> From<AllocFailed<T>> for Refused {
    ghost from_gives = { λ _ e. e ≡ Memory };

    fn from(_: AllocFailed<T>) -> Refused {
        Refused::Memory
    }
}
