//! Answers of the outside.
ghost use Rattle.std.specs.Prelude.{◌≡◌};
ghost use Rattle.pj_outside.specs.declared.refused.Refused.TheVariants as refused;

use pj_base::{Bytes, NoMemory};
use std::alloc::{AllocError, AllocFailed};

/// An object of the outside failed. Its count of faults rose.
#[derive(Clone, Copy, Debug, PartialEq, Eq)]
pub struct Failed;

/// Why a call on the outside gave no answer.
#[derive(Clone, Copy, Debug, PartialEq, Eq)]
pub enum Refused {
    /// The object failed. Its count of faults rose.
    Failed,
    /// Memory ran out.
    Memory,
}

impl From<Failed> for Refused {
    ghost from_gives = { λ _ e. e ≡ refused.Failed };

    fn from(_: Failed) -> Self {
        Refused::Failed
    }
}

impl From<NoMemory> for Refused {
    ghost from_gives = { λ _ e. e ≡ refused.Memory };

    fn from(_: NoMemory) -> Self {
        Refused::Memory
    }
}

impl From<AllocError> for Refused {
    ghost from_gives = { λ _ e. e ≡ refused.Memory };

    fn from(_: AllocError) -> Self {
        Refused::Memory
    }
}

impl<T: Drop> From<AllocFailed<T>> for Refused {
    ghost from_gives = { λ _ e. e ≡ refused.Memory };

    fn from(_: AllocFailed<T>) -> Self {
        Refused::Memory
    }
}

/// What reading a file gives.
#[derive(Debug, Drop)]
pub enum Reading {
    /// There is no such file.
    Absent,
    /// It has more bytes than were asked for.
    Longer,
    /// All its bytes.
    Whole(Bytes),
}
