//! Who answers for the names of classes.
ghost use Rattle.std.specs.Prelude.{◌≡◌};
ghost use Rattle.pj_names.specs.declared.oracle.AskFault.TheVariants.{Memory};
ghost use Rattle.pj_names.specs.Asking.{ask};
ghost use Rattle.pj_names.specs.Told.{Told, Asks, seen, shared_answer};

use crate::answer::Answer;
use crate::class_name::ClassName;
use pj_base::NoMemory;
use std::alloc::{AllocError, AllocFailed};
use std::sync::Arc;

/// Why there is no answer.
#[derive(Clone, Copy, Debug, PartialEq, Eq)]
pub enum AskFault {
    /// Reading failed: the oracle's count of faults rose in this call, or stands at its type's end.
    Failed,
    /// There was no memory.
    Memory,
}

impl From<NoMemory> for AskFault {
    ghost from_gives = { λ _ fault. fault ≡ Memory };

    fn from(_: NoMemory) -> Self {
        AskFault::Memory
    }
}

impl From<AllocError> for AskFault {
    ghost from_gives = { λ _ fault. fault ≡ Memory };

    fn from(_: AllocError) -> Self {
        AskFault::Memory
    }
}

impl<T: Drop> From<AllocFailed<T>> for AskFault {
    ghost from_gives = { λ _ fault. fault ≡ Memory };

    fn from(_: AllocFailed<T>) -> Self {
        AskFault::Memory
    }
}

/// It answers for names of classes.
///
/// Its world never changes, and where it tells its world, an answer is the world's; see `docs/asking.md`.
pub trait Oracle {
    /// The type of what the oracle keeps in every call.
    ghost Kept: { Type 0 };

    /// What the oracle tells of itself: its world, where it tells that, what it keeps, the names that were asked, and its
    /// faults.
    ghost tells: { Self → Told Kept };

    /// The answer for a name. Where the world is told it is the world's, and to the names asked come just the name's
    /// needs. `Failed` comes only where the count of faults rose.
    fn ask(&mut self, name: &ClassName) -> Result<Arc<Answer>, AskFault>
        ensures { Asks (ask name.now) (tells self.old) (tells self.new) (seen shared_answer result) };
}
