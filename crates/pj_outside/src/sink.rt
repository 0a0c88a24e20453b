//! Where reports go.
ghost use Rattle.std.specs.Prelude.{◌≡◌, ℕ, List, Option, OnOk, OnErr};
ghost use Rattle.pj_outside.specs.Faults.{CountsFailed};
ghost use Rattle.pj_outside.specs.Putting.{Gets, GetsPrefix};

use crate::refused::Failed;

/// What takes the bytes of a report.
pub trait Sink {
    /// The bytes put so far, where the sink tells them. One over a real stream tells nothing.
    ghost held: { Self → Option (List ℕ) };

    /// How many calls failed.
    ghost faults: { Self → ℕ };

    /// Puts the piece behind what was put before. After `Failed` the sink got a prefix of it. Want of memory is a
    /// fault too.
    fn put(&mut self, piece: &[u8]) -> Result<(), Failed>
        ensures got { OnOk result (Gets (held self.old) (held self.new) piece.now) }
        ensures cut { OnErr result (GetsPrefix (held self.old) (held self.new) piece.now) }
        ensures counts_faults { CountsFailed (faults self.old) (faults self.new) result };
}
