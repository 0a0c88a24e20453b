//! Source files.
ghost use Rattle.std.specs.Prelude.{◌≡◌, ◌≢◌, ℕ, Option, IfSome, IfOk};
ghost use Rattle.pj_outside.specs.Faults.{CountsFaults};
ghost use Rattle.pj_outside.specs.Files.{Files, listed_at, read_at, HasPath, AreAtOrBelow, IsAtMost};

use crate::refused::{Reading, Refused};
use pj_base::Names;

/// A tree of source files, which both calls leave as it is.
pub trait Tree {
    /// The files, where the tree tells them. A tree over real files tells nothing.
    ghost holds: { Self → Option Files };

    /// How many calls failed.
    ghost faults: { Self → ℕ };

    /// No call fails, as of a tree in memory without calls that are to fail.
    ghost never_fails: { Self → Type 0 };

    /// The paths that equal `at` or begin with `at` and `/`; `None` exactly where there is none.
    fn list(&mut self, at: &str) -> Result<Option<Names>, Refused>
        ensures same_files { holds self.new ≡ holds self.old }
        ensures counts_faults { CountsFaults (faults self.old) (faults self.new) result }
        ensures steady { never_fails self.old → never_fails self.new × (result ≢ Err Refused.Failed) }
        ensures some { IfOk result HasPath }
        ensures at_or_below { IfOk result (AreAtOrBelow at.now) }
        ensures listed { IfSome (holds self.old) (λ files. IfOk result (λ paths. paths ≡ listed_at files at.now)) };

    /// The bytes of a file, where they are at most `most`: `Absent` exactly where no file has the path, `Longer`
    /// exactly where its bytes are more.
    fn read(&mut self, path: &str, most: u64) -> Result<Reading, Refused>
        ensures same_files { holds self.new ≡ holds self.old }
        ensures counts_faults { CountsFaults (faults self.old) (faults self.new) result }
        ensures steady { never_fails self.old → never_fails self.new × (result ≢ Err Refused.Failed) }
        ensures within { IfOk result (IsAtMost most) }
        ensures reading { IfSome (holds self.old) (λ files. IfOk result (λ reading. reading ≡ read_at files path.now most)) };
}
