//! Where what a run leaves for the next one is kept.
ghost use Rattle.std.specs.Prelude.{◌≡◌, ℕ, Option, IfSome, IfOk, OnOk, OnErr};
ghost use Rattle.pj_outside.specs.Faults.{CountsFailed, CountsFaults};
ghost use Rattle.pj_outside.specs.Files.{Files, read_at, IsAtMost};
ghost use Rattle.pj_outside.specs.Keeping.{MayReplace, Replaces};

use crate::refused::{Failed, Reading, Refused};

/// A keeper of bytes under names.
pub trait Keeper {
    /// The names with their bytes, where the keeper tells them. One over a real folder tells nothing.
    ghost holds: { Self → Option Files };

    /// How many calls failed.
    ghost faults: { Self → ℕ };

    /// The bytes under a name, where they are at most `most`: `Absent` exactly where the keeper does not have the name,
    /// `Longer` exactly where its bytes are more. It leaves what is held.
    fn load(&mut self, name: &str, most: u64) -> Result<Reading, Refused>
        ensures same_names { holds self.new ≡ holds self.old }
        ensures counts_faults { CountsFaults (faults self.old) (faults self.new) result }
        ensures within { IfOk result (IsAtMost most) }
        ensures reading { IfSome (holds self.old) (λ held. IfOk result (λ reading. reading ≡ read_at held name.now most)) };

    /// Puts the bytes under the name, in the place of those that it had. After `Failed` the name has its old bytes or the
    /// new ones. All other names keep theirs. Want of memory is a fault too.
    fn replace(&mut self, name: &str, bytes: &[u8]) -> Result<(), Failed>
        ensures replaced { OnOk result (Replaces (holds self.old) (holds self.new) name.now bytes.now) }
        ensures failed { OnErr result (MayReplace (holds self.old) (holds self.new) name.now bytes.now) }
        ensures counts_faults { CountsFailed (faults self.old) (faults self.new) result };
}
