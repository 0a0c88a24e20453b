//! What finds class files.
ghost use Rattle.std.specs.Prelude.{◌≡◌, ℕ, IfOk, IfSome, List, Option};
ghost use Rattle.pj_outside.specs.Doors.{found_at};
ghost use Rattle.pj_outside.specs.Faults.{CountsFaults, next_count};
ghost use Rattle.pj_outside.specs.Files.{Files, IsAtMost};

use pj_names::ClassName;
use pj_outside::{ClassDoor, Reading, Refused};

/// What finds class files in folders: every door does. It need not be one that goes to another thread, so that an oracle, whose
/// trait says nothing of threads, can lend it to the table.
pub trait ClassFinder {
    /// The files of its folders, in the order of the folders, where it tells them.
    ghost holds: { Self → Option (List Files) };

    /// How many finds there were.
    ghost finds: { Self → ℕ };

    /// How many finds failed.
    ghost faults: { Self → ℕ };

    /// The bytes of a class's file in the first folder that has it, as `find` of a door gives them.
    fn find_class_file(&mut self, name: &ClassName, most: u64) -> Result<Reading, Refused>
        ensures same_folders { holds self.new ≡ holds self.old }
        ensures counts_finds { finds self.new ≡ next_count (finds self.old) }
        ensures counts_faults { CountsFaults (faults self.old) (faults self.new) result }
        ensures within { IfOk result (IsAtMost most) }
        ensures reading { IfSome (holds self.old) (λ folders. IfOk result (λ reading. reading ≡ found_at folders name.now most)) };

    /// How many finds there were. The count stands still at the greatest number of 64 bits.
    fn count_found(&self) -> u64
        ensures { result ≡ finds self.now };
}

impl<D: ClassDoor> ClassFinder for D {
    ghost holds = { D.holds };

    ghost finds = { D.finds };

    ghost faults = { D.faults };

    fn find_class_file(&mut self, name: &ClassName, most: u64) -> Result<Reading, Refused> {
        self.find(name, most)
    }

    fn count_found(&self) -> u64 {
        self.count_finds()
    }
}
