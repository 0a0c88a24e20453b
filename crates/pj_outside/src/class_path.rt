//! Class files, by doors that workers open.
ghost use Rattle.std.specs.Prelude.{◌≡◌, ◌≢◌, ℕ, List, Option, IfSome, IfOk, OnOk, OnErr};
ghost use Rattle.std.specs.Option.{option_map};
ghost use Rattle.pj_outside.specs.Faults.{CountsFaults, next_count};
ghost use Rattle.pj_outside.specs.Files.{Files, IsAtMost};
ghost use Rattle.pj_outside.specs.Doors.{ClassFolders, TakesFaults, opened, found_at, count_and};

use crate::refused::{Reading, Refused};
use pj_base::Names;
use pj_names::ClassName;

/// A door to the class files of some folders, which one worker uses.
pub trait ClassDoor: Send {
    /// The files of its folders, in the order of the folders, where the door tells them. A door to real folders tells
    /// nothing.
    ghost holds: { Self → Option (List Files) };

    /// How many calls of `find` there were.
    ghost finds: { Self → ℕ };

    /// How many calls failed.
    ghost faults: { Self → ℕ };

    /// No call fails, as of a door in memory without calls that are to fail.
    ghost never_fails: { Self → Type 0 };

    /// The bytes of a class's file, `a/b/C.class` for `a.b.C`, in the first folder that has it, where they are at most
    /// `most`: `Absent` exactly where no folder has it, `Longer` exactly where the bytes there are more. The count of
    /// finds rises, also where the call fails.
    fn find(&mut self, name: &ClassName, most: u64) -> Result<Reading, Refused>
        ensures same_folders { holds self.new ≡ holds self.old }
        ensures counts_finds { finds self.new ≡ next_count (finds self.old) }
        ensures counts_faults { CountsFaults (faults self.old) (faults self.new) result }
        ensures steady { never_fails self.old → never_fails self.new × (result ≢ Err Refused.Failed) }
        ensures within { IfOk result (IsAtMost most) }
        ensures reading { IfSome (holds self.old) (λ folders. IfOk result (λ reading. reading ≡ found_at folders name.now most)) };

    /// How many calls of `find` there were. The count stands still at the greatest number of 64 bits.
    fn count_finds(&self) -> u64
        ensures { result ≡ finds self.now };
}

/// A class path: folders by name, and fixed folders, which both calls leave as they are.
pub trait ClassPath {
    /// Its doors.
    type Door: ClassDoor;

    /// The folders, where the class path tells them. One over real folders tells nothing.
    ghost holds: { Self → Option ClassFolders };

    /// How many doors `open` gave.
    ghost given: { Self → ℕ };

    /// How many doors `shut` took.
    ghost taken: { Self → ℕ };

    /// How many finds the doors had that `shut` took.
    ghost finds: { Self → ℕ };

    /// How many calls of `open` failed and how many doors with faults `shut` took.
    ghost faults: { Self → ℕ };

    /// No call of `open` fails, and no call of a door that it gives.
    ghost never_fails: { Self → Type 0 };

    /// A door to the folders of these names, in their order, and behind them the fixed ones. A folder that is not there
    /// is empty. The door tells its files exactly where the class path tells them.
    fn open(&mut self, folders: &Names) -> Result<Self::Door, Refused>
        ensures same_folders { holds self.new ≡ holds self.old }
        ensures same_taken { taken self.new ≡ taken self.old }
        ensures same_finds { finds self.new ≡ finds self.old }
        ensures counts_given { OnOk result (given self.new ≡ next_count (given self.old)) }
        ensures same_given { OnErr result (given self.new ≡ given self.old) }
        ensures counts_faults { CountsFaults (faults self.old) (faults self.new) result }
        ensures steady { never_fails self.old → never_fails self.new × (result ≢ Err Refused.Failed) }
        ensures steady_door { never_fails self.old → IfOk result (λ door. Self.Door.never_fails door) }
        ensures no_finds { IfOk result (λ door. Self.Door.finds door ≡ 0) }
        ensures no_faults { IfOk result (λ door. Self.Door.faults door ≡ 0) }
        ensures door { IfOk result (λ door. Self.Door.holds door ≡ option_map (λ held. opened held folders.now) (holds self.old)) };

    /// Takes a door back, and adds its finds. The count of faults rises exactly where the door has faults.
    fn shut(&mut self, door: Self::Door)
        ensures same_folders { holds self.new ≡ holds self.old }
        ensures same_given { given self.new ≡ given self.old }
        ensures counts_taken { taken self.new ≡ next_count (taken self.old) }
        ensures counts_finds { finds self.new ≡ count_and (finds self.old) (Self.Door.finds door) }
        ensures counts_faults { TakesFaults (faults self.old) (faults self.new) (Self.Door.faults door) }
        ensures steady { never_fails self.old → never_fails self.new };
}
