//! A class path in memory.
ghost use Rattle.std.specs.Prelude.{◌≡◌, ◌≢◌, ◌↔◌, ◌++◌, ◌∷◌, ◌==◌, [], Some, IfOk, IsErrOf, OnOk, OnErr, length, map};
ghost use Rattle.std.specs.Option.{option_copied};
ghost use Rattle.pj_outside.specs.Faults.{CountsFaults, next_count};
ghost use Rattle.pj_outside.specs.Doors.{TakesFaults, files_of, count_and, fails_at};
ghost use Rattle.pj_outside.specs.InMemory.{new_plan, IsDue, PlanAfter};

use crate::class_path::ClassPath;
use crate::fault_plan::FaultPlan;
use crate::files::Files;
use crate::mem_door::MemDoor;
use crate::refused::Refused;
use pj_base::{Copied, ListOf, Names, NoMemory, Numbers, Text};
use std::alloc::Global;
use std::marker::Model;
use std::sync::Arc;

/// Pairs of numbers.
pub type Pairs = ListOf<(u32, u32)>;

/// Pairs of a folder's name and its files, which contracts see as the list of these pairs. The first pair of a name
/// counts. Doors share the files.
#[derive(Drop)]
pub struct Folders {
    alloc: Global,
    pairs: Vec<(Text, Arc<Files>)>,
}

impl Model for Folders {
    ghost use Rattle.std.specs.Prelude.{map};
    ghost use Rattle.pj_outside.specs.Doors as doors;

    ghost Value = { doors.Folders };

    ghost view = { λ f. map (λ pair. (pair.0, pair.1.value)) f.pairs.items };
}

impl Folders {
    /// No folders, which takes no memory.
    pub fn new(alloc: Global) -> Folders
        ensures { result ≡ [] }
    {
        Folders {
            alloc,
            pairs: Vec::new(alloc),
        }
    }

    /// Puts a folder at the end.
    pub fn push(&mut self, name: Text, files: Files) -> Result<(), NoMemory>
        ensures ok { OnOk result (self.new ≡ self.old ++ (name, files) ∷ []) }
        ensures err { OnErr result (self.new ≡ self.old) }
    {
        let shared = Arc::new(self.alloc, files)?;
        self.pairs.push((name, shared))?;
        Ok(())
    }

    /// The number of folders.
    pub fn len(&self) -> usize
        ensures { result ≡ length self.now }
    {
        self.pairs.len()
    }

    /// Whether there are no folders.
    pub fn is_empty(&self) -> bool
        ensures { result ≡ (length self.now == 0) }
    {
        self.pairs.is_empty()
    }

    /// The folders with their files, borrowed.
    pub fn as_slice(&self) -> &[(Text, Arc<Files>)]
        ensures { map (λ pair. (pair.0, pair.1.value)) result.now ≡ self.now }
    {
        self.pairs.as_slice()
    }

    /// The files of the first folder of the name, shared; no files where there is no such folder.
    fn files_of(&self, name: &str) -> Result<Arc<Files>, NoMemory>
        ensures { IfOk result (λ files. files.value ≡ files_of self.now name.now) }
    {
        for (folder, files) in &self.pairs {
            if folder.as_str() == name {
                return Ok(files.clone()?);
            }
        }
        Ok(Arc::new(self.alloc, Files::new(self.alloc))?)
    }
}

impl Copied for Folders {
    fn copied(&self) -> Result<Folders, NoMemory> {
        let mut pairs = Vec::new(self.alloc);
        for (name, files) in &self.pairs {
            pairs.push((name.copied()?, files.clone()?))?;
        }
        Ok(Folders {
            alloc: self.alloc,
            pairs,
        })
    }
}

/// A class path over folders in memory, without fixed folders. It has the numbers of the calls of `open` that are to
/// fail, counted from 1, and pairs of a door, counted from 0, and a find at that door that is to fail, counted from 1.
#[derive(Drop)]
pub struct MemClassPath {
    alloc: Global,
    folders: Folders,
    plan: FaultPlan,
    door_fail: Pairs,
    given: u64,
    taken: u64,
    finds: u64,
}

impl Model for MemClassPath {
    ghost use Rattle.pj_outside.specs.InMemory.{ClassPathHeld};

    ghost Value = { ClassPathHeld };

    ghost view = { λ c. record { folders = c.folders; plan = c.plan; door_fail = c.door_fail; given = c.given; taken = c.taken; finds = c.finds } };
}

impl MemClassPath {
    /// A class path of these folders, which takes no memory.
    pub fn new(alloc: Global, folders: Folders, fail: Numbers, door_fail: Pairs) -> MemClassPath
        ensures { result ≡ record { folders = folders; plan = new_plan fail; door_fail = door_fail; given = 0; taken = 0; finds = 0 } }
    {
        MemClassPath {
            alloc,
            folders,
            plan: FaultPlan::new(fail),
            door_fail,
            given: 0,
            taken: 0,
            finds: 0,
        }
    }

    /// How many finds the doors had that `shut` took.
    pub fn finds(&self) -> u64
        ensures { result ≡ self.now.finds }
    {
        self.finds
    }

    /// The folders of a door for these names.
    fn door_folders(&self, names: &Names) -> Result<Vec<Arc<Files>>, NoMemory>
        ensures { IfOk result (λ folders. map (λ files. files.value) folders.items ≡ map (files_of self.now.folders) names.now) }
    {
        let mut folders = Vec::new(self.alloc);
        for name in names.as_slice() {
            folders.push(self.folders.files_of(name.as_str())?)?;
        }
        Ok(folders)
    }

    /// The finds that are to fail at the next door.
    fn door_fails(&self) -> Result<Numbers, NoMemory>
        ensures { IfOk result (λ numbers. numbers ≡ fails_at self.now.given self.now.door_fail) }
    {
        let mut numbers = Numbers::new(self.alloc);
        for (door, find) in self.door_fail.as_slice() {
            if u64::from(*door) == self.given {
                numbers.push(*find)?;
            }
        }
        Ok(numbers)
    }
}

impl ClassPath for MemClassPath {
    type Door = MemDoor;

    ghost holds = { λ c. Some (record { named = c.folders; fixed = [] }) };

    ghost given = { λ c. c.given };

    ghost taken = { λ c. c.taken };

    ghost finds = { λ c. c.finds };

    ghost faults = { λ c. c.plan.faults };

    ghost never_fails = { λ c. (c.plan.fail ≡ []) × (c.door_fail ≡ []) };

    fn open(&mut self, folders: &Names) -> Result<MemDoor, Refused>
        ensures same_folders { self.new.folders ≡ self.old.folders }
        ensures same_door_fail { self.new.door_fail ≡ self.old.door_fail }
        ensures same_taken { self.new.taken ≡ self.old.taken }
        ensures same_finds { self.new.finds ≡ self.old.finds }
        ensures counts_given { OnOk result (self.new.given ≡ next_count self.old.given) }
        ensures same_given { OnErr result (self.new.given ≡ self.old.given) }
        ensures counts_faults { CountsFaults self.old.plan.faults self.new.plan.faults result }
        ensures door { IfOk result (λ door. door ≡ record { folders = map (files_of self.old.folders) folders.now; plan = new_plan (fails_at self.old.given self.old.door_fail) }) }
        ensures fails { IsErrOf result Refused.Failed ↔ IsDue self.old.plan }
        ensures plan { PlanAfter self.old.plan self.new.plan result }
    {
        self.plan.next_call()?;
        let opened = self.door_folders(folders)?;
        let fail = self.door_fails()?;
        self.given = self.given.saturating_add(1);
        Ok(MemDoor::new(self.alloc, opened, fail))
    }

    fn shut(&mut self, door: MemDoor)
        ensures same_folders { self.new.folders ≡ self.old.folders }
        ensures same_door_fail { self.new.door_fail ≡ self.old.door_fail }
        ensures same_given { self.new.given ≡ self.old.given }
        ensures counts_taken { self.new.taken ≡ next_count self.old.taken }
        ensures counts_finds { self.new.finds ≡ count_and self.old.finds door.plan.calls }
        ensures counts_faults { TakesFaults self.old.plan.faults self.new.plan.faults door.plan.faults }
        ensures same_calls { self.new.plan.calls ≡ self.old.plan.calls }
        ensures same_fail { self.new.plan.fail ≡ self.old.plan.fail }
    {
        self.taken = self.taken.saturating_add(1);
        self.finds = self.finds.saturating_add(door.finds());
        if door.faults() > 0 {
            self.plan.fault();
        }
    }
}
