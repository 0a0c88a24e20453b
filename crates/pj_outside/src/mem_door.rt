//! A door to class files in memory.
ghost use Rattle.std.specs.Prelude.{◌≡◌, ◌≢◌, ◌↔◌, [], Some, IfOk, IsErrOf, map};
ghost use Rattle.std.specs.Option.{option_copied};
ghost use Rattle.pj_outside.specs.Faults.{CountsFaults, next_count};
ghost use Rattle.pj_outside.specs.Files.{IsAtMost};
ghost use Rattle.pj_outside.specs.Doors.{first_bytes, found_at};
ghost use Rattle.pj_outside.specs.InMemory.{new_plan, IsDue, PlanAfter};

use crate::class_path::ClassDoor;
use crate::fault_plan::FaultPlan;
use crate::files::{Files, class_file_path, find_bytes, read_bytes};
use crate::refused::{Reading, Refused};
use pj_base::{Bytes, Numbers};
use pj_names::ClassName;
use std::alloc::Global;
use std::marker::Model;
use std::sync::Arc;

/// A door to folders in memory, with the numbers of the finds that are to fail, counted from 1. A class path in memory
/// opens it.
#[derive(Drop)]
pub struct MemDoor {
    alloc: Global,
    folders: Vec<Arc<Files>>,
    plan: FaultPlan,
}

impl Model for MemDoor {
    ghost use Rattle.std.specs.Prelude.{map};
    ghost use Rattle.pj_outside.specs.InMemory.{DoorHeld};

    ghost Value = { DoorHeld };

    ghost view = { λ d. record { folders = map (λ files. files.value) d.folders.items; plan = d.plan } };
}

impl MemDoor {
    /// A door that was not used yet.
    pub(crate) fn new(alloc: Global, folders: Vec<Arc<Files>>, fail: Numbers) -> MemDoor
        ensures { result ≡ record { folders = map (λ files. files.value) folders.items; plan = new_plan fail } }
    {
        MemDoor {
            alloc,
            folders,
            plan: FaultPlan::new(fail),
        }
    }

    /// How many calls of `find` there were.
    pub fn finds(&self) -> u64
        ensures { result ≡ self.now.plan.calls }
    {
        self.plan.calls()
    }

    /// How many calls failed.
    pub fn faults(&self) -> u64
        ensures { result ≡ self.now.plan.faults }
    {
        self.plan.faults()
    }

    /// The bytes of the path in the first folder that has it.
    fn find_path(&self, path: &[u8]) -> Option<&Bytes>
        ensures { option_copied result ≡ first_bytes self.now.folders path.now }
    {
        for files in &self.folders {
            if let Some(bytes) = find_bytes(files, path) {
                return Some(bytes);
            }
        }
        None
    }
}

impl ClassDoor for MemDoor {
    ghost holds = { λ d. Some d.folders };

    ghost finds = { λ d. d.plan.calls };

    ghost faults = { λ d. d.plan.faults };

    ghost never_fails = { λ d. d.plan.fail ≡ [] };

    fn find(&mut self, name: &ClassName, most: u64) -> Result<Reading, Refused>
        ensures same_folders { self.new.folders ≡ self.old.folders }
        ensures counts_finds { self.new.plan.calls ≡ next_count self.old.plan.calls }
        ensures counts_faults { CountsFaults self.old.plan.faults self.new.plan.faults result }
        ensures steady { self.old.plan.fail ≡ [] → (self.new.plan.fail ≡ []) × (result ≢ Err Refused.Failed) }
        ensures within { IfOk result (IsAtMost most) }
        ensures reading { IfOk result (λ reading. reading ≡ found_at self.old.folders name.now most) }
        ensures fails { IsErrOf result Refused.Failed ↔ IsDue self.old.plan }
        ensures plan { PlanAfter self.old.plan self.new.plan result }
    {
        self.plan.next_call()?;
        let path = class_file_path(self.alloc, name.as_str().as_bytes())?;
        Ok(read_bytes(self.find_path(&path), most)?)
    }

    fn count_finds(&self) -> u64
        ensures { result ≡ self.now.plan.calls }
    {
        self.plan.calls()
    }
}
