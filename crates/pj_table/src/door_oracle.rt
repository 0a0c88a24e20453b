//! An oracle over one door.
ghost use Rattle.std.specs.Prelude.{◌≡◌};
ghost use Rattle.std.specs.FinSet as set;
ghost use Rattle.pj_outside.specs.Doors.{count_and};
ghost use Rattle.pj_table.specs.Held.{AreHeldAnswers, all_held_prop};
ghost use Rattle.pj_table.specs.Telling.{OverDoor, tells_of};

use crate::reading::{CLASS_BYTES, shared_answer_of};
use pj_base::Copied;
use pj_names::{Answer, AskFault, ClassName, ClassNameSet, Oracle};
use pj_outside::{ClassDoor, Refused};
use std::alloc::Global;
use std::collections::BTreeMap;
use std::sync::Arc;

/// An oracle over one door, for one thread: it asks its door once a name, and holds the answer.
///
/// The door has one find more for each name that was asked. A name whose find gave no answer, since the door failed or
/// memory ran out, is not found again: each later ask of it wants memory.
#[derive(Drop)]
pub struct DoorOracle<'a, D: ClassDoor> {
    alloc: Global,
    /// The door.
    pub door: &'a mut D,
    asked: ClassNameSet,
    answers: BTreeMap<ClassName, Arc<Answer>>,
    finds: u64,
    ghost held: { AreHeldAnswers (D.holds door.now) asked answers.entries } by { all_held_prop (D.holds door.now) asked answers.entries },
    ghost counted: { D.finds door.now ≡ count_and finds (set.len asked) },
}

impl<'a, D: ClassDoor> DoorOracle<'a, D> {
    /// The oracle over a door, of which nothing was asked. It takes no memory.
    pub fn new(alloc: Global, door: &'a mut D) -> DoorOracle<'a, D>
        ensures tells { ⟦<DoorOracle<'a, D> as Oracle>⟧.tells result ≡ tells_of (record { reference = door.entry.ghost_name; finds = D.finds door.old }) (D.holds door.old) set.empty (D.faults door.old) }
        ensures door { result.door.now ≡ door.old }
    {
        let finds = door.count_finds();
        DoorOracle {
            alloc,
            door,
            asked: ClassNameSet::new(alloc),
            answers: BTreeMap::new(alloc),
            finds,
        }
    }

    /// The names that were asked. The door has had one find for each of them.
    pub fn asked(&self) -> &ClassNameSet
        ensures asked { result.now ≡ (⟦<DoorOracle<'a, D> as Oracle>⟧.tells self.now).asked }
        ensures finds { D.finds self.now.door.now ≡ count_and (⟦<DoorOracle<'a, D> as Oracle>⟧.tells self.now).kept.finds (set.len result.now) }
    {
        &self.asked
    }
}

impl<'a, D: ClassDoor> Oracle for DoorOracle<'a, D> {
    ghost Kept = { OverDoor };

    ghost tells = { λ oracle. tells_of (record { reference = oracle.door.ghost_name; finds = oracle.finds }) (D.holds oracle.door.now) oracle.asked (D.faults oracle.door.now) };

    fn ask(&mut self, name: &ClassName) -> Result<Arc<Answer>, AskFault> {
        if let Some(answer) = self.answers.get(name) {
            return Ok(answer.clone()?);
        }
        if self.asked.contains(name) {
            return Err(AskFault::Memory);
        }
        let key = name.copied()?;
        self.asked.insert(name.copied()?)?;
        let reading = match self.door.find(name, CLASS_BYTES) {
            Ok(reading) => reading,
            Err(Refused::Failed) => return Err(AskFault::Failed),
            Err(Refused::Memory) => return Err(AskFault::Memory),
        };
        let answer = shared_answer_of(self.alloc, name, &reading)?;
        self.answers.insert(key, answer.clone()?)?;
        Ok(answer)
    }
}
