//! What a slot of the table holds.
ghost use Rattle.std.specs.Prelude.{◌≡◌, ◌≢◌, ℕ, ◌+◌, ◌<◌, ◌^◌, ◌==◌, [], List, Bool, true, false, cond, length, IfSome, IfNone, IfOk, IfErr, vec_len, vec_capacity};
ghost use mathlib.Core.Option.{some};
ghost use lib.ListN.{get_elem?};
ghost use Rattle.std.specs.Arc.{arc_value};
ghost use Rattle.pj_table.specs.Worlds.{CountsFaults, CountsFind, IsAnswer};
ghost use Rattle.pj_table.specs.Answered.{HasAnswer};
ghost use Rattle.pj_table.specs.Book.{IsSound, Grows, asked, Lacks, Stands};
ghost use Rattle.pj_table.specs.Index.{IsIndex};
ghost use Rattle.pj_table.specs.declared.view.Entry.{Entry};

use crate::class_finder::ClassFinder;
use crate::reading::read_answer;
use crate::view::{Entry, Look};
use pj_base::Copied;
use pj_names::{Answer, AskFault, ClassName};
use std::alloc::Global;
use std::collections::BTreeMap;
use std::sync::Arc;

/// A part: the names in the order of their fills, with their answers, and the history of looks.
#[derive(Drop)]
pub struct Part {
    /// The names that were filled, in the order of their fills.
    pub entries: Vec<Entry>,
    /// The looks, in their order.
    pub looks: Vec<Look>,
    /// The place of each name among the entries.
    places: BTreeMap<ClassName, usize>,
    ghost indexed: { IsIndex entries.items places.entries },
}

impl Part {
    /// A part without names. It takes no memory.
    pub(crate) fn new(alloc: Global) -> Part
        ensures { (result.entries.items ≡ []) × (result.looks.items ≡ []) }
    {
        Part {
            entries: Vec::new(alloc),
            looks: Vec::new(alloc),
            places: BTreeMap::new(alloc),
        }
    }

    /// The place of a name.
    fn place_of(&self, name: &ClassName) -> Option<usize>
        ensures some { IfSome result (λ k. Stands self.now.entries.items k name.now) }
        ensures none { IfNone result (Lacks self.now.entries.items name.now) }
    {
        match self.places.get(name) {
            Some(place) => Some(*place),
            None => None,
        }
    }

    /// The answer of a name, where it was filled. It takes no memory.
    pub fn answer_of(&self, name: &ClassName) -> Option<&Arc<Answer, Global>>
        ensures some { IfSome result (λ answer. HasAnswer self.now.entries.items name.now answer.now) }
        ensures none { IfNone result (Lacks self.now.entries.items name.now) }
    {
        match self.place_of(name) {
            Some(at) => Some(&self.entries[at].answer),
            None => None,
        }
    }

    /// One look: at the place of the name, or at a new one with the door's answer.
    pub(crate) fn look_up<D: ClassFinder>(
        &mut self,
        alloc: Global,
        door: &mut D,
        seat: u32,
        name: &ClassName,
    ) -> Result<Arc<Answer, Global>, AskFault>
        requires { IsSound (D.holds door.old) self.old.entries.items self.old.looks.items }
        ensures same_folders { D.holds door.new ≡ D.holds door.old }
        ensures ok { IfOk result (λ r. IsAnswer (D.holds door.old) name.now (arc_value r)
            × ((place : ℕ) × (fill : Bool) × (CountsFind (D.finds door.old) (D.finds door.new) fill)
            × ((part : ℕ) → Grows (D.holds door.old) seat self.old.entries.items self.old.looks.items (asked part place fill name.now) self.new.entries.items self.new.looks.items))
            × (length self.new.looks.items < 2 ^ 64)) }
        ensures err { IfErr result (λ _. (self.new.entries.items ≡ self.old.entries.items) × (self.new.looks.items ≡ self.old.looks.items)) }
        ensures faults { CountsFaults (D.faults door.old) (D.faults door.new) result }
    {
        if self.looks.reserve(1).is_err() {
            return Err(AskFault::Memory);
        }
        match self.place_of(name) {
            Some(at) => {
                let Ok(answer) = Arc::try_clone(&self.entries[at].answer) else {
                    return Err(AskFault::Memory);
                };
                self.looks.push_reserved(Look {
                    seat,
                    place: at as u64,
                    fill: false,
                });
                Ok(answer)
            }
            None => self.fill(alloc, door, seat, name),
        }
    }

    /// A look that fills: the name gets the next place, with the answer of the door.
    fn fill<D: ClassFinder>(
        &mut self,
        alloc: Global,
        door: &mut D,
        seat: u32,
        name: &ClassName,
    ) -> Result<Arc<Answer, Global>, AskFault>
        requires good { IsSound (D.holds door.old) self.old.entries.items self.old.looks.items }
        requires absent { Lacks self.old.entries.items name.now }
        requires room { vec_len self.old.looks < vec_capacity self.old.looks }
        ensures same_folders { D.holds door.new ≡ D.holds door.old }
        ensures ok { IfOk result (λ r. IsAnswer (D.holds door.old) name.now (arc_value r)
            × ((CountsFind (D.finds door.old) (D.finds door.new) true)
            × ((part : ℕ) → Grows (D.holds door.old) seat self.old.entries.items self.old.looks.items (asked part (length self.old.entries.items) true name.now) self.new.entries.items self.new.looks.items))
            × (length self.new.looks.items < 2 ^ 64)) }
        ensures err { IfErr result (λ _. (self.new.entries.items ≡ self.old.entries.items) × (self.new.looks.items ≡ self.old.looks.items)) }
        ensures faults { CountsFaults (D.faults door.old) (D.faults door.new) result }
    {
        if self.entries.reserve(1).is_err() {
            return Err(AskFault::Memory);
        }
        let Ok(copy) = name.copied() else {
            return Err(AskFault::Memory);
        };
        let Ok(key) = name.copied() else {
            return Err(AskFault::Memory);
        };
        let found = match read_answer(alloc, door, name) {
            Ok(found) => found,
            Err(fault) => return Err(fault),
        };
        let Ok(answer) = Arc::new(alloc, found) else {
            return Err(AskFault::Memory);
        };
        let Ok(again) = Arc::try_clone(&answer) else {
            return Err(AskFault::Memory);
        };
        let place = self.entries.len();
        let Ok(_) = self.places.insert(key, place) else {
            return Err(AskFault::Memory);
        };
        self.entries.push_reserved(Entry { name: copy, answer });
        self.looks.push_reserved(Look {
            seat,
            place: place as u64,
            fill: true,
        });
        Ok(again)
    }
}
