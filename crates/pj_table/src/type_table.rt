//! The table and its seats.
ghost use Rattle.std.specs.Prelude.{◌≡◌, ◌≢◌, ℕ, ◌+◌, ◌*◌, ◌%◌, ◌^◌, ◌<◌, ◌≤◌, true, false, [], ◌∷◌, length, cond, IfOk, IfErr, IfSome, IfNone, slice_index, vec_len, vec_capacity};
ghost use mathlib.Core.Option.{some};
ghost use lib.ListN.{get_elem?};
ghost use Rattle.std.specs.Slots.{slots_items, slots_len, IsFull};
ghost use Rattle.pj_table.specs.Names.{part_of};
ghost use Rattle.pj_table.specs.Worlds.{CountsFaults, CountsFind, IsAnswer};
ghost use Rattle.pj_table.specs.declared.part.Part.{Part};
ghost use Rattle.pj_table.specs.declared.view.Entry.{Entry};
ghost use Rattle.std.specs.Arc.{arc_value};
ghost use Rattle.pj_table.specs.Answered.{HasAnswer};
ghost use Rattle.pj_table.specs.Book.{IsSound, Grows, Lacks};
ghost use Rattle.pj_table.specs.Rule.{newcomer, HasAll, Shows, marks, claimed, once_below};
ghost use Rattle.pj_table.specs.Seats.{AreOfOneTable, IsOf, IsOpening, IsSameSeat, HasEnded, HasNotEnded, files_of, view_of, world_of};
ghost use Rattle.pj_table.specs.Plays.{Shaped, AddsLook, AddsNothing, with_claim, with_end, with_number_given, new_view, united};

use crate::class_finder::ClassFinder;
use crate::law::{Claim, Give, Learn, Naming, Unite};
use crate::name_part::part_of;
use crate::part::Part;
use crate::seat::{TableSeat, TypeTable};
use crate::steps::look;
use atomic_table::{Refused, Table};
use pj_base::NoMemory;
use pj_names::{Answer, AskFault, ClassName};
use pj_outside::ClassDoor;
use std::alloc::Global;
use std::marker::Brand;
use std::sync::{Arc, Wait};

/// The table at its end.
#[derive(Drop)]
pub struct Closed {
    /// The 64 parts, in their order.
    pub parts: Vec<Part>,
}

impl Closed {
    /// The answer of a name that was asked. There are 64 parts. It takes no memory.
    pub fn answer_of(&self, name: &ClassName) -> Option<&Arc<Answer, Global>>
        requires parts { length self.now.parts.items ≡ 64 }
        ensures some { IfSome result (λ answer. (x : Part) × (get_elem? self.now.parts.items (part_of name.now) ≡ some x) × HasAnswer x.entries.items name.now answer.now) }
        ensures none { IfNone result ((x : Part) → get_elem? self.now.parts.items (part_of name.now) ≡ some x → Lacks x.entries.items name.now) }
    {
        self.parts[part_of(name)].answer_of(name)
    }
}

impl TypeTable {
    /// A new table over the world of the door, for so many files, and its opening seat.
    pub fn open<D: ClassDoor>(
        alloc: Global,
        door: &D,
        files: u32,
    ) -> Result<(TypeTable, TableSeat), NoMemory>
        ensures { IfOk result (λ made. IsOf made.0 made.1 × IsOpening made.1 × (files_of made.1 ≡ files) × (view_of made.1 ≡ newcomer (D.holds door.now) files 0 1)) }
    {
        TypeTable::open_named::<D, Brand>(alloc, door, files)
    }

    /// The same, where the world has a name.
    fn open_named<D: ClassDoor, W: Naming>(
        alloc: Global,
        _door: &D,
        files: u32,
    ) -> Result<(TypeTable, TableSeat), NoMemory>
        requires { W.world ≡ D.holds _door.now }
        ensures { IfOk result (λ made. IsOf made.0 made.1 × IsOpening made.1 × (files_of made.1 ≡ files) × (view_of made.1 ≡ newcomer (D.holds _door.now) files 0 1)) }
    {
        let room = Vec::with_capacity(alloc, 64)?;
        let words = no_words(alloc)?;
        let slots = no_parts(alloc)?;
        let (table, mut seat) = match Table::new(alloc, &words, slots, &files) {
            Ok(made) => made,
            Err(Refused { slots: _ }) => return Err(NoMemory),
        };
        table.shared.load::<Learn<W>>(&mut seat, 0);
        Ok((
            TypeTable { table, room },
            TableSeat {
                seat,
                number: 0,
                files,
                past: false,
                given: 1,
            },
        ))
    }

    /// The next file that no seat has claimed, by one `fetch_add`, or `None` exactly where the number that the seat drew, now
    /// or before, is at least the number of files. It takes no memory.
    pub fn claim(&self, seat: &mut TableSeat) -> Option<u32>
        requires { IsOf self.now seat.old }
        ensures table { IsSameSeat seat.old seat.new }
        ensures some { IfSome result (λ n. HasNotEnded seat.old × (n < files_of seat.old) × (view_of seat.new ≡ with_claim n (view_of seat.old))) }
        ensures none { IfNone result (HasEnded seat.new × (view_of seat.new ≡ with_end (view_of seat.old))) }
    {
        if seat.past {
            return None;
        }
        let found = self.table.shared.fetch_add::<Claim>(&mut seat.seat, 0, 1);
        if found >= seat.files as u64 {
            seat.past = true;
            return None;
        }
        Some(found as u32)
    }

    /// The world's answer for a name. It waits for the turn of the name's part.
    ///
    /// The door is called exactly where the name is not filled. `Failed` comes only where the door's count of faults rose,
    /// and after a refusal the part is as it was. A hit takes memory for its entry in the history and for its copy of the
    /// answer alone, before the entry is made.
    pub fn ask<D: ClassFinder, R: Wait>(
        &self,
        rt: &R,
        alloc: Global,
        seat: &mut TableSeat,
        door: &mut D,
        name: &ClassName,
    ) -> Result<Arc<Answer, Global>, AskFault>
        requires table { IsOf self.now seat.old }
        requires world { D.holds door.old ≡ world_of seat.old }
        ensures table { IsSameSeat seat.old seat.new }
        ensures same_folders { D.holds door.new ≡ D.holds door.old }
        ensures ok { IfOk result (λ r. IsAnswer (world_of seat.old) name.now (arc_value r) × AddsLook (view_of seat.old) (view_of seat.new) (part_of name.now) name.now (CountsFind (D.finds door.old) (D.finds door.new))) }
        ensures err { IfErr result (λ _. AddsNothing (view_of seat.old) (view_of seat.new)) }
        ensures faults { CountsFaults (D.faults door.old) (D.faults door.new) result }
    {
        let number = seat.number;
        look(
            rt,
            &self.table.shared,
            &mut seat.seat,
            alloc,
            door,
            part_of(name),
            number,
            name,
        )
    }

    /// A seat for another thread, split off the opening seat. It takes no memory.
    pub fn split(&self, seat: &mut TableSeat) -> TableSeat
        requires table { IsOf self.now seat.old }
        requires opening { IsOpening seat.old × ((view_of seat.old).given + 1 < 2 ^ 32) }
        ensures table { IsSameSeat seat.old seat.new }
        ensures counted { view_of seat.new ≡ with_number_given (view_of seat.old) }
        ensures new_seat { AreOfOneTable seat.old result × (view_of result ≡ new_view (view_of seat.old)) }
    {
        let new = self.table.shared.split_seat::<Give>(&mut seat.seat);
        let number = seat.given;
        seat.given += 1;
        TableSeat {
            seat: new,
            number,
            files: seat.files,
            past: false,
            given: 0,
        }
    }

    /// Takes in what another seat knows. It takes no memory.
    pub fn join(&self, seat: &mut TableSeat, other: TableSeat)
        requires table { IsOf self.now seat.old × IsOf self.now other }
        ensures table { IsSameSeat seat.old seat.new }
        ensures united { view_of seat.new ≡ united (view_of seat.old) (view_of other) }
    {
        let TableSeat { seat: other, .. } = other;
        self.table.shared.join_seat::<Unite>(&mut seat.seat, other);
    }

    /// The end of the table, once each seat that was split was joined into the opening one. It takes no memory.
    ///
    /// Each part has one legal history with the world's answers alone, in which the looks of each seat number are those that
    /// its seat made there, and each name lies in its part. Where a seat drew a number past the files, each number below
    /// them was claimed once.
    pub fn close(self, seat: TableSeat) -> Closed
        requires table { IsOf self seat }
        requires all { IsOpening seat × HasAll (view_of seat) }
        ensures shows { (p : ℕ) → p < 64 → (x : Part) × (get_elem? result.parts.items p ≡ some x) × Shows (view_of seat) p x × ((k : ℕ) (e : Entry) → get_elem? x.entries.items k ≡ some e → part_of e.name ≡ p) }
        ensures claims { 0 < marks (view_of seat) → (x : ℕ) → claimed x (view_of seat) ≡ once_below x (files_of seat) }
        ensures parts { length result.parts.items ≡ 64 }
    {
        let TypeTable { table, room } = self;
        let TableSeat { seat, .. } = seat;
        let closed = table.close_with(seat);
        Closed {
            parts: take_all(closed, room),
        }
    }
}

/// Takes each slot's value.
fn take_all(mut closed: atomic_table::Closed<Part, Global>, mut room: Vec<Part>) -> Vec<Part>
    requires full { IsFull closed.slots × (slots_len closed.slots ≡ 64) }
    requires room { (vec_len room ≡ 0) × (64 ≤ vec_capacity room) }
    ensures { (result.items ≡ slots_items closed.slots) × (length result.items ≡ 64) }
{
    for i in 0..64usize {
        room.push_reserved(closed.take(i));
    }
    closed.free();
    room
}

/// The words of a new table: the claim word, and three for each part.
fn no_words(alloc: Global) -> Result<Vec<u64>, NoMemory>
    ensures { IfOk result (λ v. (length v.items ≡ 193) × ((i : ℕ) → slice_index v.items i ≡ 0)) }
{
    let mut words = Vec::new(alloc);
    for _ in 0..193usize {
        words.push(0)?;
    }
    Ok(words)
}

/// The parts of a new table.
fn no_parts(alloc: Global) -> Result<Vec<Part>, NoMemory>
    ensures { IfOk result (λ v. (length v.items ≡ 64) × ((p : ℕ) (x : Part) → get_elem? v.items p ≡ some x → (x.entries.items ≡ []) × (x.looks.items ≡ []))) }
{
    let mut slots = Vec::with_capacity(alloc, 64)?;
    for _ in 0..64usize {
        slots.push_reserved(Part::new(alloc));
    }
    Ok(slots)
}
