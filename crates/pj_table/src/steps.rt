//! A look at one part, step by step: a ticket is drawn, its turn is waited for, the look is made and entered, and the
//! next ticket is served.
ghost use Rattle.std.specs.Prelude.{◌≡◌, ◌≢◌, ℕ, ◌+◌, ◌*◌, ◌%◌, ◌^◌, ◌<◌, ◌≤◌, true, [], ◌∷◌, length, cond, IfOk, IfErr};
ghost use Rattle.std.specs.Arc.{arc_value};
ghost use Rattle.pj_table.specs.Worlds.{CountsFaults, CountsFind, IsAnswer};
ghost use Rattle.pj_table.specs.Book.{IsSound, Grows};
ghost use Rattle.pj_table.specs.Plays.{Shaped, Turns, waiting, entering, idle, AddsLook, AddsNothing, Holds, Grew};
ghost use Rattle.pj_table.specs.declared.view.Asked.{Asked};
ghost use Rattle.pj_table.specs.declared.part.Part.{Part};

use crate::class_finder::ClassFinder;
use crate::law::{Draw, Enter, Law, Serve, Turn};
use crate::part::Part;
use crate::view::View;
use pj_names::{Answer, AskFault, ClassName};
use std::alloc::Global;
use std::sync::{Arc, Wait};
use std::thread::yield_now;

/// A seat of the table beneath.
pub type Place = atomic_table::Seat<Part, View>;

/// The words and slots of the table.
pub type Shared = atomic_table::Shared<Part, View, u32, Law>;

/// Takes the next ticket of the part.
fn draw(table: &Shared, seat: &mut Place, part: usize) -> u64
    requires alive { seat.old.me.0.live ≡ true }
    requires table { (seat.old.table_id ≡ table.now.table_id) × Shaped table.now.table_id × (part < table.now.table_id.slots) }
    requires seat { (seat.old.me.0.at ≡ 0) × (seat.old.me.1 ≡ []) }
    ensures table { (seat.new.table_id ≡ seat.old.table_id) × (seat.new.id ≡ seat.old.id) }
    ensures seat { (t : ℕ) × (result ≡ t % 2 ^ 64) × (seat.new.me ≡ (waiting part t seat.old.me.0, [])) }
{
    table.fetch_add::<Draw>(seat, 1 + 3 * part, 1)
}

/// Waits until the ticket is served, and then has the part.
fn wait_turn<R: Wait>(rt: &R, table: &Shared, seat: &mut Place, part: usize, ticket: u64)
    requires alive { seat.old.me.0.live ≡ true }
    requires table { (seat.old.table_id ≡ table.now.table_id) × Shaped table.now.table_id × (part < table.now.table_id.slots) }
    requires seat { (seat.old.me.0.at ≡ part + 1) × (seat.old.me.0.phase ≡ 1) × (ticket ≡ seat.old.me.0.ticket % 2 ^ 64) × (seat.old.me.1 ≡ []) }
    ensures table { (seat.new.table_id ≡ seat.old.table_id) × (seat.new.id ≡ seat.old.id) }
    ensures seat { Turns part seat.old.me seat.new.me }
{
    for _ in rt.forever() {
        if table.load::<Turn>(seat, 2 + 3 * part) == ticket {
            return;
        }
        yield_now();
    }
    unreachable!()
}

/// The look that the part shows is the seat's.
fn enter(table: &Shared, seat: &mut Place, part: usize)
    requires alive { seat.old.me.0.live ≡ true }
    requires table { (seat.old.table_id ≡ table.now.table_id) × Shaped table.now.table_id × (part < table.now.table_id.slots) }
    requires seat { (seat.old.me.0.at ≡ part + 1) × (seat.old.me.0.phase ≡ 2) }
    requires part { (x : Part) × (a : Asked) × (seat.old.me.1 ≡ (part, x) ∷ []) × (a.part ≡ part) × Grows seat.old.me.0.world seat.old.me.0.own.number seat.old.me.0.entries seat.old.me.0.looks a x.entries.items x.looks.items × (length x.looks.items < 2 ^ 64) }
    ensures table { (seat.new.table_id ≡ seat.old.table_id) × (seat.new.id ≡ seat.old.id) }
    ensures seat { (x : Part) (a : Asked) → seat.old.me.1 ≡ (part, x) ∷ [] → a.part ≡ part → Grows seat.old.me.0.world seat.old.me.0.own.number seat.old.me.0.entries seat.old.me.0.looks a x.entries.items x.looks.items
        → seat.new.me ≡ (entering a x.entries.items x.looks.items seat.old.me.0, seat.old.me.1) }
{
    table.fetch_add::<Enter>(seat, 3 + 3 * part, 1);
}

/// Gives the part back, and serves the next ticket.
fn serve(table: &Shared, seat: &mut Place, part: usize)
    requires alive { seat.old.me.0.live ≡ true }
    requires table { (seat.old.table_id ≡ table.now.table_id) × Shaped table.now.table_id × (part < table.now.table_id.slots) }
    requires seat { (seat.old.me.0.at ≡ part + 1) × (1 < seat.old.me.0.phase) }
    requires part { (x : Part) × (seat.old.me.1 ≡ (part, x) ∷ []) × (x.entries.items ≡ seat.old.me.0.entries) × (x.looks.items ≡ seat.old.me.0.looks) }
    ensures table { (seat.new.table_id ≡ seat.old.table_id) × (seat.new.id ≡ seat.old.id) }
    ensures seat { seat.new.me ≡ (idle seat.old.me.0, []) }
{
    table.fetch_add::<Serve>(seat, 2 + 3 * part, 1);
}

/// One look at the part that the seat has.
fn visit<D: ClassFinder>(
    table: &Shared,
    seat: &mut Place,
    alloc: Global,
    door: &mut D,
    part: usize,
    number: u32,
    name: &ClassName,
) -> Result<Arc<Answer, Global>, AskFault>
    requires table { seat.old.table_id ≡ table.now.table_id }
    requires seat { (number ≡ seat.old.me.0.own.number) × (D.holds door.old ≡ seat.old.me.0.world) }
    requires part { Holds part seat.old.me × IsSound seat.old.me.0.world seat.old.me.0.entries seat.old.me.0.looks }
    ensures table { (seat.new.table_id ≡ seat.old.table_id) × (seat.new.id ≡ seat.old.id) × (seat.new.me.0 ≡ seat.old.me.0) }
    ensures same_folders { D.holds door.new ≡ D.holds door.old }
    ensures ok { IfOk result (λ r. IsAnswer seat.old.me.0.world name.now (arc_value r) × Grew part seat.new.me name.now (CountsFind (D.finds door.old) (D.finds door.new))) }
    ensures err { IfErr result (λ _. Holds part seat.new.me) }
    ensures faults { CountsFaults (D.faults door.old) (D.faults door.new) result }
{
    seat.slot_mut(table, part)
        .look_up(alloc, door, number, name)
}

/// A look at one part, from ticket to ticket.
pub(crate) fn look<D: ClassFinder, R: Wait>(
    rt: &R,
    table: &Shared,
    seat: &mut Place,
    alloc: Global,
    door: &mut D,
    part: usize,
    number: u32,
    name: &ClassName,
) -> Result<Arc<Answer, Global>, AskFault>
    requires alive { seat.old.me.0.live ≡ true }
    requires table { (seat.old.table_id ≡ table.now.table_id) × Shaped table.now.table_id × (part < table.now.table_id.slots) }
    requires rests { (seat.old.me.0.at ≡ 0) × (seat.old.me.1 ≡ []) }
    requires seat { (number ≡ seat.old.me.0.own.number) × (D.holds door.old ≡ seat.old.me.0.world) }
    ensures table { (seat.new.table_id ≡ seat.old.table_id) × (seat.new.id ≡ seat.old.id) }
    ensures rests { (seat.new.me.0.at ≡ 0) × (seat.new.me.1 ≡ []) }
    ensures same_folders { D.holds door.new ≡ D.holds door.old }
    ensures ok { IfOk result (λ r. IsAnswer seat.old.me.0.world name.now (arc_value r) × AddsLook seat.old.me.0 seat.new.me.0 part name.now (CountsFind (D.finds door.old) (D.finds door.new))) }
    ensures err { IfErr result (λ _. AddsNothing seat.old.me.0 seat.new.me.0) }
    ensures faults { CountsFaults (D.faults door.old) (D.faults door.new) result }
{
    let ticket = draw(table, seat, part);
    wait_turn(rt, table, seat, part, ticket);
    match visit(table, seat, alloc, door, part, number, name) {
        Ok(answer) => {
            enter(table, seat, part);
            serve(table, seat, part);
            Ok(answer)
        }
        Err(fault) => {
            serve(table, seat, part);
            Err(fault)
        }
    }
}
