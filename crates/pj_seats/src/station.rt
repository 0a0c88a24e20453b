//! Where a worker asks from.
ghost use Rattle.std.specs.Prelude.{◌≡◌, IfOk, IfErr};
ghost use Rattle.std.specs.Arc.{arc_value};
ghost use Rattle.pj_table.specs.Names.{part_of};
ghost use Rattle.pj_table.specs.Plays.{AddsLook, AddsNothing};
ghost use Rattle.pj_table.specs.Seats.{IsOf, IsSameSeat, view_of, world_of};
ghost use Rattle.pj_table.specs.Worlds.{CountsFaults, CountsFind, IsAnswer};

use pj_names::{Answer, AskFault, ClassName};
use pj_table::{ClassFinder, TableSeat, TypeTable};
use std::alloc::Global;
use std::sync::{Arc, Wait};

/// A worker's seat of the shared table, and its door to the class folders. Both are lent as one.
#[derive(Drop)]
pub struct Station<D> {
    /// The seat.
    pub seat: TableSeat,
    /// The door.
    pub door: D,
}

/// The table is asked through the seat and the door. It waits for the turn of the name's part.
pub fn ask_at<D: ClassFinder, R: Wait>(
    rt: &R,
    alloc: Global,
    table: &TypeTable,
    station: &mut Station<D>,
    name: &ClassName,
) -> Result<Arc<Answer>, AskFault>
    requires table { IsOf table.now station.old.seat }
    requires world { D.holds station.old.door ≡ world_of station.old.seat }
    ensures table { IsSameSeat station.old.seat station.new.seat }
    ensures same_folders { D.holds station.new.door ≡ D.holds station.old.door }
    ensures ok { IfOk result (λ r. IsAnswer (world_of station.old.seat) name.now (arc_value r) × AddsLook (view_of station.old.seat) (view_of station.new.seat) (part_of name.now) name.now (CountsFind (D.finds station.old.door) (D.finds station.new.door))) }
    ensures err { IfErr result (λ _. AddsNothing (view_of station.old.seat) (view_of station.new.seat)) }
    ensures faults { CountsFaults (D.faults station.old.door) (D.faults station.new.door) result }
{
    table.ask(rt, alloc, &mut station.seat, &mut station.door, name)
}
