//! Workers give back their doors and seats.
ghost use Rattle.std.specs.Prelude.{◌≡◌, ◌≤◌, [], reverse, vec_len, vec_capacity};
ghost use Rattle.pj_table.specs.Seats.{IsOf, IsSameSeat, view_of};
ghost use Rattle.pj_crew.specs.Crew.{AreSeatedAt, doors_of, ends_of, with_seats_of};

use crate::worker::Worker;
use pj_names::AskFault;
use pj_seats::{Share, Station};
use pj_table::{TableSeat, TypeTable};

/// Takes each worker's seat into the opening one, its door back among the doors, and what it ended with, of the last worker first. It takes no
/// memory.
pub fn release<D, M>(
    table: &TypeTable,
    seat: &mut TableSeat,
    mut workers: Vec<Worker<D, M>>,
    doors: &mut Vec<D>,
    mut ends: Vec<Result<Share<M>, AskFault>>,
) -> Vec<Result<Share<M>, AskFault>>
    requires table { IsOf table.now seat.old × AreSeatedAt table.now workers.items }
    requires room { (doors.old.items ≡ []) × (vec_len doors.old ≡ 0) × (vec_len workers ≤ vec_capacity doors.old) }
    requires room_for_ends { (ends.items ≡ []) × (vec_len ends ≡ 0) × (vec_len workers ≤ vec_capacity ends) }
    ensures table { IsSameSeat seat.old seat.new }
    ensures united { view_of seat.new ≡ with_seats_of (reverse workers.items) (view_of seat.old) }
    ensures doors { doors.new.items ≡ doors_of (reverse workers.items) }
    ensures ends { result.items ≡ ends_of (reverse workers.items) }
{
    for _ in 0..workers.len() {
        let Worker { station, ended } = workers.take_last();
        let Station { seat: own, door } = station;
        table.join(seat, own);
        doors.push_reserved(door);
        ends.push_reserved(ended);
    }
    workers.destroy_empty();
    ends
}
