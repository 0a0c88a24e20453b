//! Workers get seats.
ghost use Rattle.std.specs.Prelude.{◌≡◌, ◌+◌, ◌^◌, ◌<◌, ◌≤◌, [], vec_len, vec_capacity};
ghost use Rattle.pj_table.specs.Seats.{IsOf, IsOpening, IsSameSeat, view_of};
ghost use Rattle.pj_crew.specs.Crew.{AreHired, with_numbers_given};

use crate::worker::Worker;
use pj_seats::{Share, Station};
use pj_table::{TableSeat, TypeTable};
use std::alloc::Global;

/// Each door gets a worker with a seat of its own, split off the opening one. It takes no memory. The workers stand in the other order.
pub fn hire<D, M>(
    alloc: Global,
    table: &TypeTable,
    seat: &mut TableSeat,
    doors: &mut Vec<D>,
    mut workers: Vec<Worker<D, M>>,
) -> Vec<Worker<D, M>>
    requires table { IsOf table.now seat.old }
    requires opening { IsOpening seat.old × ((view_of seat.old).given + vec_len doors.old < 2 ^ 32) }
    requires room { (workers.items ≡ []) × (vec_len workers ≡ 0) × (vec_len doors.old ≤ vec_capacity workers) }
    ensures table { IsSameSeat seat.old seat.new }
    ensures counted { view_of seat.new ≡ with_numbers_given (vec_len doors.old) (view_of seat.old) }
    ensures doors { (doors.new.items ≡ []) × (vec_len doors.new ≡ 0) × (vec_capacity doors.new ≡ vec_capacity doors.old) }
    ensures workers { AreHired table.now (view_of seat.old) doors.old.items result.items }
    ensures many { vec_len result ≡ vec_len doors.old }
{
    for _ in 0..doors.len() {
        let door = doors.take_last();
        let own = table.split(seat);
        workers.push_reserved(Worker {
            station: Station { seat: own, door },
            ended: Ok(Share {
                results: Vec::new(alloc),
            }),
        });
    }
    workers
}
