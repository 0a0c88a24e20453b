//! A worker, whom one thread runs.
ghost use Rattle.std.specs.Prelude.{◌≡◌};
ghost use Rattle.pj_table.specs.Seats.{IsOf, files_of, world_of};
ghost use Rattle.pj_crew.specs.Crew.{HasWorkedAt};

use pj_names::AskFault;
use pj_outside::ClassDoor;
use pj_seats::{FileWork, Gate, Share, Station, claim_loop};
use pj_table::TypeTable;
use std::alloc::Global;
use std::sync::Wait;

/// A worker: its door, its seat, and what it ended with.
pub struct Worker<D, M> {
    /// The seat and the door.
    pub station: Station<D>,
    /// What it ended with: before it worked, a share of no files.
    pub ended: Result<Share<M>, AskFault>,
}

/// The worker claims files until none is left, and works at them. It waits for the turns of the table.
pub fn run_worker<D: ClassDoor, G: Gate, W: FileWork, R: Wait>(
    rt: &R,
    alloc: Global,
    table: &TypeTable,
    worker: &mut Worker<D, W::Made>,
    work: &W,
    gate: &G,
)
    requires table { IsOf table.now worker.old.station.seat }
    requires world { D.holds worker.old.station.door ≡ world_of worker.old.station.seat }
    requires ready { W.is_ready work.now }
    requires files { files_of worker.old.station.seat ≡ W.count work.now }
    ensures same_folders { D.holds worker.new.station.door ≡ D.holds worker.old.station.door }
    ensures ended { HasWorkedAt (D.holds worker.old.station.door) (W.comes work.now) (D.finds worker.old.station.door) (D.finds worker.new.station.door) (D.faults worker.old.station.door) (D.faults worker.new.station.door) worker.old.station.seat worker.new.station.seat worker.new.ended }
{
    worker.ended = claim_loop(rt, alloc, table, &mut worker.station, work, gate);
}
