//! Several workers at the files of a run.
ghost use Rattle.std.specs.Prelude.{◌≡◌, ℕ, ◌+◌, ◌^◌, ◌<◌, ◌≤◌, [], List, Ok, Err, IfOk, length, map, slice_index_or, vec_capacity, vec_len};
ghost use Rattle.std.specs.List.{All, AllZip, Contains};
ghost use Rattle.pj_names.specs.Told.{UnlessFailed};
ghost use Rattle.pj_names.specs.declared.oracle.AskFault.TheVariants as faults;
ghost use Rattle.pj_seats.specs.declared.worker.Share.{Share as AnyShare};
ghost use Rattle.pj_table.specs.Seats.{IsOf, IsOpening, IsSameSeat, files_of, view_of, world_of};
ghost use Rattle.pj_table.specs.Rule.{total};
ghost use Rattle.pj_table.specs.Worlds.{CountsFaults};
ghost use Rattle.pj_crew.specs.Crew.{AreJoined, ArePut, HasNotFailed, HasWorked, HaveWorked, IsReady};
ghost use Rattle.pj_crew.specs.Together.{AreOfOneWorld, AreOfWorld, IsMadeByAll, first_world};

use crate::hiring::hire;
use crate::placing::by_number;
use crate::releasing::release;
use crate::shares::all_shares;
use crate::worker::{Worker, run_worker};
use pj_names::AskFault;
use pj_outside::ClassDoor;
use pj_seats::{FileWork, Gate, Share};
use pj_table::{Closed, TableSeat, TypeTable};
use std::alloc::Global;
use std::sync::Wait;
use std::thread;
use std::thread::Threads;

/// What several workers came to.
#[derive(Drop)]
pub struct CrewResult<M> {
    /// What came of each file, in the order of the numbers.
    pub made: Vec<M>,
    /// The table at its end.
    pub closed: Closed,
}

/// Each worker works, in a thread of its own where one can be made, else one after the other.
fn run_all<R: Threads + Wait + Sync, D: ClassDoor, G: Gate + Sync, W: FileWork + Sync>(
    rt: &R,
    alloc: Global,
    table: &TypeTable,
    work: &W,
    gate: &G,
    workers: &mut [Worker<D, W::Made>],
)
    requires many { 0 < length workers.old }
    requires ready { W.is_ready work.now }
    requires seated { All (IsReady table.now D.holds (W.count work.now)) workers.old }
    ensures many { length workers.new ≡ length workers.old }
    ensures each { (i : ℕ) (d : _) → i < length workers.old → HasWorked D.holds D.finds D.faults (W.comes work.now) (slice_index_or workers.old i d) (slice_index_or workers.new i d) }
{
    let threads = workers.len();
    let run_one = |_: usize, worker: &mut Worker<D, W::Made>|
        requires { IsReady table.now D.holds (W.count work.now) worker.now × W.is_ready work.now }
        ensures { HasWorked D.holds D.finds D.faults (W.comes work.entry.now) worker.entry.now worker.exit.now }
    { run_worker(rt, alloc, table, worker, work, gate) };
    thread::for_each_mut(rt, workers, threads, &run_one);
}

/// Each door gets a worker, all work, and the seats and the doors come back, with what the workers ended with.
fn work_all<R: Threads + Wait + Sync, D: ClassDoor, G: Gate + Sync, W: FileWork + Sync>(
    rt: &R,
    alloc: Global,
    table: &TypeTable,
    seat: &mut TableSeat,
    doors: &mut Vec<D>,
    room: Vec<Worker<D, W::Made>>,
    ends: Vec<Result<Share<W::Made>, AskFault>>,
    work: &W,
    gate: &G,
) -> Vec<Result<Share<W::Made>, AskFault>>
    requires table { IsOf table.now seat.old × IsOpening seat.old }
    requires many { (0 < vec_len doors.old) × ((view_of seat.old).given + vec_len doors.old < 2 ^ 32) }
    requires world { AreOfWorld D.holds (world_of seat.old) doors.old.items }
    requires ready { W.is_ready work.now }
    requires files { files_of seat.old ≡ W.count work.now }
    requires room { (room.items ≡ []) × (vec_len room ≡ 0) × (vec_len doors.old ≤ vec_capacity room) }
    requires room_for_ends { (ends.items ≡ []) × (vec_len ends ≡ 0) × (vec_len doors.old ≤ vec_capacity ends) }
    ensures table { IsSameSeat seat.old seat.new }
    ensures worked { HaveWorked table.now (view_of seat.old) D.holds D.finds D.faults (W.comes work.now) doors.old.items doors.new.items (view_of seat.new) result.items }
{
    let mut workers = hire(alloc, table, seat, doors, room);
    run_all(rt, alloc, table, work, gate, workers.as_mut_slice());
    release(table, seat, workers, doors, ends)
}

/// What came of all files, where all workers ended with shares, and the table at its end.
fn put_together<M: Drop>(
    alloc: Global,
    files: u32,
    table: TypeTable,
    seat: TableSeat,
    ends: Vec<Result<Share<M>, AskFault>>,
) -> Result<CrewResult<M>, AskFault>
    requires table { IsOf table seat × IsOpening seat }
    requires files { files_of seat ≡ files }
    requires joined { (shares : List (AnyShare M)) → map (λ share. Ok share) shares ≡ ends.items → AreJoined (view_of seat) files shares }
    ensures put { IfOk result (λ crew. ArePut (view_of seat) files ends.items crew.made.items crew.closed.parts.items) }
    ensures failed { result ≡ Err faults.Failed → Contains ends.items (Err faults.Failed) }
    ensures not_failed { UnlessFailed result (All HasNotFailed ends.items) }
{
    let shares = all_shares(alloc, ends)?;
    let closed = table.close(seat);
    let made = by_number(alloc, files, shares)?;
    Ok(CrewResult { made, closed })
}

/// Works at all files with a worker for each door, through one table. Each file is claimed by one worker, and each class that is asked
/// for is found once, by the door of the worker that asks for it first. What comes of a file does not depend on who works at it. After a
/// refusal how many finds the doors had is not said.
///
/// A failed door goes before want of memory. It waits for the threads and for the turns of the table.
#[tactic(auto, using(crate::proofs::Worked::unchanged))]
pub fn work_together<R: Threads + Wait + Sync, D: ClassDoor, G: Gate + Sync, W: FileWork + Sync>(
    rt: &R,
    alloc: Global,
    doors: &mut Vec<D>,
    files: u32,
    work: &W,
    gate: &G,
) -> Result<CrewResult<W::Made>, AskFault>
    requires many { (0 < vec_len doors.old) × (vec_len doors.old + 1 < 2 ^ 32) }
    requires world { AreOfOneWorld D.holds doors.old.items }
    requires ready { W.is_ready work.now }
    requires files { files ≡ W.count work.now }
    ensures same_doors { AllZip (λ after before. D.holds after ≡ D.holds before) doors.new.items doors.old.items }
    // What came of each file, the parts of the table, and what was done at the seat of each door.
    ensures together { IfOk result (λ crew. IsMadeByAll (first_world D.holds doors.old.items) (W.comes work.now) D.finds files doors.old.items doors.new.items crew.made.items crew.closed.parts.items) }
    ensures faults { CountsFaults (total D.faults doors.old.items) (total D.faults doors.new.items) result }
{
    let ends = Vec::with_capacity(alloc, doors.len())?;
    let (table, mut seat) = TypeTable::open(alloc, &doors[0], files)?;
    let room = Vec::with_capacity(alloc, doors.len())?;
    let ends = work_all(rt, alloc, &table, &mut seat, doors, room, ends, work, gate);
    put_together(alloc, files, table, seat, ends)
}
