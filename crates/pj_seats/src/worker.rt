//! What a worker does with the files that it claims.
ghost use Rattle.std.specs.Prelude.{◌≡◌, ◌<◌, ℕ, IfOk, OnOk, IsTrue, List};
ghost use Rattle.std.specs.FinSet as set;
ghost use Rattle.pj_names.specs.ClassName.{Name, NameSet};
ghost use Rattle.pj_names.specs.Told.{Worlds};
ghost use Rattle.pj_table.specs.Seats.{HasEnded, IsOf, IsSameSeat, files_of, view_of, world_of};
ghost use Rattle.pj_table.specs.Worlds.{CountsFaults};
ghost use Rattle.pj_seats.specs.Looks.{AddsLooks, CountsFinds, looks_since};
ghost use Rattle.pj_seats.specs.Working.{IsMadeOf, IsShare, Stays};

use crate::gate::Gate;
use crate::seat_oracle::SeatOracle;
use crate::station::Station;
use pj_names::{AskFault, Oracle};
use pj_table::{ClassFinder, TypeTable};
use std::alloc::Global;
use std::sync::Wait;

/// What is to be made of files.
pub trait FileWork {
    /// What comes of a file.
    type Made: Drop + Send;

    /// How many files there are.
    ghost count: { Self → ℕ };

    /// What is wanted of the work itself before a file is worked at.
    ghost is_ready: { Self → Type 0 };

    /// What comes of the file of a number, from 0, in the worlds of an oracle, and the names that are asked for it.
    ghost comes: { Self → ℕ → Worlds → NameSet → Self.Made → Type 0 };

    /// What comes of the file of a number, from 0, with the answers of an oracle. Nothing was asked of the oracle before.
    fn work<O: Oracle>(
        &self,
        alloc: Global,
        oracle: &mut O,
        file: u32,
    ) -> Result<Self::Made, AskFault>
        requires ready { is_ready self.now }
        requires inside { file < count self.now }
        requires fresh { (O.tells oracle.old).asked ≡ set.empty }
        ensures stays { Stays (O.tells oracle.old) (O.tells oracle.new) result }
        ensures comes { IsTrue (O.tells oracle.old).is_told → IfOk result (comes self.now file (O.tells oracle.old).world (O.tells oracle.new).asked) };
}

/// What a worker ends with.
#[derive(Drop)]
pub struct Share<T> {
    /// What came of each file that the worker claimed, with the number of the file, from 0, in the order of the claims.
    pub results: Vec<(u32, T)>,
}

/// What comes of one file, through a seat.
fn work_at<D: ClassFinder, W: FileWork, R: Wait>(
    rt: &R,
    alloc: Global,
    table: &TypeTable,
    station: &mut Station<D>,
    work: &W,
    file: u32,
) -> Result<W::Made, AskFault>
    requires table { IsOf table.now station.old.seat }
    requires world { D.holds station.old.door ≡ world_of station.old.seat }
    requires ready { W.is_ready work.now }
    requires inside { file < W.count work.now }
    ensures table { IsSameSeat station.old.seat station.new.seat }
    ensures same_folders { D.holds station.new.door ≡ D.holds station.old.door }
    ensures made { IfOk result (λ made. (names : List Name) × IsMadeOf (D.holds station.old.door) (W.comes work.now file) made names × AddsLooks (view_of station.old.seat) (view_of station.new.seat) names) }
    ensures finds { OnOk result (CountsFinds (D.finds station.old.door) (D.finds station.new.door) (looks_since (view_of station.old.seat) (view_of station.new.seat))) }
    ensures faults { CountsFaults (D.faults station.old.door) (D.faults station.new.door) result }
{
    let mut oracle = SeatOracle::new(rt, alloc, table, station);
    let made = work.work(alloc, &mut oracle, file);
    let is_whole = oracle.is_whole();
    let _names = oracle.asked();
    let _station = oracle.give_back();
    match made {
        Ok(made) if is_whole => Ok(made),
        Ok(_) => Err(AskFault::Memory),
        Err(fault) => Err(fault),
    }
}

/// The worker claims files until none is left, passes the gate with each, and works at it through its seat. It waits for the turns of
/// the table.
///
/// It ends with a share only once no file was left to claim. `Failed` comes only where the door's count of faults rose in the call.
pub fn claim_loop<D: ClassFinder, G: Gate, W: FileWork, R: Wait>(
    rt: &R,
    alloc: Global,
    table: &TypeTable,
    station: &mut Station<D>,
    work: &W,
    gate: &G,
) -> Result<Share<W::Made>, AskFault>
    requires table { IsOf table.now station.old.seat }
    requires world { D.holds station.old.door ≡ world_of station.old.seat }
    requires ready { W.is_ready work.now }
    requires files { files_of station.old.seat ≡ W.count work.now }
    ensures table { IsSameSeat station.old.seat station.new.seat }
    ensures same_folders { D.holds station.new.door ≡ D.holds station.old.door }
    // It ends once the seat drew a number past the files.
    ensures ended { OnOk result (HasEnded station.new.seat) }
    // What came of each claimed file, and what the seat and the door gained by them all.
    ensures share { IfOk result (λ share. IsShare (D.holds station.old.door) (W.comes work.now) (view_of station.old.seat) (view_of station.new.seat) (D.finds station.old.door) (D.finds station.new.door) share.results.items) }
    ensures faults { CountsFaults (D.faults station.old.door) (D.faults station.new.door) result }
{
    // The count of finds is one that its type has, also where nothing is found.
    let _finds = station.door.count_found();
    let mut results = Vec::new(alloc);
    for _ in rt.forever() {
        let Some(file) = table.claim(&mut station.seat) else {
            return Ok(Share { results });
        };
        gate.arrive(file);
        let made = match work_at(rt, alloc, table, station, work, file) {
            Ok(made) => made,
            Err(fault) => return Err(fault),
        };
        results.push((file, made))?;
    }
    unreachable!()
}
