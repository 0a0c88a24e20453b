//! An oracle through a seat of the shared table.
ghost use Rattle.std.specs.Prelude.{◌≡◌, IsTrue, length, vec_len};
ghost use Rattle.std.specs.FinSet as set;
ghost use Rattle.pj_names.specs.ClassName.{name_set};
ghost use Rattle.pj_table.specs.Held.{AreHeldAnswers, all_held_prop};
ghost use Rattle.pj_table.specs.Seats.{IsOf, identity_of, view_of, world_of};
ghost use Rattle.pj_table.specs.Telling.{tells_of};
ghost use Rattle.pj_seats.specs.Kept.{AreAllHeld, is_of_prop, same_world_prop};
ghost use Rattle.pj_seats.specs.Looks.{AddsLooks, AreLooksOf, CountsFinds, at_rest, before_last, last_looks, looks_since};
ghost use Rattle.pj_seats.specs.Telling.{OverSeat};

use crate::station::{Station, ask_at};
use pj_base::Copied;
use pj_names::{Answer, AskFault, ClassName, Oracle};
use pj_table::{ClassFinder, TypeTable};
use std::alloc::Global;
use std::collections::BTreeMap;
use std::sync::{Arc, Wait};

/// An oracle through a seat of the shared table, made for one file: it asks the table once a name, and holds the answer.
///
/// The seat's list has one entry more for each name that was asked, and no other. Where an ask of the table gave no answer, since the
/// door failed or memory ran out, the table is not asked again: each later ask of a name that is not held wants memory.
#[derive(Drop)]
pub struct SeatOracle<'a, D: ClassFinder, R: Wait> {
    rt: &'a R,
    alloc: Global,
    table: &'a TypeTable,
    /// The seat and the door.
    pub station: &'a mut Station<D>,
    names: Vec<ClassName>,
    answers: BTreeMap<ClassName, Arc<Answer>>,
    is_whole: bool,
    finds: u64,
    ghost of_table: { IsOf table.now station.now.seat } by { is_of_prop table.now station.now.seat },
    ghost same_world: { D.holds station.now.door ≡ world_of station.now.seat } by { same_world_prop (D.holds station.now.door) (world_of station.now.seat) },
    ghost looks: { AreLooksOf names.items (last_looks (vec_len names) (view_of station.now.seat)) },
    ghost once: { set.len (name_set names.items) ≡ vec_len names },
    ghost held: { AreHeldAnswers (D.holds station.now.door) (name_set names.items) answers.entries } by { all_held_prop (D.holds station.now.door) (name_set names.items) answers.entries },
    ghost all_held: { IsTrue is_whole → AreAllHeld (name_set names.items) answers },
    ghost counted: { IsTrue is_whole → CountsFinds finds (D.finds station.now.door) (last_looks (vec_len names) (view_of station.now.seat)) },
}

impl<'a, D: ClassFinder, R: Wait> SeatOracle<'a, D, R> {
    /// The oracle through a seat, for a file of which nothing was asked. The door has the seat's world. It takes no memory.
    pub fn new(
        rt: &'a R,
        alloc: Global,
        table: &'a TypeTable,
        station: &'a mut Station<D>,
    ) -> SeatOracle<'a, D, R>
        requires table { IsOf table.now station.old.seat }
        requires world { D.holds station.old.door ≡ world_of station.old.seat }
        ensures tells { ⟦<SeatOracle<'a, D, R> as Oracle>⟧.tells result ≡ tells_of (record { reference = station.entry.ghost_name; identity = identity_of station.old.seat; start = at_rest (view_of station.old.seat); finds = D.finds station.old.door }) (D.holds station.old.door) set.empty (D.faults station.old.door) }
        ensures station { result.station.now ≡ station.old }
    {
        let finds = station.door.count_found();
        SeatOracle {
            rt,
            alloc,
            table,
            station,
            names: Vec::new(alloc),
            answers: BTreeMap::new(alloc),
            is_whole: true,
            finds,
        }
    }

    /// The names that were asked, in the order of their first asks, each once. The seat gained one entry for each.
    pub fn asked(&self) -> &[ClassName]
        ensures asked { name_set result.now ≡ (⟦<SeatOracle<'a, D, R> as Oracle>⟧.tells self.now).asked }
        ensures once { set.len (name_set result.now) ≡ length result.now }
        ensures looks { AddsLooks (⟦<SeatOracle<'a, D, R> as Oracle>⟧.tells self.now).kept.start (view_of self.now.station.now.seat) result.now }
    {
        self.names.as_slice()
    }

    /// Whether each ask that came to the table had an answer, and it is held. Then, since the oracle was made, the door has had one find
    /// for each entry that fills, and no other.
    pub fn is_whole(&self) -> bool
        ensures finds { IsTrue result → CountsFinds (⟦<SeatOracle<'a, D, R> as Oracle>⟧.tells self.now).kept.finds (D.finds self.now.station.now.door) (looks_since (⟦<SeatOracle<'a, D, R> as Oracle>⟧.tells self.now).kept.start (view_of self.now.station.now.seat)) }
    {
        self.is_whole
    }

    /// The seat and the door, once the file is done.
    pub fn give_back(self) -> &'a mut Station<D>
        ensures same_reference { result.ghost_name ≡ self.entry.station.ghost_name }
        ensures station { result.now ≡ self.entry.station.now }
        ensures same_identity { identity_of result.now.seat ≡ (⟦<SeatOracle<'a, D, R> as Oracle>⟧.tells self.entry).kept.identity }
        ensures same_world { D.holds result.now.door ≡ world_of result.now.seat }
    {
        self.station
    }
}

impl<'a, D: ClassFinder, R: Wait> Oracle for SeatOracle<'a, D, R> {
    ghost Kept = { OverSeat };

    ghost tells = { λ oracle. tells_of (record { reference = oracle.station.ghost_name; identity = identity_of oracle.station.now.seat; start = before_last (vec_len oracle.names) (view_of oracle.station.now.seat); finds = oracle.finds }) (D.holds oracle.station.now.door) (name_set oracle.names.items) (D.faults oracle.station.now.door) };

    fn ask(&mut self, name: &ClassName) -> Result<Arc<Answer>, AskFault> {
        if let Some(answer) = self.answers.get(name) {
            return Ok(answer.clone()?);
        }
        if !self.is_whole {
            return Err(AskFault::Memory);
        }
        let key = name.copied()?;
        let asked = name.copied()?;
        self.names.reserve(1)?;
        self.is_whole = false;
        let answer = match ask_at(self.rt, self.alloc, self.table, self.station, name) {
            Ok(answer) => answer,
            Err(fault) => return Err(fault),
        };
        self.names.push_reserved(asked);
        self.answers.insert(key, answer.clone()?)?;
        self.is_whole = true;
        Ok(answer)
    }
}
