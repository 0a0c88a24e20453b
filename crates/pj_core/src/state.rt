//! The core of a run: its state, which changes by events alone.
ghost use Rattle.std.specs.Prelude.{◌≡◌, IfOk, OnErr, None, replicate};
ghost use Rattle.std.specs.FinMap as finmap;
ghost use Rattle.std.specs.Option.{option_copied};
ghost use Rattle.pj_core.specs.Events.{IsFill, MayStep, claimed, file_of, finished_with, looked_up, result_of, start, step};

use crate::event::{Did, Event};
use pj_base::NoMemory;
use pj_names::{Answer, ClassName};
use std::alloc::Global;
use std::collections::BTreeMap;
use std::marker::Model;
use std::sync::Arc;

/// The core of a run over files of numbers from 0 on, by workers of numbers from 0 on. `R` is what a file comes to.
///
/// Contracts see it as its state: the next file, the file that each worker holds, the answers, and what the files came
/// to.
#[derive(Drop)]
pub struct Core<R> {
    next: u32,
    held: Vec<Option<u32>>,
    answers: BTreeMap<ClassName, Arc<Answer>>,
    results: Vec<Option<R>>,
}

impl<R> Model for Core<R> {
    ghost use Rattle.std.specs.Prelude.{◌≤◌};
    ghost use Rattle.std.specs.Prelude.{length};
    ghost use Rattle.std.specs.Coded.{codes};
    ghost use Rattle.pj_core.specs.Events.{AreThere, State, state_code, table_of};

    ghost Value = { State R };

    ghost coded = { state_code R.code (Prim.hlevel codes) };

    ghost view = { λ core. record { next = core.next; held = core.held.items; table = table_of core.answers.entries; results = core.results.items } };

    ghost invariant = { λ core. (core.next ≤ length core.results.items) × (length core.results.items ≤ 4294967295) × AreThere core.held.items (length core.results.items) };
}

/// A list of so many places in which nothing is.
fn empty_places<T: Drop>(alloc: Global, count: u32) -> Result<Vec<Option<T>>, NoMemory>
    ensures { IfOk result (λ places. places.items ≡ replicate count None) }
{
    let mut places = Vec::new(alloc);
    for _ in 0..count {
        places.push(None)?;
    }
    Ok(places)
}

impl<R: Drop> Core<R> {
    /// The core of a run over so many files by so many workers, before its first event.
    pub fn new(alloc: Global, files: u32, workers: u32) -> Result<Core<R>, NoMemory>
        ensures { IfOk result (λ core. core ≡ start files workers) }
    {
        Ok(Core {
            next: 0,
            held: empty_places(alloc, workers)?,
            answers: BTreeMap::new(alloc),
            results: empty_places(alloc, files)?,
        })
    }

    /// Makes one event happen: `NoFile` comes exactly where all files are claimed. The worker of a claim holds no file, and
    /// that of any other event holds one.
    ///
    /// Memory is taken by a look that fills alone. Without it the core is unchanged.
    pub fn step(&mut self, event: Event<R>) -> Result<Did, NoMemory>
        requires { MayStep self.old event }
        ensures ok { IfOk result (λ did. (self.new, did) ≡ step self.old event) }
        ensures err { OnErr result (self.new ≡ self.old) }
        ensures memory { OnErr result (IsFill self.old event) }
    {
        match event {
            Event::Claim { worker } => Ok(self.claim(worker)),
            Event::Look {
                worker: _,
                name,
                answer,
            } => self.look_up(name, answer),
            Event::Finish { worker, rows } => Ok(self.finish(worker, rows)),
        }
    }

    /// The worker claims the next file, if there is one.
    fn claim(&mut self, worker: u32) -> Did
        requires { MayStep self.old (Event.Claim worker) }
        ensures { (self.new, result) ≡ step self.old (Event.Claim worker) }
    {
        if self.next as usize >= self.results.len() {
            return Did::NoFile;
        }
        let file = self.next;
        self.held[worker as usize] = Some(file);
        self.next = file + 1;
        Did::Claimed(file)
    }

    /// A name is looked up, and filled where it was not.
    fn look_up(&mut self, name: ClassName, answer: Arc<Answer>) -> Result<Did, NoMemory>
        ensures ok { IfOk result (λ did. (self.new, did) ≡ looked_up name answer.value self.old (finmap.get self.old.table name)) }
        ensures err { OnErr result (self.new ≡ self.old) }
        ensures memory { OnErr result (finmap.get self.old.table name ≡ None) }
    {
        if self.answers.contains_key(&name) {
            return Ok(Did::Hit);
        }
        let _ = self.answers.insert(name, answer)?;
        Ok(Did::Filled)
    }

    /// The rows are kept under the file of the worker, which holds it no more.
    fn finish(&mut self, worker: u32, rows: R) -> Did
        requires { MayStep self.old (Event.Finish worker rows) }
        ensures { (self.new, result) ≡ step self.old (Event.Finish worker rows) }
    {
        if let Some(file) = self.held[worker as usize] {
            self.held[worker as usize] = None;
            self.results[file as usize] = Some(rows);
        }
        Did::Finished
    }

    /// The file that the worker holds.
    pub fn holds(&self, worker: u32) -> Option<u32>
        ensures { result ≡ file_of self.now worker }
    {
        match self.held.as_slice().get(worker as usize) {
            Some(held) => *held,
            None => None,
        }
    }

    /// What a file came to, or `None` exactly where it is not finished.
    pub fn finished(&self, file: u32) -> Option<&R>
        ensures { option_copied result ≡ result_of self.now file }
    {
        match self.results.as_slice().get(file as usize) {
            Some(result) => result.as_ref(),
            None => None,
        }
    }

    /// The answer of a name, or `None` exactly where it is not filled.
    pub fn answer(&self, name: &ClassName) -> Option<&Answer>
        ensures { option_copied result ≡ finmap.get self.now.table name.now }
    {
        match self.answers.get(name) {
            Some(answer) => Some(&**answer),
            None => None,
        }
    }
}
