//! A run for each of several worlds.
ghost use Rattle.std.specs.Prelude.{◌≡◌, [], List, Ok, OnErr, OnOk, IfErr, IfOk, Some, length};
ghost use Rattle.pj_check.specs.Caching.{FindsFitting};
ghost use Rattle.pj_check.specs.Kept.{AsksForNoCache};
ghost use Rattle.pj_outside.specs.Files.{Bytes};
ghost use Rattle.pj_session.specs.Session.{IsReadyIn, IsReportOf, KeepsOthers, Says, SaysOfFiles, StaysFitting};
ghost use Rattle.pj_session.specs.Steps.{EndsSo, IsFaultAt, IsRefusedAt, IsRunIn};

use crate::fault::SessionFault;
use crate::world::{World, Worlds};
use pj_base::{Bytes, Copied, ListOf, NoMemory, Numbers, Words};
use pj_check::{Outcome, check_alone, keepers_stay_fit};
use pj_outside::{MemClassPath, MemKeeper, MemSink, MemTree, Pairs, one_name_is_replaced};
use pj_workers::Work;
use std::alloc::Global;

/// The texts of reports, in the order of their worlds.
pub type Reports = ListOf<Bytes>;

/// The run over a world. Its files are copied for the run, and its class folders are shared.
fn run_world(
    alloc: Global,
    world: &World,
    words: &Words,
    keeper: &mut MemKeeper,
    out: &mut MemSink,
) -> Result<Outcome, NoMemory>
    requires { out.old.bytes ≡ [] }
    ensures run { IfOk result (IsRunIn words.now world.now keeper.old.files keeper.new.files out.new.bytes) }
    ensures not_run { OnErr result (keeper.new ≡ keeper.old) }
    ensures same_keeper { AsksForNoCache words.now → keeper.new ≡ keeper.old }
{
    let files = world.files.copied()?;
    let folders = world.folders.copied()?;
    let mut tree = MemTree::new(alloc, files, Numbers::new(alloc));
    let mut classes = MemClassPath::new(alloc, folders, Numbers::new(alloc), Pairs::new(alloc));
    let mut notes = MemSink::new(alloc, Numbers::new(alloc));
    let mut work = Work::new(alloc);
    Ok(check_alone(
        alloc,
        words,
        &mut tree,
        &mut classes,
        keeper,
        out,
        &mut notes,
        &mut work,
    ))
}

/// The refusal of the world at this place. A place past 32 bits is want of memory.
fn fault_at(place: usize, outcome: Outcome) -> SessionFault
    ensures { IsFaultAt place outcome result }
{
    match u32::try_from(place) {
        Ok(place) => SessionFault::Run(place, outcome),
        Err(_) => SessionFault::Memory,
    }
}

/// The report of a run that came to this, where its sink got this text; or why there is none. The sink fails by want of memory alone.
fn end_of(place: usize, outcome: Outcome, text: &Bytes) -> Result<Bytes, SessionFault>
    ensures { EndsSo place text.now outcome result }
{
    match outcome {
        Outcome::Clean | Outcome::Violations | Outcome::Errors => Ok(text.copied()?),
        Outcome::SinkFault | Outcome::Memory => Err(SessionFault::Memory),
        refusal => Err(fault_at(place, refusal)),
    }
}

/// The report of the world at this place, or why there is none.
fn report_of(
    alloc: Global,
    place: usize,
    world: &World,
    words: &Words,
    keeper: &mut MemKeeper,
) -> Result<Bytes, SessionFault>
    ensures report { FindsFitting words.now (Some keeper.old.files) → IfOk result (IsReportOf words.now world.now) }
    ensures ready { OnOk result (IsReadyIn words.now world.now) }
    ensures refused { IfErr result (IsRefusedAt place words.now world.now) }
    ensures fits { StaysFitting keeper.old.files keeper.new.files }
    ensures others { KeepsOthers words.now keeper.old.files keeper.new.files }
    ensures same_keeper { AsksForNoCache words.now → keeper.new ≡ keeper.old }
{
    keepers_stay_fit();
    one_name_is_replaced();
    let mut out = MemSink::new(alloc, Numbers::new(alloc));
    let outcome = run_world(alloc, world, words, keeper, &mut out)?;
    end_of(place, outcome, out.bytes())
}

/// Runs `check_alone` once for each world, in their order, by the same words and over one keeper, as a server does between edits: the texts of the reports.
///
/// If what the keeper has at first under the name of the cache fits, as where nothing stands there or what an earlier run left, each text is that of the run of its world without
/// a cache, whatever worlds came before. The first world that is refused ends the session, and no later run is made. Words without a cache call the keeper not.
///
/// Each world's files are copied for its run. The place of a world past 4,294,967,295 is want of memory, if it is refused.
pub fn session(
    alloc: Global,
    worlds: &Worlds,
    words: &Words,
    keeper: &mut MemKeeper,
) -> Result<Reports, SessionFault>
    ensures says { FindsFitting words.now (Some keeper.old.files) → Says words.now worlds.now result }
    ensures of_files { SaysOfFiles words.now worlds.now result }
    ensures as_many { IfOk result (λ reports. length reports ≡ length worlds.now) }
    ensures fits { StaysFitting keeper.old.files keeper.new.files }
    ensures finds { (later : List Bytes) → FindsFitting later (Some keeper.old.files) → FindsFitting later (Some keeper.new.files) }
    ensures others { KeepsOthers words.now keeper.old.files keeper.new.files }
    ensures same_keeper { AsksForNoCache words.now → keeper.new ≡ keeper.old }
    ensures no_worlds { worlds.now ≡ [] → result ≡ Ok [] }
{
    let mut reports = Reports::new(alloc);
    for (place, world) in worlds.as_slice().iter().enumerate() {
        let report = report_of(alloc, place, world, words, keeper)?;
        reports.push(report)?;
    }
    Ok(reports)
}
