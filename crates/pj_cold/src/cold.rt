//! The cold report.
ghost use Rattle.std.specs.Prelude.{◌≡◌, ◌++◌, IfOk, IfSome, OnOk, map};
ghost use Rattle.std.specs.FinSet as name_sets;
ghost use Rattle.pj_outside.specs.Doors.{count_and};
ghost use Rattle.pj_table.specs.ClassWorld.{folders_world};
ghost use Rattle.pj_workers.specs.Evaluated.{evaluated_on};
ghost use Rattle.pj_cold.specs.Cold.{IsColdOf};
ghost use Rattle.pj_cold.specs.Finds.{CountsAsked};
ghost use Rattle.pj_cold.specs.Steps.{AreRows, CountsDoorFaults};

use pj_base::{Bytes, Copied, NoMemory, Text};
use pj_names::{AskFault, Oracle, RuleRowList};
use pj_outside::{ClassDoor, Files};
use pj_reports::{PathRows, Report};
use pj_rule_sets::{Rule, RuleSet};
use pj_table::DoorOracle;
use pj_workers::{PathResults, Work, analyse_files, sets_have_rules};
use std::alloc::Global;

/// The rows of the rules, in the order of their numbers.
fn rule_rows(alloc: Global, rules: &[Rule]) -> Result<RuleRowList, NoMemory>
    ensures { IfOk result (λ rows. rows ≡ map (λ rule. rule.row) rules.now) }
{
    let mut rows = RuleRowList::new(alloc);
    for rule in rules {
        rows.push(rule.row.copied()?)?;
    }
    Ok(rows)
}

/// The rows of what came of files, with their paths.
fn rows_of(alloc: Global, found: PathResults) -> Result<PathRows, NoMemory>
    ensures { IfOk result (λ rows. rows ≡ map (λ of_file. (of_file.0, of_file.1.rows)) found) }
{
    let mut rows = PathRows::new(alloc);
    for of_file in found.into_vec() {
        let (path, result) = of_file;
        rows.push((path, result.rows))?;
    }
    Ok(rows)
}

/// The door of an oracle that is asked no more. It has had one find for each name that was asked.
pub fn door_of<'a, D: ClassDoor>(oracle: DoorOracle<'a, D>) -> &'a mut D
    ensures same_reference { result.ghost_name ≡ oracle.entry.door.ghost_name }
    ensures same_door { result.now ≡ oracle.entry.door.now }
    ensures finds { D.finds result.now ≡ count_and (⟦<DoorOracle<'a, D> as Oracle>⟧.tells oracle.entry).kept.finds (name_sets.len (⟦<DoorOracle<'a, D> as Oracle>⟧.tells oracle.entry).asked) }
{
    let _asked = oracle.asked();
    oracle.door
}

/// What the rules find in the files, in their order, over the class folders of a door.
fn file_results<D: ClassDoor>(
    alloc: Global,
    door: &mut D,
    files: &[(Text, Bytes)],
    rules: &RuleSet,
    work: &mut Work,
) -> Result<PathResults, AskFault>
    ensures found { IfSome (D.holds door.old) (λ folders. IfOk result (λ found. AreRows (folders_world folders).answer rules.now files.now (map (λ of_file. (of_file.0, of_file.1.rows)) found))) }
    ensures finds { IfSome (D.holds door.old) (λ folders. OnOk result (CountsAsked (folders_world folders).answer files.now rules.now (D.finds door.old) (D.finds door.new))) }
    ensures faults { CountsDoorFaults (D.faults door.old) (D.faults door.new) result }
    ensures analysed { OnOk result (work.new.analysed ≡ work.old.analysed ++ map (λ file. file.0) files.now) }
    ensures ran { OnOk result (work.new.ran ≡ work.old.ran ++ evaluated_on rules.now files.now) }
    ensures reused { work.new.reused ≡ work.old.reused }
    ensures skipped { work.new.skipped ≡ work.old.skipped }
{
    sets_have_rules(rules);
    let mut oracle = DoorOracle::new(alloc, door);
    let found = analyse_files(alloc, &mut oracle, files, rules, work);
    let _door = door_of(oracle);
    found
}

/// The rows of the files, in their order, over the class folders of a door.
fn all_rows<D: ClassDoor>(
    alloc: Global,
    door: &mut D,
    files: &[(Text, Bytes)],
    rules: &RuleSet,
    work: &mut Work,
) -> Result<PathRows, AskFault>
    ensures rows { IfSome (D.holds door.old) (λ folders. IfOk result (AreRows (folders_world folders).answer rules.now files.now)) }
    ensures finds { IfSome (D.holds door.old) (λ folders. OnOk result (CountsAsked (folders_world folders).answer files.now rules.now (D.finds door.old) (D.finds door.new))) }
    ensures faults { CountsDoorFaults (D.faults door.old) (D.faults door.new) result }
    ensures analysed { OnOk result (work.new.analysed ≡ work.old.analysed ++ map (λ file. file.0) files.now) }
    ensures ran { OnOk result (work.new.ran ≡ work.old.ran ++ evaluated_on rules.now files.now) }
    ensures reused { work.new.reused ≡ work.old.reused }
    ensures skipped { work.new.skipped ≡ work.old.skipped }
{
    let found = file_results(alloc, door, files, rules, work)?;
    match rows_of(alloc, found) {
        Ok(rows) => Ok(rows),
        Err(NoMemory) => Err(AskFault::Memory),
    }
}

/// The report of the rules, with these rows of the files.
pub fn report_of(alloc: Global, files: PathRows, rules: &RuleSet) -> Result<Report, NoMemory>
    ensures rules { IfOk result (λ report. report.rules ≡ map (λ rule. rule.row) rules.now.rules) }
    ensures files { IfOk result (λ report. report.files ≡ files) }
    ensures errors { IfOk result (λ report. report.errors ≡ rules.now.unusable) }
{
    let errors = rules.unusable().copied()?;
    let rules = rule_rows(alloc, rules.rules().as_slice())?;
    Ok(Report {
        rules,
        files,
        errors,
    })
}

/// The cold report of the rules over the sources and the class folders of a door.
pub fn cold_report<D: ClassDoor>(
    alloc: Global,
    door: &mut D,
    sources: &Files,
    rules: &RuleSet,
    work: &mut Work,
) -> Result<Report, AskFault>
    ensures cold { IfSome (D.holds door.old) (λ folders. IfOk result (IsColdOf (folders_world folders).answer sources.now rules.now)) }
    ensures finds { IfSome (D.holds door.old) (λ folders. OnOk result (CountsAsked (folders_world folders).answer sources.now rules.now (D.finds door.old) (D.finds door.new))) }
    ensures faults { CountsDoorFaults (D.faults door.old) (D.faults door.new) result }
    ensures analysed { OnOk result (work.new.analysed ≡ work.old.analysed ++ map (λ file. file.0) sources.now) }
    // Each rule that is active on a source with a tree is evaluated there.
    ensures ran { OnOk result (work.new.ran ≡ work.old.ran ++ evaluated_on rules.now sources.now) }
    ensures reused { work.new.reused ≡ work.old.reused }
    ensures skipped { work.new.skipped ≡ work.old.skipped }
{
    sets_have_rules(rules);
    let files = all_rows(alloc, door, sources.as_slice(), rules, work)?;
    match report_of(alloc, files, rules) {
        Ok(report) => Ok(report),
        Err(NoMemory) => Err(AskFault::Memory),
    }
}
