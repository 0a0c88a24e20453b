//! All files over the cache that a run found, by several workers.
ghost use Rattle.std.specs.Prelude.{◌≡◌, ◌+◌, ◌^◌, ◌<◌, IfOk, IsTrue, Ok, OnErr, OnOk, is_some, length, map, vec_len};
ghost use Rattle.std.specs.FinSet as set;
ghost use Rattle.std.specs.List.{AllZip};
ghost use Rattle.std.specs.List.Sorted.{IsStrictlySortedBy};
ghost use Rattle.pj_cache.specs.Places.{byte_order};
ghost use Rattle.pj_cache_format.specs.Ordered.{IsInOrder};
ghost use Rattle.pj_cached_files.specs.Asked.{keys_of_set};
ghost use Rattle.pj_cached_files.specs.LeftFiles.{ArePartedBy, path_rows};
ghost use Rattle.pj_crew.specs.Together.{AreOfOneWorld, AreRightParts, first_world};
ghost use Rattle.pj_grammar.specs.Java17.{java_17_forms};
ghost use Rattle.pj_left_cache.specs.Leaving.{left_cache};
ghost use Rattle.pj_names.specs.Told.{Asks, Told};
ghost use Rattle.pj_peg_grammar.specs.Form.{forms_of};
ghost use Rattle.pj_table.specs.Rule.{total};
ghost use Rattle.pj_table.specs.Telling.{tells_of};
ghost use Rattle.pj_table.specs.Worlds.{CountsFaults};
ghost use Rattle.pj_shared_files.specs.InWorlds.{FindInWorld, LeavesAllIn, ListsIn};

use crate::closed_oracle::{ClosedOracle, Knowing};
use crate::files_work::FilesWork;
use crate::gathering::{AllLeft, gather, note_done};
use pj_base::{Bytes, NoMemory, Text};
use pj_cache::{Cache, Entries};
use pj_cached_files::{LeftFile, LeftFiles, Run};
use pj_crew::{CrewResult, work_together};
use pj_left_cache::left_cache;
use pj_names::AskFault;
use pj_outside::ClassDoor;
use pj_seats::Gate;
use pj_table::Closed;
use pj_workers::Work;
use std::alloc::Global;
use std::marker::Brand;
use std::sync::Wait;
use std::thread::Threads;

/// The cache that is left of entries, by the answers of a table at its end. An oracle over the table never fails: only memory may be wanting.
fn cache_of<W: Knowing>(alloc: Global, closed: &Closed, entries: Entries) -> Result<Cache, NoMemory>
    requires { AreRightParts W.world closed.now.parts.items }
    ensures asks { IfOk result (λ cache. (new : Told (Unit {0})) × Asks (left_cache entries) (tells_of tt W.world set.empty 0) new (Ok cache)) }
    ensures entries { IfOk result (λ cache. cache.entries ≡ entries) }
    ensures ascending { IfOk result (λ cache. IsStrictlySortedBy byte_order (map (λ a. a.0) cache.answers)) }
{
    let mut oracle = ClosedOracle::<W>::new(alloc, closed);
    match left_cache(alloc, &mut oracle, entries) {
        Ok(cache) => Ok(cache),
        Err(AskFault::Memory) => Err(NoMemory),
        Err(AskFault::Failed) => unreachable!(),
    }
}

/// The same where the world of the doors has a name. The clauses are those of `files_together`.
fn files_known<R: Threads + Wait + Sync, D: ClassDoor, G: Gate + Sync, W: Knowing>(
    rt: &R,
    alloc: Global,
    doors: &mut Vec<D>,
    run: &Run<'_>,
    files: &[(Text, Bytes)],
    gate: &G,
    work: &mut Work,
) -> Result<LeftFiles, AskFault>
    requires known { W.world ≡ first_world D.holds doors.old.items }
    requires many { (0 < vec_len doors.old) × (vec_len doors.old + 1 < 2 ^ 32) }
    requires world { AreOfOneWorld D.holds doors.old.items }
    requires grammar { forms_of run.now.grammar.now ≡ java_17_forms }
    requires in_order { IsInOrder run.now.found.now }
    requires keys { run.now.keys.now ≡ keys_of_set run.now.rules.now }
    requires paths { IsStrictlySortedBy byte_order (map (λ file. file.0) files.now) }
    requires few { length files.now < 2 ^ 32 }
    ensures same_doors { AllZip (λ after before. D.holds after ≡ D.holds before) doors.new.items doors.old.items }
    ensures faults { CountsFaults (total D.faults doors.old.items) (total D.faults doors.new.items) result }
    // Over a right cache, in a world that has classes by their names, the one that is left is the one that the run has to leave, whoever worked.
    ensures left { IsTrue (is_some (first_world D.holds doors.old.items)) → IfOk result (LeavesAllIn (first_world D.holds doors.old.items) run.now.rules.now run.now.found.now files.now) }
    // Over any cache, right or not, the files that can be used again are, and each class that is asked for is found once, whoever asks.
    ensures listed { IsTrue (is_some (first_world D.holds doors.old.items)) → OnOk result (ListsIn (first_world D.holds doors.old.items) run.now.rules.now run.now.found.now files.now work.old work.new) }
    ensures finds { IsTrue (is_some (first_world D.holds doors.old.items)) → OnOk result (FindInWorld D.finds (first_world D.holds doors.old.items) run.now.rules.now run.now.found.now files.now doors.old.items doors.new.items) }
    ensures skipped { work.new.skipped ≡ work.old.skipped }
    ensures err { OnErr result (work.new ≡ work.old) }
    // What follows holds also where the doors tell nothing of their folders.
    ensures parts { OnOk result (ArePartedBy (map (λ file. file.0) files.now) work.old work.new) }
    ensures paths { IfOk result (λ left. map (λ entry. entry.path) left.cache.entries ≡ map (λ file. file.0) files.now) }
    ensures rows { IfOk result (λ left. left.rows ≡ map (path_rows run.now.rules.now) left.cache.entries) }
    ensures ascending { IfOk result (λ left. IsStrictlySortedBy byte_order (map (λ a. a.0) left.cache.answers)) }
{
    let files_work = FilesWork { run, files };
    let count = files.len() as u32;
    let crew = work_together(rt, alloc, doors, count, &files_work, gate)?;
    let CrewResult { made, closed } = crew;
    let left = gather(alloc, run, files, made)?;
    let AllLeft {
        entries,
        rows,
        reused,
        analysed,
        ran,
    } = left;
    let cache = cache_of::<W>(alloc, &closed, entries)?;
    note_done(work, reused, analysed, ran)?;
    Ok(LeftFiles { cache, rows })
}

/// What a run leaves of files, by a worker for each door: the cache, and the rows of each, as `files_over_cache` gives them. Each file is
/// claimed by one worker, and each class is found once. The paths of the files that are used again as they are, and of those that are
/// analysed, and the rules that are evaluated, are put behind those of `work`; after a refusal `work` is as it was.
///
/// A failed door goes before want of memory. It waits for the threads and for the turns of the table.
///
/// The conditions are those of `file_entry`, that the files stand in the order of their paths' bytes, each path once, that there are less
/// than 4,294,967,296 of them, and that the doors have one world, of one door at least.
pub fn files_together<R: Threads + Wait + Sync, D: ClassDoor, G: Gate + Sync>(
    rt: &R,
    alloc: Global,
    doors: &mut Vec<D>,
    run: &Run<'_>,
    files: &[(Text, Bytes)],
    gate: &G,
    work: &mut Work,
) -> Result<LeftFiles, AskFault>
    requires many { (0 < vec_len doors.old) × (vec_len doors.old + 1 < 2 ^ 32) }
    requires world { AreOfOneWorld D.holds doors.old.items }
    requires grammar { forms_of run.now.grammar.now ≡ java_17_forms }
    requires in_order { IsInOrder run.now.found.now }
    requires keys { run.now.keys.now ≡ keys_of_set run.now.rules.now }
    requires paths { IsStrictlySortedBy byte_order (map (λ file. file.0) files.now) }
    requires few { length files.now < 2 ^ 32 }
    ensures same_doors { AllZip (λ after before. D.holds after ≡ D.holds before) doors.new.items doors.old.items }
    ensures faults { CountsFaults (total D.faults doors.old.items) (total D.faults doors.new.items) result }
    // Over a right cache, in a world that has classes by their names, the one that is left is the one that the run has to leave, whoever worked.
    ensures left { IsTrue (is_some (first_world D.holds doors.old.items)) → IfOk result (LeavesAllIn (first_world D.holds doors.old.items) run.now.rules.now run.now.found.now files.now) }
    // Over any cache, right or not, the files that can be used again are, and each class that is asked for is found once, whoever asks.
    ensures listed { IsTrue (is_some (first_world D.holds doors.old.items)) → OnOk result (ListsIn (first_world D.holds doors.old.items) run.now.rules.now run.now.found.now files.now work.old work.new) }
    ensures finds { IsTrue (is_some (first_world D.holds doors.old.items)) → OnOk result (FindInWorld D.finds (first_world D.holds doors.old.items) run.now.rules.now run.now.found.now files.now doors.old.items doors.new.items) }
    ensures skipped { work.new.skipped ≡ work.old.skipped }
    ensures err { OnErr result (work.new ≡ work.old) }
    // What follows holds also where the doors tell nothing of their folders.
    ensures parts { OnOk result (ArePartedBy (map (λ file. file.0) files.now) work.old work.new) }
    ensures paths { IfOk result (λ left. map (λ entry. entry.path) left.cache.entries ≡ map (λ file. file.0) files.now) }
    ensures rows { IfOk result (λ left. left.rows ≡ map (path_rows run.now.rules.now) left.cache.entries) }
    ensures ascending { IfOk result (λ left. IsStrictlySortedBy byte_order (map (λ a. a.0) left.cache.answers)) }
{
    files_known::<R, D, G, Brand>(rt, alloc, doors, run, files, gate, work)
}
