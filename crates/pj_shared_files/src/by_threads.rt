//! All files over the cache that a run found, by so many workers over a class path.
ghost use Rattle.std.specs.Prelude.{◌≡◌, ◌≢◌, ◌^◌, ◌<◌, ◌≤◌, IfOk, IsTrue, OnErr, OnOk, is_some, length, map};
ghost use Rattle.std.specs.List.Sorted.{IsStrictlySortedBy};
ghost use Rattle.std.specs.Option.{option_map};
ghost use Rattle.pj_cache.specs.Places.{byte_order};
ghost use Rattle.pj_cache_format.specs.Ordered.{IsInOrder};
ghost use Rattle.pj_cached_files.specs.Asked.{keys_of_set};
ghost use Rattle.pj_cached_files.specs.LeftFiles.{ArePartedBy, path_rows};
ghost use Rattle.pj_grammar.specs.Java17.{java_17_forms};
ghost use Rattle.pj_outside.specs.Doors.{opened};
ghost use Rattle.pj_peg_grammar.specs.Form.{forms_of};
ghost use Rattle.pj_table.specs.Worlds.{CountsFaults};
ghost use Rattle.pj_shared_files.specs.InWorlds.{FoundInWorld, GivesAllBack, LeavesAllIn, ListsIn};

use crate::together::files_together;
use pj_base::{Bytes, Names, Text};
use pj_cached_files::{LeftFiles, Run};
use pj_crew::{open_doors, shut_doors};
use pj_names::AskFault;
use pj_outside::{ClassPath, Refused};
use pj_seats::Gate;
use pj_workers::Work;
use std::alloc::Global;
use std::sync::Wait;
use std::thread::Threads;

/// What a run leaves of files, by so many workers, each with a door of its own to the class folders of these names. Every door that was opened is
/// shut, whatever any worker did. The clauses are those of `files_together`.
pub fn files_by_threads<R: Threads + Wait + Sync, C: ClassPath, G: Gate + Sync>(
    rt: &R,
    alloc: Global,
    classes: &mut C,
    folders: &Names,
    threads: u32,
    run: &Run<'_>,
    files: &[(Text, Bytes)],
    gate: &G,
    work: &mut Work,
) -> Result<LeftFiles, AskFault>
    requires threads { (0 < threads) × (threads ≤ 64) }
    requires grammar { forms_of run.now.grammar.now ≡ java_17_forms }
    requires in_order { IsInOrder run.now.found.now }
    requires keys { run.now.keys.now ≡ keys_of_set run.now.rules.now }
    requires paths { IsStrictlySortedBy byte_order (map (λ file. file.0) files.now) }
    requires few { length files.now < 2 ^ 32 }
    ensures same_folders { C.holds classes.new ≡ C.holds classes.old }
    ensures doors { GivesAllBack (C.given classes.old) (C.given classes.new) (C.taken classes.old) (C.taken classes.new) }
    ensures faults { CountsFaults (C.faults classes.old) (C.faults classes.new) result }
    ensures left { IsTrue (is_some (C.holds classes.old)) → IfOk result (LeavesAllIn (option_map (λ held. opened held folders.now) (C.holds classes.old)) run.now.rules.now run.now.found.now files.now) }
    ensures listed { IsTrue (is_some (C.holds classes.old)) → OnOk result (ListsIn (option_map (λ held. opened held folders.now) (C.holds classes.old)) run.now.rules.now run.now.found.now files.now work.old work.new) }
    ensures finds { IsTrue (is_some (C.holds classes.old)) → OnOk result (FoundInWorld (option_map (λ held. opened held folders.now) (C.holds classes.old)) run.now.rules.now run.now.found.now files.now (C.finds classes.old) (C.finds classes.new)) }
    ensures skipped { work.new.skipped ≡ work.old.skipped }
    ensures err { OnErr result (work.new ≡ work.old) }
    // What follows holds also where the class path tells nothing of its folders.
    ensures parts { OnOk result (ArePartedBy (map (λ file. file.0) files.now) work.old work.new) }
    ensures paths { IfOk result (λ left. map (λ entry. entry.path) left.cache.entries ≡ map (λ file. file.0) files.now) }
    ensures rows { IfOk result (λ left. left.rows ≡ map (path_rows run.now.rules.now) left.cache.entries) }
    ensures ascending { IfOk result (λ left. IsStrictlySortedBy byte_order (map (λ a. a.0) left.cache.answers)) }
{
    let mut doors = Vec::with_capacity(alloc, threads as usize)?;
    let opened = open_doors(classes, folders, threads, &mut doors);
    let left = match opened {
        Ok(()) => files_together(rt, alloc, &mut doors, run, files, gate, work),
        Err(Refused::Failed) => Err(AskFault::Failed),
        Err(Refused::Memory) => Err(AskFault::Memory),
    };
    shut_doors(classes, doors);
    left
}
