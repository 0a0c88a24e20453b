//! What is left of files, put together.
ghost use Rattle.std.specs.Prelude.{◌≡◌, ◌++◌, ◌∷◌, [], IfOk, OnErr, OnOk, length, map, not};
ghost use Rattle.std.specs.List.{AllByRecursion};
ghost use Rattle.pj_cached_files.specs.Asked.{keys_of_set};
ghost use Rattle.pj_cached_files.specs.Gathered.{HasText, put_if};
ghost use Rattle.pj_cached_files.specs.LeftFiles.{path_rows, picked};
ghost use Rattle.pj_shared_files.specs.Gathering.{entries_of, entry_of, flags_of, ran_of};
ghost use Rattle.pj_workers.specs.Evaluated.{with_path};

use crate::rows::rows_by;
use pj_base::{Bytes, Copied, Names, NoMemory, Text};
use pj_cache::{Entries, Entry};
use pj_cached_files::{LeftFile, Run};
use pj_reports::PathRows;
use pj_workers::{Ran, Work, put_ran};
use std::alloc::Global;

/// What was made of files.
#[derive(Drop)]
pub struct AllLeft {
    /// The entries that are left.
    pub entries: Entries,
    /// The rows of each file, with its path.
    pub rows: PathRows,
    /// The paths of those that are used again as they are.
    pub reused: Names,
    /// The paths of those that were analysed.
    pub analysed: Names,
    /// The rules that were evaluated, each with the path of its file.
    pub ran: Ran,
}

/// An entry under a path.
fn with_path(entry: Entry, path: &Text) -> Result<Entry, NoMemory>
    ensures { IfOk result (λ under. under ≡ record entry { path = path.now }) }
{
    let path = path.copied()?;
    let Entry {
        bytes,
        head,
        results,
        ..
    } = entry;
    Ok(Entry {
        path,
        bytes,
        head,
        results,
    })
}

/// Puts a path behind others, if it is to be put there.
fn put_path(paths: &mut Names, path: &Text, is_put: bool) -> Result<(), NoMemory>
    ensures { OnOk result (paths.new ≡ put_if is_put paths.old path.now) }
{
    if !is_put {
        return Ok(());
    }
    paths.push(path.copied()?)?;
    Ok(())
}

impl AllLeft {
    /// Of no files.
    fn new(alloc: Global) -> AllLeft
        ensures { result ≡ record { entries = []; rows = []; reused = []; analysed = []; ran = [] } }
    {
        AllLeft {
            entries: Entries::new(alloc),
            rows: PathRows::new(alloc),
            reused: Names::new(alloc),
            analysed: Names::new(alloc),
            ran: Ran::new(alloc),
        }
    }

    /// Puts what is left of a file behind the others, under the path of the file: what a worker makes is told to be of its file only where
    /// the class folders tell what they hold.
    fn put(
        &mut self,
        alloc: Global,
        run: &Run<'_>,
        file: &(Text, Bytes),
        left: LeftFile,
    ) -> Result<(), NoMemory>
        requires { run.now.keys.now ≡ keys_of_set run.now.rules.now }
        ensures entries { OnOk result (self.new.entries ≡ self.old.entries ++ entry_of file.now left ∷ []) }
        ensures rows { OnOk result (self.new.rows ≡ self.old.rows ++ path_rows run.now.rules.now (entry_of file.now left) ∷ []) }
        ensures reused { OnOk result (self.new.reused ≡ put_if left.is_reused self.old.reused file.now.0) }
        ensures analysed { OnOk result (self.new.analysed ≡ put_if (not left.is_reused) self.old.analysed file.now.0) }
        ensures ran { OnOk result (self.new.ran ≡ self.old.ran ++ with_path file.now.0 left.ran) }
        ensures text { OnOk result (HasText (entry_of file.now left)) }
    {
        let LeftFile {
            entry,
            is_reused,
            ran,
        } = left;
        let entry = with_path(entry, &file.0)?;
        let rows = rows_by(alloc, run, &entry)?;
        self.rows.push((entry.path.copied()?, rows))?;
        put_path(&mut self.reused, &entry.path, is_reused)?;
        put_path(&mut self.analysed, &entry.path, !is_reused)?;
        put_ran(&mut self.ran, &entry.path, ran.as_slice())?;
        self.entries.push(entry)?;
        Ok(())
    }
}

/// What is left of files, one behind the other. The conditions are that the keys are those of the rules, in their order, and that there is
/// what was made of each file.
pub fn gather(
    alloc: Global,
    run: &Run<'_>,
    files: &[(Text, Bytes)],
    made: Vec<LeftFile>,
) -> Result<AllLeft, NoMemory>
    requires keys { run.now.keys.now ≡ keys_of_set run.now.rules.now }
    requires many { length made.items ≡ length files.now }
    ensures entries { IfOk result (λ all. all.entries ≡ entries_of files.now made.items) }
    ensures rows { IfOk result (λ all. all.rows ≡ map (path_rows run.now.rules.now) all.entries) }
    ensures reused { IfOk result (λ all. all.reused ≡ picked (flags_of made.items) (map (λ file. file.0) files.now)) }
    ensures analysed { IfOk result (λ all. all.analysed ≡ picked (map not (flags_of made.items)) (map (λ file. file.0) files.now)) }
    ensures ran { IfOk result (λ all. all.ran ≡ ran_of files.now made.items) }
    ensures texts { IfOk result (λ all. AllByRecursion HasText all.entries) }
{
    let mut all = AllLeft::new(alloc);
    let mut place: usize = 0;
    for left in made {
        all.put(alloc, run, &files[place], left)?;
        place += 1;
    }
    Ok(all)
}

/// Notes what was done with the files. After a refusal nothing is noted.
pub fn note_done(work: &mut Work, reused: Names, analysed: Names, ran: Ran) -> Result<(), NoMemory>
    ensures reused { OnOk result (work.new.reused ≡ work.old.reused ++ reused) }
    ensures analysed { OnOk result (work.new.analysed ≡ work.old.analysed ++ analysed) }
    ensures ran { OnOk result (work.new.ran ≡ work.old.ran ++ ran) }
    ensures skipped { work.new.skipped ≡ work.old.skipped }
    ensures err { OnErr result (work.new ≡ work.old) }
{
    let mut all_reused = work.reused.copied()?;
    all_reused.append(reused)?;
    let mut all_ran = work.ran.copied()?;
    all_ran.append(ran)?;
    work.analysed.append(analysed)?;
    work.reused = all_reused;
    work.ran = all_ran;
    Ok(())
}
