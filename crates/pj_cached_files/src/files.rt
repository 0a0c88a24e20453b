//! All files over the cache that a run found.
ghost use Rattle.std.specs.Prelude.{◌≡◌, ◌++◌, ◌∷◌, [], List, IfOk, OnErr, OnOk, map, not};
ghost use Rattle.std.specs.List.{AllByRecursion};
ghost use Rattle.std.specs.List.Sorted.{IsStrictlySortedBy};
ghost use Rattle.pj_cache.specs.Places.{byte_order};
ghost use Rattle.pj_cache.specs.declared.cache.Entry.{Entry as EntrySeen};
ghost use Rattle.pj_cache_format.specs.Ordered.{IsInOrder};
ghost use Rattle.pj_grammar.specs.Java17.{java_17_forms};
ghost use Rattle.pj_left_cache.specs.Leaving.{left_cache};
ghost use Rattle.pj_names.specs.Asking.{bind, each};
ghost use Rattle.pj_names.specs.Told.{Asks, seen};
ghost use Rattle.pj_peg_grammar.specs.Form.{forms_of};
ghost use Rattle.pj_workers.specs.Evaluated.{with_path};
ghost use Rattle.pj_workers.specs.Rules.{AreRulesOf, Rule as MeantRule};
ghost use Rattle.pj_cached_files.specs.Asked.{asked_at_all, keys_of_set, reused_at};
ghost use Rattle.pj_cached_files.specs.Gathered.{AreParted, Gathers, HasText, ListsGathered, NamesAreAskedAt, apart, put_if};
ghost use Rattle.pj_cached_files.specs.LeftFile.{Evaluates, Leaves, Looks, NamesAreAsked, Reuses};
ghost use Rattle.pj_cached_files.specs.LeftFiles.{ArePartedBy, Does, LeavesAll, Lists, LooksAtAll, path_rows};

use crate::entry::LeftFile;
use crate::file::file_entry;
use crate::rows::rows_by;
use crate::run::Run;
use pj_base::{Bytes, Copied, Names, NoMemory, Text};
use pj_cache::{Cache, Entries};
use pj_left_cache::left_cache;
use pj_names::{AskFault, Oracle};
use pj_reports::PathRows;
use pj_workers::{Ran, Work, put_ran};
use std::alloc::Global;

/// What a run leaves of files.
#[derive(Drop)]
pub struct LeftFiles {
    /// The cache that is left.
    pub cache: Cache,
    /// The rows of each file, with its path, in the order of the files.
    pub rows: PathRows,
}

/// What was made of files so far.
#[derive(Drop)]
struct Gathered {
    /// The entries that are left.
    entries: Entries,
    /// The rows of each file, with its path.
    rows: PathRows,
    /// The paths of those that are used again as they are.
    reused: Names,
    /// The paths of those that were analysed.
    analysed: Names,
    /// The rules that were evaluated, each with the path of its file.
    ran: Ran,
}

/// Puts a path behind others, if it is to be put there.
fn put_path(paths: &mut Names, path: &Text, is_put: bool) -> Result<(), NoMemory>
    ensures { OnOk result (paths.new ≡ put_if is_put paths.old path.now) }
{
    if !is_put {
        return Ok(());
    }
    paths.push(path.copied()?)?;
    Ok(())
}

impl Gathered {
    /// Of no files.
    fn new(alloc: Global) -> Gathered
        ensures { result ≡ record { entries = []; rows = []; reused = []; analysed = []; ran = [] } }
    {
        Gathered {
            entries: Entries::new(alloc),
            rows: PathRows::new(alloc),
            reused: Names::new(alloc),
            analysed: Names::new(alloc),
            ran: Ran::new(alloc),
        }
    }

    /// Puts what is left of a file behind the others.
    fn put(&mut self, alloc: Global, run: &Run<'_>, left: LeftFile) -> Result<(), NoMemory>
        requires { run.now.keys.now ≡ keys_of_set run.now.rules.now }
        ensures entries { OnOk result (self.new.entries ≡ self.old.entries ++ left.entry ∷ []) }
        ensures rows { OnOk result (self.new.rows ≡ self.old.rows ++ path_rows run.now.rules.now left.entry ∷ []) }
        ensures reused { OnOk result (self.new.reused ≡ put_if left.is_reused self.old.reused left.entry.path) }
        ensures analysed { OnOk result (self.new.analysed ≡ put_if (not left.is_reused) self.old.analysed left.entry.path) }
        ensures ran { OnOk result (self.new.ran ≡ self.old.ran ++ with_path left.entry.path left.ran) }
        ensures text { OnOk result (HasText left.entry) }
    {
        let LeftFile {
            entry,
            is_reused,
            ran,
        } = left;
        let rows = rows_by(alloc, run, &entry)?;
        self.rows.push((entry.path.copied()?, rows))?;
        put_path(&mut self.reused, &entry.path, is_reused)?;
        put_path(&mut self.analysed, &entry.path, !is_reused)?;
        put_ran(&mut self.ran, &entry.path, ran.as_slice())?;
        self.entries.push(entry)?;
        Ok(())
    }
}

/// What is left of a file with its path.
fn next_entry<O: Oracle>(
    alloc: Global,
    run: &Run<'_>,
    oracle: &mut O,
    file: &(Text, Bytes),
) -> Result<LeftFile, AskFault>
    requires grammar { forms_of run.now.grammar.now ≡ java_17_forms }
    requires in_order { IsInOrder run.now.found.now }
    requires keys { run.now.keys.now ≡ keys_of_set run.now.rules.now }
    ensures asks { (meant : List MeantRule) → AreRulesOf run.now.rules.now meant
        → Asks (reused_at run.now.found.now run.now.rules.now meant file.now) (O.tells oracle.old) (O.tells oracle.new) (seen (λ left. left.is_reused) result) }
    ensures left { IfOk result (Leaves (O.tells oracle.old) run.now.rules.now run.now.found.now file.now) }
    ensures reused { IfOk result (Reuses (O.tells oracle.old) run.now.rules.now run.now.found.now file.now) }
    ensures ran { IfOk result (Evaluates (O.tells oracle.old) run.now.rules.now run.now.found.now file.now) }
    ensures looked { IfOk result (λ _. Looks (O.tells oracle.old) (O.tells oracle.new).asked run.now.rules.now run.now.found.now file.now) }
    ensures named { IfOk result (λ left. NamesAreAsked (O.tells oracle.old) run.now.rules.now run.now.found.now file.now left.entry.results) }
    ensures path { IfOk result (λ left. left.entry.path ≡ file.now.0) }
{
    file_entry(alloc, run, oracle, &file.0, &file.1)
}

/// What is made of files, one after the other.
fn gather_files<O: Oracle>(
    alloc: Global,
    run: &Run<'_>,
    oracle: &mut O,
    files: &[(Text, Bytes)],
) -> Result<Gathered, AskFault>
    requires grammar { forms_of run.now.grammar.now ≡ java_17_forms }
    requires in_order { IsInOrder run.now.found.now }
    requires keys { run.now.keys.now ≡ keys_of_set run.now.rules.now }
    ensures asks { (meant : List MeantRule) → AreRulesOf run.now.rules.now meant
        → Asks (asked_at_all run.now.found.now run.now.rules.now meant files.now) (O.tells oracle.old) (O.tells oracle.new) (seen apart result) }
    ensures gathered { IfOk result (Gathers (O.tells oracle.old) run.now.rules.now run.now.found.now files.now) }
    ensures listed { IfOk result (ListsGathered (O.tells oracle.old) run.now.rules.now run.now.found.now files.now) }
    ensures parted { IfOk result (AreParted (map (λ file. file.0) files.now)) }
    ensures paths { IfOk result (λ all. map (λ entry. entry.path) all.entries ≡ map (λ file. file.0) files.now) }
    ensures rows { IfOk result (λ all. all.rows ≡ map (path_rows run.now.rules.now) all.entries) }
    ensures texts { IfOk result (λ all. AllByRecursion HasText all.entries) }
    ensures looked { IfOk result (λ _. LooksAtAll (O.tells oracle.old) (O.tells oracle.new).asked run.now.rules.now run.now.found.now files.now) }
    ensures named { IfOk result (λ all. NamesAreAskedAt (O.tells oracle.old) run.now.rules.now run.now.found.now files.now all.entries) }
{
    let mut all = Gathered::new(alloc);
    for file in files {
        let left = next_entry(alloc, run, oracle, file)?;
        all.put(alloc, run, left)?;
    }
    Ok(all)
}

/// Notes what was done with the files. After a refusal nothing is noted.
fn note_done(work: &mut Work, reused: Names, analysed: Names, ran: Ran) -> Result<(), NoMemory>
    ensures reused { OnOk result (work.new.reused ≡ work.old.reused ++ reused) }
    ensures analysed { OnOk result (work.new.analysed ≡ work.old.analysed ++ analysed) }
    ensures ran { OnOk result (work.new.ran ≡ work.old.ran ++ ran) }
    ensures skipped { work.new.skipped ≡ work.old.skipped }
    ensures err { OnErr result (work.new ≡ work.old) }
{
    let mut all_reused = work.reused.copied()?;
    all_reused.append(reused)?;
    let mut all_ran = work.ran.copied()?;
    all_ran.append(ran)?;
    work.analysed.append(analysed)?;
    work.reused = all_reused;
    work.ran = all_ran;
    Ok(())
}

/// What a run leaves of files, one after the other, in their order: the cache, and the rows of each. One tree is held at a time. The paths of the files that are used
/// again as they are, those of the files that are analysed, and the rules that are evaluated are put behind those of `work`; after a refusal `work` is as it was.
///
/// The conditions are those of `file_entry`, and that the files stand in the order of their paths' bytes, each path once.
pub fn files_over_cache<O: Oracle>(
    alloc: Global,
    run: &Run<'_>,
    oracle: &mut O,
    files: &[(Text, Bytes)],
    work: &mut Work,
) -> Result<LeftFiles, AskFault>
    requires grammar { forms_of run.now.grammar.now ≡ java_17_forms }
    requires in_order { IsInOrder run.now.found.now }
    requires keys { run.now.keys.now ≡ keys_of_set run.now.rules.now }
    requires paths { IsStrictlySortedBy byte_order (map (λ file. file.0) files.now) }
    // The files are asked about one after the other, and then the answers that are left.
    ensures asks { (meant : List MeantRule) → AreRulesOf run.now.rules.now meant
        → (entries : List EntrySeen) × Asks (bind (each (reused_at run.now.found.now run.now.rules.now meant) files.now) (λ reused. left_cache entries)) (O.tells oracle.old) (O.tells oracle.new) (seen (λ left. left.cache) result) }
    // The entries name no class that was not asked about at the files, so that the answers are asked for once more, and no other ones: this holds after a refusal, too.
    ensures asks_files { (meant : List MeantRule) → AreRulesOf run.now.rules.now meant
        → Asks (asked_at_all run.now.found.now run.now.rules.now meant files.now) (O.tells oracle.old) (O.tells oracle.new) (seen (λ left. tt) result) }
    // Over a right cache, in a world that has classes by their names, the one that is left is the one that the run has to leave, and the rows are what it says.
    ensures left { IfOk result (LeavesAll (O.tells oracle.old) run.now.rules.now run.now.found.now files.now) }
    // Over any cache, right or not, these are the names asked, the files that can be used again are, and no rule is evaluated but one that has to be.
    ensures looked { IfOk result (λ _. LooksAtAll (O.tells oracle.old) (O.tells oracle.new).asked run.now.rules.now run.now.found.now files.now) }
    ensures listed { OnOk result (Lists (O.tells oracle.old) run.now.rules.now run.now.found.now files.now work.old work.new) }
    ensures done { OnOk result (Does (O.tells oracle.old) run.now.rules.now run.now.found.now files.now work.old work.new) }
    ensures skipped { work.new.skipped ≡ work.old.skipped }
    ensures err { OnErr result (work.new ≡ work.old) }
    // What follows holds also where the oracle tells nothing of its worlds.
    ensures parts { OnOk result (ArePartedBy (map (λ file. file.0) files.now) work.old work.new) }
    ensures paths { IfOk result (λ left. map (λ entry. entry.path) left.cache.entries ≡ map (λ file. file.0) files.now) }
    ensures rows { IfOk result (λ left. left.rows ≡ map (path_rows run.now.rules.now) left.cache.entries) }
    ensures ascending { IfOk result (λ left. IsStrictlySortedBy byte_order (map (λ a. a.0) left.cache.answers)) }
{
    let all = gather_files(alloc, run, oracle, files)?;
    let Gathered {
        entries,
        rows,
        reused,
        analysed,
        ran,
    } = all;
    let cache = left_cache(alloc, oracle, entries)?;
    note_done(work, reused, analysed, ran)?;
    Ok(LeftFiles { cache, rows })
}
