//! A file over the cache that a run found.
ghost use Rattle.std.specs.Prelude.{◌≡◌, List, [], IfOk, None, Some, map};
ghost use Rattle.std.specs.List.Sorted.{IsStrictlySortedBy};
ghost use Rattle.pj_cache.specs.Places.{byte_order};
ghost use Rattle.pj_cache_format.specs.Ordered.{IsInOrder};
ghost use Rattle.pj_fitting.specs.Left.{entry_at};
ghost use Rattle.pj_grammar.specs.Java17.{java_17_forms};
ghost use Rattle.pj_names.specs.Told.{Asks, seen};
ghost use Rattle.pj_peg_grammar.specs.Form.{forms_of};
ghost use Rattle.pj_reuse.specs.Serving.{kept_results};
ghost use Rattle.pj_workers.specs.Rules.{AreRulesOf, Rule as MeantRule};
ghost use Rattle.pj_cached_files.specs.Asked.{active_keys_of, keys_of_set, looked_at, missing_numbers, reused_at};
ghost use Rattle.pj_cached_files.specs.Completed.{IsCompleted, IsUsedAgain, where_tree};
ghost use Rattle.pj_cached_files.specs.LeftFile.{Evaluates, Leaves, Looks, NamesAreAsked, Reuses};

use crate::activity::active_keys;
use crate::entry::{LeftFile, copied_head, entry_with};
use crate::made::new_results;
use crate::old::{old_entry, says_no_tree};
use crate::run::Run;
use pj_base::{Bytes, NoMemory, Numbers, Text};
use pj_cache::{CachedResult, Entry, Results};
use pj_cache_format::order_is_strict;
use pj_left_cache::{in_order, missing_rules};
use pj_names::{AskFault, Oracle};
use pj_reports::Head;
use pj_reuse::kept;
use pj_rule_sets::which_are_active;
use pj_workers::{FileRuns, analyse_rules, rules_find_nodes, sets_have_rules};
use std::alloc::Global;

/// The old results that stay at a file, and the numbers of the active rules for whose keys none does.
#[derive(Drop)]
struct Part {
    /// The results that stay.
    stay: Results,
    /// The numbers of the rules that are missing.
    missing: Numbers,
}

/// What stays of old results at a file of a path, and what is missing there.
fn part_of<O: Oracle>(
    alloc: Global,
    run: &Run<'_>,
    oracle: &mut O,
    path: &Text,
    old: &[CachedResult],
) -> Result<Part, AskFault>
    requires answers { IsStrictlySortedBy byte_order (map (λ a. a.0) run.now.found.now.answers) }
    requires keys { run.now.keys.now ≡ keys_of_set run.now.rules.now }
    ensures asks { Asks (kept_results run.now.found.now.answers old.now (active_keys_of run.now.rules.now path.now)) (O.tells oracle.old) (O.tells oracle.new) (seen (λ part. part.stay) result) }
    ensures missing { IfOk result (λ part. part.missing ≡ missing_numbers run.now.rules.now path.now part.stay) }
{
    let keys = run.keys.as_slice();
    let is_active = which_are_active(alloc, run.rules.rules().as_slice(), path.as_str())?;
    let wanted = active_keys(alloc, keys, is_active.as_slice())?;
    let stay = kept(alloc, oracle, run.found, old, &wanted)?;
    let missing = missing_rules(alloc, stay.as_slice(), keys, is_active.as_slice())?;
    Ok(Part { stay, missing })
}

/// Of the rules of these numbers that were looked at at a file with this head those that were evaluated: none where it has no tree.
fn evaluated(alloc: Global, head: &Head, numbers: Numbers) -> Numbers
    ensures { result ≡ where_tree head.now numbers }
{
    match head {
        Head::Package(_) => numbers,
        Head::Message(_) => Numbers::new(alloc),
    }
}

/// What is left of a file of which rules are missing: they are looked at.
fn completed<O: Oracle>(
    alloc: Global,
    run: &Run<'_>,
    oracle: &mut O,
    path: &Text,
    bytes: &Bytes,
    part: Part,
) -> Result<LeftFile, AskFault>
    requires grammar { forms_of run.now.grammar.now ≡ java_17_forms }
    requires keys { run.now.keys.now ≡ keys_of_set run.now.rules.now }
    requires missing { part.missing ≡ missing_numbers run.now.rules.now path.now part.stay }
    ensures asks { (meant : List MeantRule) → AreRulesOf run.now.rules.now meant → Asks (looked_at meant (path.now, bytes.now) part.missing) (O.tells oracle.old) (O.tells oracle.new) (seen (λ left. left.is_reused) result) }
    ensures left { IfOk result (IsCompleted (O.tells oracle.old) run.now.rules.now (path.now, bytes.now) part.stay) }
{
    sets_have_rules(run.rules);
    let Part { stay, missing } = part;
    let found = analyse_rules(alloc, run.grammar, oracle, path, bytes, run.rules, &missing)?;
    let FileRuns { head, runs } = found;
    let made = new_results(alloc, run.keys.as_slice(), missing.as_slice(), runs)?;
    let results = in_order(stay, made)?;
    let ran = evaluated(alloc, &head, missing);
    let entry = entry_with(path, bytes, head, results)?;
    Ok(LeftFile {
        entry,
        is_reused: false,
        ran,
    })
}

/// What is left of a file that is used again as it is, with its old head and the results that stay.
fn used_again(
    alloc: Global,
    path: &Text,
    bytes: &Bytes,
    head: &Head,
    stay: Results,
) -> Result<LeftFile, NoMemory>
    ensures { IfOk result (IsUsedAgain (path.now, bytes.now) head.now stay) }
{
    let results = in_order(stay, Results::new(alloc))?;
    let entry = entry_with(path, bytes, copied_head(head)?, results)?;
    Ok(LeftFile {
        entry,
        is_reused: true,
        ran: Numbers::new(alloc),
    })
}

/// What a run leaves of a file of which the cache has an entry with the same bytes. The clauses are those of `file_entry`.
fn entry_again<O: Oracle>(
    alloc: Global,
    run: &Run<'_>,
    oracle: &mut O,
    path: &Text,
    bytes: &Bytes,
    old: &Entry,
) -> Result<LeftFile, AskFault>
    requires grammar { forms_of run.now.grammar.now ≡ java_17_forms }
    requires in_order { IsInOrder run.now.found.now }
    requires keys { run.now.keys.now ≡ keys_of_set run.now.rules.now }
    requires entry { entry_at run.now.found.now (path.now, bytes.now) ≡ Some old.now }
    ensures asks { (meant : List MeantRule) → AreRulesOf run.now.rules.now meant
        → Asks (reused_at run.now.found.now run.now.rules.now meant (path.now, bytes.now)) (O.tells oracle.old) (O.tells oracle.new) (seen (λ left. left.is_reused) result) }
    ensures left { IfOk result (Leaves (O.tells oracle.old) run.now.rules.now run.now.found.now (path.now, bytes.now)) }
    ensures reused { IfOk result (Reuses (O.tells oracle.old) run.now.rules.now run.now.found.now (path.now, bytes.now)) }
    ensures ran { IfOk result (Evaluates (O.tells oracle.old) run.now.rules.now run.now.found.now (path.now, bytes.now)) }
    ensures looked { IfOk result (λ _. Looks (O.tells oracle.old) (O.tells oracle.new).asked run.now.rules.now run.now.found.now (path.now, bytes.now)) }
    ensures named { IfOk result (λ left. NamesAreAsked (O.tells oracle.old) run.now.rules.now run.now.found.now (path.now, bytes.now) left.entry.results) }
    ensures path { IfOk result (λ left. left.entry.path ≡ path.now) }
{
    order_is_strict();
    rules_find_nodes();
    if says_no_tree(old) {
        return Ok(used_again(alloc, path, bytes, &old.head, Results::new(alloc))?);
    }
    let part = part_of(alloc, run, oracle, path, old.results.as_slice())?;
    if part.missing.is_empty() {
        let Part { stay, .. } = part;
        return Ok(used_again(alloc, path, bytes, &old.head, stay)?);
    }
    let left = completed(alloc, run, oracle, path, bytes, part)?;
    Ok(left)
}

/// What a run leaves of a file of which the cache has no entry with the same bytes. The clauses are those of `file_entry`.
fn entry_anew<O: Oracle>(
    alloc: Global,
    run: &Run<'_>,
    oracle: &mut O,
    path: &Text,
    bytes: &Bytes,
) -> Result<LeftFile, AskFault>
    requires grammar { forms_of run.now.grammar.now ≡ java_17_forms }
    requires in_order { IsInOrder run.now.found.now }
    requires keys { run.now.keys.now ≡ keys_of_set run.now.rules.now }
    requires entry { entry_at run.now.found.now (path.now, bytes.now) ≡ None }
    ensures asks { (meant : List MeantRule) → AreRulesOf run.now.rules.now meant
        → Asks (reused_at run.now.found.now run.now.rules.now meant (path.now, bytes.now)) (O.tells oracle.old) (O.tells oracle.new) (seen (λ left. left.is_reused) result) }
    ensures left { IfOk result (Leaves (O.tells oracle.old) run.now.rules.now run.now.found.now (path.now, bytes.now)) }
    ensures reused { IfOk result (Reuses (O.tells oracle.old) run.now.rules.now run.now.found.now (path.now, bytes.now)) }
    ensures ran { IfOk result (Evaluates (O.tells oracle.old) run.now.rules.now run.now.found.now (path.now, bytes.now)) }
    ensures looked { IfOk result (λ _. Looks (O.tells oracle.old) (O.tells oracle.new).asked run.now.rules.now run.now.found.now (path.now, bytes.now)) }
    ensures named { IfOk result (λ left. NamesAreAsked (O.tells oracle.old) run.now.rules.now run.now.found.now (path.now, bytes.now) left.entry.results) }
    ensures path { IfOk result (λ left. left.entry.path ≡ path.now) }
{
    order_is_strict();
    rules_find_nodes();
    let part = part_of(alloc, run, oracle, path, &[])?;
    let left = completed(alloc, run, oracle, path, bytes, part)?;
    Ok(left)
}

/// What a run leaves of a file, over the cache that it found, and whether the file is used again as it is.
///
/// Where the cache has an entry of the path with the same bytes, its results for the keys of active rules stay, as far as each class that they name has the
/// same answer now. Only active rules without such a result are looked at, one of each key. Where there are none, or the old entry says that the file has no
/// tree, nothing of the file is read again. Memory is wanted for a file of more than 4,294,967,294 bytes, too, if it is looked at.
///
/// The conditions are that the grammar is that of Java 17, that the cache is in order, and that the keys are those of the rules, in their order.
pub fn file_entry<O: Oracle>(
    alloc: Global,
    run: &Run<'_>,
    oracle: &mut O,
    path: &Text,
    bytes: &Bytes,
) -> Result<LeftFile, AskFault>
    requires grammar { forms_of run.now.grammar.now ≡ java_17_forms }
    requires in_order { IsInOrder run.now.found.now }
    requires keys { run.now.keys.now ≡ keys_of_set run.now.rules.now }
    // Whether the file is used again follows from the cache, the rules and the world, and just the names of this question are asked.
    ensures asks { (meant : List MeantRule) → AreRulesOf run.now.rules.now meant
        → Asks (reused_at run.now.found.now run.now.rules.now meant (path.now, bytes.now)) (O.tells oracle.old) (O.tells oracle.new) (seen (λ left. left.is_reused) result) }
    // Over a right cache the entry is the one that the run has to leave, and the file is used again exactly where it can be.
    ensures left { IfOk result (Leaves (O.tells oracle.old) run.now.rules.now run.now.found.now (path.now, bytes.now)) }
    // Over any cache, right or not, it is used again where it can be.
    ensures reused { IfOk result (Reuses (O.tells oracle.old) run.now.rules.now run.now.found.now (path.now, bytes.now)) }
    // Just those rules are evaluated that are active and not served, of each key the first one.
    ensures ran { IfOk result (Evaluates (O.tells oracle.old) run.now.rules.now run.now.found.now (path.now, bytes.now)) }
    // The names asked are those by which it is told which results stand, and those for which the other rules ask.
    ensures looked { IfOk result (λ _. Looks (O.tells oracle.old) (O.tells oracle.new).asked run.now.rules.now run.now.found.now (path.now, bytes.now)) }
    // The classes that the entry names are among them.
    ensures named { IfOk result (λ left. NamesAreAsked (O.tells oracle.old) run.now.rules.now run.now.found.now (path.now, bytes.now) left.entry.results) }
    ensures path { IfOk result (λ left. left.entry.path ≡ path.now) }
{
    order_is_strict();
    match old_entry(run.found, path, bytes) {
        Some(old) => entry_again(alloc, run, oracle, path, bytes, old),
        None => entry_anew(alloc, run, oracle, path, bytes),
    }
}
