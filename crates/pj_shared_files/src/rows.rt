//! The rows of a file by its entry.
ghost use Rattle.std.specs.Prelude.{◌≡◌, IfOk, map};
ghost use Rattle.pj_cached_files.specs.Asked.{keys_of_set};
ghost use Rattle.pj_cached_files.specs.Gathered.{HasText};
ghost use Rattle.pj_cached_files.specs.LeftFiles.{rows_said};

use pj_base::{Copied, ListOf, NoMemory};
use pj_cache::Entry;
use pj_cached_files::Run;
use pj_findings::{RuleRun, RuleRuns, file_rows};
use pj_left_cache::rows_of_rules;
use pj_names::ClassNames;
use pj_reports::{FileRows, Head, Ruled};
use pj_rule_sets::which_are_active;
use std::alloc::Global;

/// Runs in which rules came to this, without names.
fn nameless_runs(alloc: Global, said: ListOf<Ruled>) -> Result<RuleRuns, NoMemory>
    ensures { IfOk result (λ runs. map (λ run. run.rows) runs ≡ said) }
{
    let mut runs = RuleRuns::new(alloc);
    for rows in said.into_vec() {
        runs.push(RuleRun {
            rows,
            names: ClassNames::new(alloc),
        })?;
    }
    Ok(runs)
}

/// The path of an entry. Its bytes are those of a text, as contracts see only where it is read.
fn path_text(entry: &Entry) -> &str
    ensures value { result.now ≡ entry.now.path }
    ensures text { HasText entry.now }
{
    entry.path.as_str()
}

/// An equal head.
fn copied_head(head: &Head) -> Result<Head, NoMemory>
    ensures { IfOk result (λ copy. copy ≡ head.now) }
{
    Ok(match head {
        Head::Package(name) => Head::Package(name.copied()?),
        Head::Message(message) => Head::Message(message.copied()?),
    })
}

/// The rows of a file by its entry: its head with what its results say of each rule, merged. The condition is that the keys are those of
/// the rules, in their order.
pub fn rows_by(alloc: Global, run: &Run<'_>, entry: &Entry) -> Result<FileRows, NoMemory>
    requires { run.now.keys.now ≡ keys_of_set run.now.rules.now }
    ensures rows { IfOk result (λ rows. rows ≡ rows_said run.now.rules.now entry.now) }
    ensures text { HasText entry.now }
{
    let rules = run.rules.rules().as_slice();
    let is_active = which_are_active(alloc, rules, path_text(entry))?;
    let results = entry.results.as_slice();
    let keys = run.keys.as_slice();
    let said = rows_of_rules(alloc, results, keys, is_active.as_slice())?;
    let runs = nameless_runs(alloc, said)?;
    let head = copied_head(&entry.head)?;
    file_rows(alloc, head, &runs)
}
