//! The names on which the rows of a file rest: those that its rules ask, together.
ghost use Rattle.std.specs.Prelude.{◌≡◌, IfOk};
ghost use Rattle.std.specs.Cmp.Lexicographic.{slice_cmp};
ghost use Rattle.std.specs.FinSet as set;
ghost use Rattle.std.specs.List.Sorted.{IsStrictlySortedBy};
ghost use Rattle.std.specs.Ordering.{nat_cmp};
ghost use Rattle.pj_names.specs.ClassName.{name_set};
ghost use Rattle.pj_names.specs.Told.{with_names};
ghost use Rattle.pj_workers.specs.Views.{all_names, rows_by};

use crate::result::{FileResult, FileRuns};
use pj_base::NoMemory;
use pj_findings::{RuleRun, file_rows};
use pj_names::{ClassNameSet, ClassNames};
use std::alloc::Global;

/// The set of the names that the rules asked.
fn names_together(alloc: Global, runs: &[RuleRun]) -> Result<ClassNameSet, NoMemory>
    ensures { IfOk result (λ names. names ≡ with_names set.empty (all_names runs.now)) }
{
    let mut noted = ClassNameSet::new(alloc);
    for run in runs {
        noted.note_all(&run.names)?;
    }
    Ok(noted)
}

/// The names that the rules asked, in the order of their bytes, each once.
fn names_of(alloc: Global, runs: &[RuleRun]) -> Result<ClassNames, NoMemory>
    ensures ascending { IfOk result (λ names. IsStrictlySortedBy (slice_cmp nat_cmp) names) }
    ensures members { IfOk result (λ names. name_set names ≡ with_names set.empty (all_names runs.now)) }
{
    let noted = names_together(alloc, runs)?;
    noted.names(alloc)
}

/// What comes of a file in which the rules came to this.
pub fn result_of(alloc: Global, found: FileRuns) -> Result<FileResult, NoMemory>
    ensures rows { IfOk result (λ made. made.rows ≡ rows_by found) }
    ensures runs { IfOk result (λ made. made.runs ≡ found.runs) }
    ensures ascending { IfOk result (λ made. IsStrictlySortedBy (slice_cmp nat_cmp) made.names) }
    ensures members { IfOk result (λ made. name_set made.names ≡ with_names set.empty (all_names found.runs)) }
{
    let FileRuns { head, runs } = found;
    let names = names_of(alloc, runs.as_slice())?;
    let rows = file_rows(alloc, head, &runs)?;
    Ok(FileResult { rows, names, runs })
}
