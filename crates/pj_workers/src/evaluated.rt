//! Which rules were evaluated on files.
ghost use Rattle.std.specs.Prelude.{◌≡◌, ◌++◌, IfOk, OnOk, flat_map};
ghost use Rattle.pj_workers.specs.Evaluated.{with_path};
ghost use Rattle.pj_workers.specs.Views.{evaluated_by};

use crate::numbers::active_numbers;
use crate::result::FileResult;
use crate::work::{Ran, put_ran};
use pj_base::{NoMemory, Numbers, Text};
use pj_findings::RuleRun;
use pj_rule_sets::RuleSet;
use std::alloc::Global;

/// The numbers of the rules that were evaluated on a file of a path in which all rules came to this: of a file without a tree there are no runs.
fn evaluated(
    alloc: Global,
    rules: &RuleSet,
    path: &Text,
    runs: &[RuleRun],
) -> Result<Numbers, NoMemory>
    ensures { IfOk result (λ numbers. numbers ≡ evaluated_by rules.now path.now runs.now) }
{
    if runs.is_empty() {
        return Ok(Numbers::new(alloc));
    }
    active_numbers(alloc, rules, path)
}

/// Puts the rules that were evaluated on a file of a path in which all rules came to this behind others, each with the path.
pub fn put_evaluated(
    alloc: Global,
    ran: &mut Ran,
    rules: &RuleSet,
    path: &Text,
    runs: &[RuleRun],
) -> Result<(), NoMemory>
    ensures { OnOk result (ran.new ≡ ran.old ++ with_path path.now (evaluated_by rules.now path.now runs.now)) }
{
    let numbers = evaluated(alloc, rules, path, runs)?;
    put_ran(ran, path, numbers.as_slice())
}

/// The rules that were evaluated on files of which this came, each with the path of its file.
pub fn evaluated_on(
    alloc: Global,
    rules: &RuleSet,
    found: &[(Text, FileResult)],
) -> Result<Ran, NoMemory>
    ensures { IfOk result (λ ran. ran ≡ flat_map (λ of_file. with_path of_file.0 (evaluated_by rules.now of_file.0 of_file.1.runs)) found.now) }
{
    let mut ran = Ran::new(alloc);
    for of_file in found {
        put_evaluated(
            alloc,
            &mut ran,
            rules,
            &of_file.0,
            of_file.1.runs.as_slice(),
        )?;
    }
    Ok(ran)
}
