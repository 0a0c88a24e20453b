//! New results: what rules came to in a file, each under its key.
ghost use Rattle.std.specs.Prelude.{◌≡◌, ◌<◌, ◌≤◌, IfOk, length};
ghost use Rattle.std.specs.List.{All};
ghost use Rattle.pj_workers.specs.Chosen.{chosen};
ghost use Rattle.pj_cached_files.specs.Made.{IsClassText, new_result, new_results};

use pj_base::{Copied, NoMemory};
use pj_cache::{CachedResult, Group, Key, KeyRows, Results, SharedName, SharedNames};
use pj_findings::{RuleRun, RuleRuns};
use pj_names::{ClassName, ClassNames};
use std::alloc::Global;

/// A name, to be shared.
fn shared_name(alloc: Global, name: ClassName) -> Result<SharedName, NoMemory>
    ensures value { IfOk result (λ shared. shared ≡ name) }
    ensures class { IfOk result (λ shared. IsClassText shared) }
{
    let _ = name.as_str();
    let shared = SharedName::new(alloc, name)?;
    Ok(shared)
}

/// The names, to be shared.
fn shared(alloc: Global, names: ClassNames) -> Result<SharedNames, NoMemory>
    ensures value { IfOk result (λ shared. shared ≡ names) }
    ensures classes { IfOk result (λ shared. All IsClassText shared) }
{
    let mut shared = SharedNames::new(alloc);
    for name in names.into_vec() {
        shared.push(shared_name(alloc, name)?)?;
    }
    Ok(shared)
}

/// The result of a key alone: what its rule came to, with the names that this rule asked.
fn new_result(alloc: Global, key: &Key, run: RuleRun) -> Result<CachedResult, NoMemory>
    ensures value { IfOk result (λ made. made ≡ new_result key.now run) }
    ensures classes { IfOk result (λ made. All IsClassText made.names) }
{
    let RuleRun { rows, names } = run;
    let names = shared(alloc, names)?;
    let mut group = Group::new(alloc);
    group.push(KeyRows {
        key: key.copied()?,
        rows,
    })?;
    Ok(CachedResult { group, names })
}

/// The results of the rules of these numbers, by what they came to. The conditions are that there are keys of these numbers, and no more runs than numbers.
pub fn new_results(
    alloc: Global,
    keys: &[Key],
    which: &[u32],
    runs: RuleRuns,
) -> Result<Results, NoMemory>
    requires numbers { All (λ number. number < length keys.now) which.now }
    requires runs { length runs ≤ length which.now }
    ensures value { IfOk result (λ made. made ≡ new_results (chosen which.now keys.now) runs) }
    // The names of new results are those of classes.
    ensures classes { IfOk result (λ made. All (λ one. All IsClassText one.names) made) }
{
    let mut made = Results::new(alloc);
    let mut place: usize = 0;
    for run in runs.into_vec() {
        let number = which[place] as usize;
        made.push(new_result(alloc, &keys[number], run)?)?;
        place += 1;
    }
    Ok(made)
}
