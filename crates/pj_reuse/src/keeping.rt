//! The results of a file that a cache keeps.
ghost use Rattle.std.specs.Prelude.{◌≡◌, IfOk, [], map};
ghost use Rattle.std.specs.List.Sorted.{IsStrictlySortedBy};
ghost use Rattle.pj_names.specs.Told.{Asks};
ghost use Rattle.pj_cache.specs.Places.{byte_order};
ghost use Rattle.pj_reuse.specs.Serving.{is_result_kept, kept_behind, kept_results, with_result};

use crate::serving::{are_kept, has_one, note_keys};
use pj_base::{Copied, NoMemory};
use pj_cache::{Cache, CachedResult, Key, Keys, Results};
use pj_names::{Answer, AskFault, ClassName, Oracle};
use std::alloc::Global;
use std::collections::BTreeSet;
use std::sync::Arc;

/// Whether a result is for one of the keys and stands. The names of one that is for none of them are not asked.
#[tactic(auto, using(pj_names::proofs::AskingLaws::asking_steps))]
fn is_result_kept<O: Oracle>(
    oracle: &mut O,
    answers: &[(ClassName, Arc<Answer>)],
    wanted: &BTreeSet<Key>,
    item: &CachedResult,
) -> Result<bool, AskFault>
    requires { IsStrictlySortedBy byte_order (map (λ a. a.0) answers.now) }
    ensures { Asks (is_result_kept (map (λ a. (a.0, a.1.value)) answers.now) wanted.now.keys item.now) (O.tells oracle.old) (O.tells oracle.new) result }
{
    let is_wanted = has_one(wanted, item.group.as_slice());
    if !is_wanted {
        return Ok(false);
    }
    are_kept(oracle, answers, item.names.as_slice())
}

/// The results, with another one behind them where it is kept.
fn with_result(held: Results, is_kept: bool, item: &CachedResult) -> Result<Results, NoMemory>
    ensures { IfOk result (λ more. more ≡ with_result is_kept held item.now) }
{
    let mut held = held;
    if !is_kept {
        return Ok(held);
    }
    held.push(item.copied()?)?;
    Ok(held)
}

/// The results for one of the keys that stand.
#[tactic(auto, using(pj_names::proofs::AskingLaws::asking_loops))]
fn kept_among<O: Oracle>(
    alloc: Global,
    oracle: &mut O,
    answers: &[(ClassName, Arc<Answer>)],
    wanted: &BTreeSet<Key>,
    items: &[CachedResult],
) -> Result<Results, AskFault>
    requires { IsStrictlySortedBy byte_order (map (λ a. a.0) answers.now) }
    ensures { Asks (kept_behind (map (λ a. (a.0, a.1.value)) answers.now) wanted.now.keys [] items.now) (O.tells oracle.old) (O.tells oracle.new) result }
{
    let mut held = Results::new(alloc);
    for item in items {
        let is_kept = is_result_kept(oracle, answers, wanted, item)?;
        held = with_result(held, is_kept, item)?;
    }
    Ok(held)
}

/// The results for one of the keys, each of whose answers in the cache is what the oracle answers now, in their order. Of each
/// result for one of the keys the names are asked in the order of the result, up to the first one whose answer is another; no
/// other name is asked. The condition is that the answers of the cache stand in the order of their names' bytes, each once.
#[tactic(auto, using(pj_names::proofs::AskingLaws::asking_steps))]
pub fn kept<O: Oracle>(
    alloc: Global,
    oracle: &mut O,
    cache: &Cache,
    results: &[CachedResult],
    keys: &Keys,
) -> Result<Results, AskFault>
    requires { IsStrictlySortedBy byte_order (map (λ a. a.0) cache.now.answers) }
    ensures { Asks (kept_results cache.now.answers results.now keys.now) (O.tells oracle.old) (O.tells oracle.new) result }
{
    let mut wanted = BTreeSet::new(alloc);
    note_keys(&mut wanted, keys.as_slice())?;
    let answers = cache.answers.as_slice();
    kept_among(alloc, oracle, answers, &wanted, results)
}
