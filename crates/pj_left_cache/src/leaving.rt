//! The cache that a run leaves.
ghost use Rattle.std.specs.Prelude.{◌≡◌, ◌++◌, ◌∷◌, [], IfOk, map};
ghost use Rattle.std.specs.List.Sorted.{IsStrictlySortedBy};
ghost use Rattle.pj_cache.specs.Places.{byte_order};
ghost use Rattle.pj_cache_format.specs.FormatTwo.{names_of};
ghost use Rattle.pj_names.specs.Told.{Asks};
ghost use Rattle.pj_left_cache.specs.Leaving.{answers_behind, left_cache};

use pj_base::{Copied, NoMemory};
use pj_cache::{Cache, Entries, SharedName};
use pj_cache_format::names_of as names_of_entries;
use pj_names::{Answer, Answers, AskFault, ClassName, Oracle};
use std::alloc::Global;
use std::sync::Arc;

/// The answers, with that for another name behind them.
fn with_answer(answers: Answers, name: &ClassName, now: Arc<Answer>) -> Result<Answers, NoMemory>
    ensures { IfOk result (λ more. more ≡ answers ++ (name.now, now.value) ∷ []) }
{
    let mut answers = answers;
    answers.push(name.copied()?, now)?;
    Ok(answers)
}

/// The names with their answers, asked in their order.
#[tactic(auto, using(pj_names::proofs::AskingLaws::asking_loops))]
fn answers_for<O: Oracle>(
    alloc: Global,
    oracle: &mut O,
    names: &[SharedName],
) -> Result<Answers, AskFault>
    ensures asks { Asks (answers_behind [] names.now) (O.tells oracle.old) (O.tells oracle.new) result }
    ensures names { IfOk result (λ answers. map (λ a. a.0) answers ≡ names.now) }
{
    let mut answers = Answers::new(alloc);
    for name in names {
        let name = name.as_name();
        let now = oracle.ask(name)?;
        answers = with_answer(answers, name, now)?;
    }
    Ok(answers)
}

/// The cache of the entries, with the answers for the names of their results: each name is asked once, in the order of the names'
/// bytes, and no other one is.
#[tactic(auto, using(pj_names::proofs::AskingLaws::asking_steps))]
pub fn left_cache<O: Oracle>(
    alloc: Global,
    oracle: &mut O,
    entries: Entries,
) -> Result<Cache, AskFault>
    ensures asks { Asks (left_cache entries) (O.tells oracle.old) (O.tells oracle.new) result }
    // What stands in it holds also where the oracle tells nothing of its worlds.
    ensures entries { IfOk result (λ cache. cache.entries ≡ entries) }
    ensures names { IfOk result (λ cache. map (λ a. a.0) cache.answers ≡ names_of entries) }
    ensures ascending { IfOk result (λ cache. IsStrictlySortedBy byte_order (map (λ a. a.0) cache.answers)) }
{
    let names = names_of_entries(alloc, entries.as_slice())?;
    let answers = answers_for(alloc, oracle, names.as_slice())?;
    Ok(Cache { answers, entries })
}
