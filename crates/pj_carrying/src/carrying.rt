//! A cache of format 1 carried over to format 2.
ghost use Rattle.std.specs.Prelude.{◌≡◌, ◌++◌, IfOk, OnOk, map};
ghost use Rattle.std.specs.Option.{option_copied, option_map};
ghost use Rattle.std.specs.List.Sorted.{IsStrictlySortedBy};
ghost use Rattle.pj_cache.specs.Places.{byte_order};
ghost use Rattle.pj_carry.specs.Carried.{answers_for, cache_of, carried, carried_entries, first_rules, listed};
ghost use Rattle.pj_cache.specs.Found.{first_named};

use crate::entries::carry_entries;
use crate::firsts::first_rules;
use pj_base::{Bytes, Copied, Exact, NoMemory};
use pj_cache::{Cache, Keys, OldCache, OldEntries, SharedName, place_of_name};
use pj_cache_format::names_of;
use pj_names::{Answer, Answers, ClassName};
use std::alloc::Global;
use std::sync::Arc;

/// The answer for a name, with the name, if there is one: by bisection.
fn answer_for<'a>(
    answers: &'a [(ClassName, Arc<Answer>)],
    name: &ClassName,
) -> Option<&'a (ClassName, Arc<Answer>)>
    requires { IsStrictlySortedBy byte_order (map (λ a. a.0) answers.now) }
    ensures { option_copied result ≡ first_named (λ a. a.0) answers.now name.now }
{
    let place = place_of_name(answers, name);
    if place >= answers.len() {
        return None;
    }
    let pair = &answers[place];
    let is_here = pair.0.is(name);
    if !is_here {
        return None;
    }
    Some(pair)
}

/// Puts an answer behind others, if there is one.
fn put_answer(list: &mut Answers, pair: Option<&(ClassName, Arc<Answer>)>) -> Result<(), NoMemory>
    ensures { OnOk result (list.new ≡ list.old ++ listed (option_map (λ a. (a.0, a.1.value)) (option_copied pair.entry))) }
{
    if let Some(pair) = pair {
        list.push(pair.0.copied()?, pair.1.clone()?)?;
    }
    Ok(())
}

/// The answers for names, where there are some.
fn answers_for(
    alloc: Global,
    answers: &[(ClassName, Arc<Answer>)],
    names: &[SharedName],
) -> Result<Answers, NoMemory>
    requires { IsStrictlySortedBy byte_order (map (λ a. a.0) answers.now) }
    ensures { IfOk result (λ list. list ≡ answers_for (map (λ a. (a.0, a.1.value)) answers.now) names.now) }
{
    let mut list = Answers::new(alloc);
    for name in names {
        put_answer(&mut list, answer_for(answers, name.as_name()))?;
    }
    Ok(list)
}

/// The answers for names, where there are some.
fn answers_named(
    alloc: Global,
    answers: &Answers,
    names: &[SharedName],
) -> Result<Answers, NoMemory>
    requires { IsStrictlySortedBy byte_order (map (λ a. a.0) answers.now) }
    ensures { IfOk result (λ list. list ≡ answers_for answers.now names.now) }
{
    answers_for(alloc, answers.as_slice(), names)
}

/// The cache of entries that are carried over, with the answers for the names of their results.
fn carry_all(
    alloc: Global,
    answers: &Answers,
    entries: OldEntries,
    keys: &Keys,
) -> Result<Cache, NoMemory>
    requires { IsStrictlySortedBy byte_order (map (λ a. a.0) answers.now) }
    ensures { IfOk result (λ cache. cache ≡ cache_of answers.now (carried_entries (first_rules keys.now) entries)) }
{
    let firsts = first_rules(alloc, keys.as_slice())?;
    let entries = carry_entries(alloc, keys.len(), &firsts, entries)?;
    let names = names_of(alloc, entries.as_slice())?;
    let answers = answers_named(alloc, answers, names.as_slice())?;
    Ok(Cache { answers, entries })
}

/// What a cache of format 1 becomes in format 2 for rules whose list has this key, and which have these keys, in their order. Each entry
/// becomes one with a result for all keys together: of each key it has the rows of the first rule. A file without a tree becomes an entry
/// with its message. An entry with other rows than a file can have is left out. Where the cache is that of another list of
/// rules, it becomes the cache without entries.
///
/// The condition is that the answers stand in the order of their names' bytes, each once.
pub fn carry(alloc: Global, old: OldCache, key: &Bytes, keys: &Keys) -> Result<Cache, NoMemory>
    requires { IsStrictlySortedBy byte_order (map (λ a. a.0) old.answers) }
    ensures { IfOk result (λ cache. cache ≡ carried old key.now keys.now) }
{
    let OldCache {
        rules,
        answers,
        entries,
    } = old;
    let is_same = rules.is(key);
    if !is_same {
        return Ok(Cache::empty(alloc));
    }
    carry_all(alloc, &answers, entries, keys)
}
