//! The most specific of applicable candidates (JLS 15.12.2.5).
ghost use Rattle.std.specs.Prelude.{◌≡◌, IfOk, IfSome};
ghost use Rattle.pj_names.specs.JavaType.{java_type, type_list};
ghost use Rattle.pj_names.specs.Told.{Asks};
ghost use Rattle.pj_overload.specs.Inside.{IsChoiceAmong, IsNumberAmong};
ghost use Rattle.pj_overload.specs.Seen.{candidate_seen, candidates_seen};
ghost use Rattle.pj_overload.specs.Specific.{all_under, best_of, compared, is_itself_or_under, is_more_specific, is_most_specific, most_specific, most_specific_at, number_if, one_or_tie, under_by_types};

use crate::candidates::{Candidate, Candidates};
use crate::choice::Choice;
use crate::phase::Phase;
use crate::variable_arity::variable_arity_types;
use pj_names::{AskFault, Oracle, Ty};
use pj_types::is_subtype;
use std::alloc::Global;

/// Whether each type is under the one at its place, from left to right, up to the first that is not.
#[tactic(auto, using(crate::proofs::Turns::asking_turns))]
fn all_under<O: Oracle>(
    alloc: Global,
    oracle: &mut O,
    lowers: &[Ty],
    uppers: &[Ty],
) -> Result<bool, AskFault>
    ensures { Asks (all_under (type_list lowers.now) (type_list uppers.now)) (O.tells oracle.old) (O.tells oracle.new) result }
{
    for (place, lower) in lowers.iter().enumerate() {
        let Some(upper) = uppers.get(place) else {
            return Ok(true);
        };
        let is_under = is_subtype(alloc, oracle, lower, upper)?;
        if !is_under {
            return Ok(false);
        }
    }
    Ok(true)
}

/// How many types of methods of variable arity are compared: as many as there are arguments, and one more where the other method
/// has just one parameter more than that.
fn compared(count: usize, other: &Candidate) -> usize
    ensures { result ≡ compared count (candidate_seen other.now) }
{
    let parameters = other.parameters.len();
    if parameters > count && parameters - count == 1 {
        parameters
    } else {
        count
    }
}

/// Whether the variable arity parameter types of a candidate, so many of them, are each under those of another one.
#[tactic(auto, using(pj_names::proofs::AskingLaws::asking_steps))]
fn under_by_types<O: Oracle>(
    alloc: Global,
    oracle: &mut O,
    count: usize,
    candidate: &Candidate,
    other: &Candidate,
) -> Result<bool, AskFault>
    ensures { Asks (under_by_types count (candidate_seen candidate.now) (candidate_seen other.now)) (O.tells oracle.old) (O.tells oracle.new) result }
{
    let lowers = variable_arity_types(alloc, count, &candidate.parameters)?;
    let uppers = variable_arity_types(alloc, count, &other.parameters)?;
    all_under(alloc, oracle, lowers.as_slice(), uppers.as_slice())
}

/// Whether the parameters of a candidate are each under those of another one.
#[tactic(auto, using(pj_names::proofs::AskingLaws::asking_steps))]
fn is_more_specific<O: Oracle>(
    alloc: Global,
    oracle: &mut O,
    phase: Phase,
    count: usize,
    candidate: &Candidate,
    other: &Candidate,
) -> Result<bool, AskFault>
    ensures { Asks (is_more_specific phase count (candidate_seen candidate.now) (candidate_seen other.now)) (O.tells oracle.old) (O.tells oracle.new) result }
{
    match phase {
        Phase::Strict | Phase::Loose => all_under(
            alloc,
            oracle,
            candidate.parameters.as_slice(),
            other.parameters.as_slice(),
        ),
        Phase::VariableArity => {
            let count = compared(count, other);
            under_by_types(alloc, oracle, count, candidate, other)
        }
    }
}

/// The same, of a candidate that may be the other one.
#[tactic(auto, using(pj_names::proofs::AskingLaws::asking_steps))]
fn is_itself_or_under<O: Oracle>(
    alloc: Global,
    oracle: &mut O,
    phase: Phase,
    count: usize,
    candidate: &Candidate,
    other: &Candidate,
) -> Result<bool, AskFault>
    ensures { Asks (is_itself_or_under phase count (candidate_seen candidate.now) (candidate_seen other.now)) (O.tells oracle.old) (O.tells oracle.new) result }
{
    if other.number == candidate.number {
        return Ok(true);
    }
    is_more_specific(alloc, oracle, phase, count, candidate, other)
}

/// Whether a candidate is more specific than every other one, in their order, up to the first than which it is not.
#[tactic(auto, using(crate::proofs::Turns::asking_turns))]
fn is_most_specific<O: Oracle>(
    alloc: Global,
    oracle: &mut O,
    phase: Phase,
    count: usize,
    candidates: &Candidates,
    candidate: &Candidate,
) -> Result<bool, AskFault>
    ensures { Asks (is_most_specific phase count (candidates_seen candidates.now) (candidate_seen candidate.now)) (O.tells oracle.old) (O.tells oracle.new) result }
{
    for other in candidates.as_slice() {
        let is_under = is_itself_or_under(alloc, oracle, phase, count, candidate, other)?;
        if !is_under {
            return Ok(false);
        }
    }
    Ok(true)
}

/// The number of a candidate, where it is chosen.
fn number_if(candidate: &Candidate, is_chosen: bool) -> Option<u32>
    ensures { result ≡ number_if (candidate_seen candidate.now) is_chosen }
{
    if is_chosen {
        Some(candidate.number)
    } else {
        None
    }
}

/// The number of a candidate, where it is the most specific one.
#[tactic(auto, using(pj_names::proofs::AskingLaws::asking_steps))]
fn most_specific_at<O: Oracle>(
    alloc: Global,
    oracle: &mut O,
    phase: Phase,
    count: usize,
    candidates: &Candidates,
    candidate: &Candidate,
) -> Result<Option<u32>, AskFault>
    ensures asks { Asks (most_specific_at phase count (candidates_seen candidates.now) (candidate_seen candidate.now)) (O.tells oracle.old) (O.tells oracle.new) result }
    ensures number { IfOk result (λ found. IfSome found (λ number. number ≡ candidate.now.number)) }
{
    let is_chosen = is_most_specific(alloc, oracle, phase, count, candidates, candidate)?;
    let number = number_if(candidate, is_chosen);
    Ok(number)
}

/// The number of the first candidate that is more specific than every other one.
#[tactic(auto, using(crate::proofs::Turns::asking_turns))]
fn best_of<O: Oracle>(
    alloc: Global,
    oracle: &mut O,
    phase: Phase,
    count: usize,
    candidates: &Candidates,
) -> Result<Option<u32>, AskFault>
    ensures asks { Asks (best_of phase count (candidates_seen candidates.now)) (O.tells oracle.old) (O.tells oracle.new) result }
    ensures inside { IfOk result (λ found. IfSome found (λ number. IsNumberAmong number (candidates_seen candidates.now))) }
{
    for candidate in candidates.as_slice() {
        let best = most_specific_at(alloc, oracle, phase, count, candidates, candidate)?;
        if let Some(number) = best {
            return Ok(Some(number));
        }
    }
    Ok(None)
}

/// The best one, or else a tie.
fn one_or_tie(best: Option<u32>) -> Choice
    ensures { result ≡ one_or_tie best }
{
    match best {
        Some(number) => Choice::One(number),
        None => Choice::Tie,
    }
}

/// The choice among candidates that are applicable in a phase, for so many arguments: the first one that is more specific than
/// every other one, or else a tie.
#[tactic(auto, using(pj_names::proofs::AskingLaws::asking_steps))]
pub fn most_specific<O: Oracle>(
    alloc: Global,
    oracle: &mut O,
    phase: Phase,
    count: usize,
    candidates: &Candidates,
) -> Result<Choice, AskFault>
    ensures asks { Asks (most_specific phase count (candidates_seen candidates.now)) (O.tells oracle.old) (O.tells oracle.new) result }
    ensures inside { IfOk result (λ choice. IsChoiceAmong choice (candidates_seen candidates.now)) }
{
    let best = best_of(alloc, oracle, phase, count, candidates)?;
    let choice = one_or_tie(best);
    Ok(choice)
}
