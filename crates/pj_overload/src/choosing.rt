//! The choice of a method among candidates (JLS 15.12.2).
ghost use Rattle.std.specs.Prelude.{IfOk, IfSome, length};
ghost use Rattle.pj_names.specs.JavaType.{type_list};
ghost use Rattle.pj_names.specs.Told.{Asks};
ghost use Rattle.pj_types.specs.Members.{all_methods};
ghost use Rattle.pj_overload.specs.Choosing.{choice_among, choice_by_phases, choice_in, choose};
ghost use Rattle.pj_overload.specs.Inside.{IsChoiceAmong, IsInside};
ghost use Rattle.pj_overload.specs.Seen.{arguments_seen, candidates_seen};

use crate::applicable::applicable;
use crate::candidates::{Candidates, candidates_of};
use crate::choice::Choice;
use crate::passed::{PassedList, arguments_of};
use crate::phase::Phase;
use crate::specific::most_specific;
use pj_base::Numbers;
use pj_names::{AskFault, Oracle, TyList};
use pj_types::Methods;
use std::alloc::Global;

/// The choice among the applicable candidates of a phase, for so many arguments, where there are some.
#[tactic(auto, using(pj_names::proofs::AskingLaws::asking_steps))]
fn choice_among<O: Oracle>(
    alloc: Global,
    oracle: &mut O,
    phase: Phase,
    count: usize,
    found: &Candidates,
) -> Result<Option<Choice>, AskFault>
    ensures asks { Asks (choice_among phase count (candidates_seen found.now)) (O.tells oracle.old) (O.tells oracle.new) result }
    ensures inside { IfOk result (λ chosen. IfSome chosen (λ choice. IsChoiceAmong choice (candidates_seen found.now))) }
{
    if found.is_empty() {
        return Ok(None);
    }
    let choice = most_specific(alloc, oracle, phase, count, found)?;
    Ok(Some(choice))
}

/// The choice in a phase, where a candidate is applicable.
#[tactic(auto, using(pj_names::proofs::AskingLaws::asking_steps))]
fn choice_in<O: Oracle>(
    alloc: Global,
    oracle: &mut O,
    phase: Phase,
    arguments: &PassedList,
    candidates: &Candidates,
) -> Result<Option<Choice>, AskFault>
    ensures asks { Asks (choice_in phase (arguments_seen arguments.now) (candidates_seen candidates.now)) (O.tells oracle.old) (O.tells oracle.new) result }
    ensures inside { IfOk result (λ chosen. IfSome chosen (λ choice. IsChoiceAmong choice (candidates_seen candidates.now))) }
{
    let found = applicable(alloc, oracle, phase, arguments, candidates)?;
    choice_among(alloc, oracle, phase, arguments.len(), &found)
}

/// The choice in the first phase in which a candidate is applicable.
#[tactic(auto, using(pj_names::proofs::AskingLaws::asking_steps))]
fn choice_by_phases<O: Oracle>(
    alloc: Global,
    oracle: &mut O,
    arguments: &PassedList,
    candidates: &Candidates,
) -> Result<Choice, AskFault>
    ensures asks { Asks (choice_by_phases (arguments_seen arguments.now) (candidates_seen candidates.now)) (O.tells oracle.old) (O.tells oracle.new) result }
    ensures inside { IfOk result (λ choice. IsChoiceAmong choice (candidates_seen candidates.now)) }
{
    if let Some(choice) = choice_in(alloc, oracle, Phase::Strict, arguments, candidates)? {
        return Ok(choice);
    }
    if let Some(choice) = choice_in(alloc, oracle, Phase::Loose, arguments, candidates)? {
        return Ok(choice);
    }
    if let Some(choice) = choice_in(alloc, oracle, Phase::VariableArity, arguments, candidates)? {
        return Ok(choice);
    }
    Ok(Choice::None)
}

/// The choice of a method among candidates for a call with arguments of some types (JLS 15.12.2); `functions` has the places,
/// counted from 0, of the arguments that are lambda expressions or method references. All types are erased first.
///
/// Candidates are tried by strict invocation, then by loose invocation, which boxes and unboxes, then by variable arity
/// invocation; the first of these phases in which a candidate is applicable ends the search. `One` is the candidate of that
/// number, counted from 0, whose parameters are each under those of every other applicable one, the first where several are so;
/// `Tie` comes where there is none, and `None` exactly where no phase has an applicable candidate.
///
/// The type that is not known fits every parameter, and a parameter of it takes nothing else. A lambda expression and a method
/// reference fit each class and interface. In a phase the candidates are asked for in order, the arguments of each from left to
/// right, up to the first that does not fit; a candidate that takes another number of arguments asks nothing. The number of `One`
/// is one of the candidates' over every oracle, also one that tells nothing.
#[tactic(auto, using(pj_names::proofs::AskingLaws::asking_steps))]
pub fn choose<O: Oracle>(
    alloc: Global,
    oracle: &mut O,
    candidates: &Methods,
    arguments: &TyList,
    functions: &Numbers,
) -> Result<Choice, AskFault>
    ensures asks { Asks (choose (all_methods candidates.now) (type_list arguments.now) functions.now) (O.tells oracle.old) (O.tells oracle.new) result }
    ensures inside { IfOk result (λ choice. IsInside (length candidates.now) choice) }
{
    let arguments = arguments_of(alloc, functions, arguments)?;
    let candidates = candidates_of(alloc, candidates)?;
    choice_by_phases(alloc, oracle, &arguments, &candidates)
}
