//! Which candidates are applicable in a phase (JLS 15.12.2).
ghost use Rattle.std.specs.Prelude.{◌≡◌, IfOk};
ghost use Rattle.pj_names.specs.JavaType.{java_type, type_list};
ghost use Rattle.pj_names.specs.Told.{Asks, seen};
ghost use Rattle.pj_overload.specs.Inside.{AreAmong};
ghost use Rattle.pj_overload.specs.Phases.{all_fit, applicable, fits, arguments_fit, is_applicable, known_fits, takes, type_fits};
ghost use Rattle.pj_overload.specs.Seen.{argument_seen, arguments_seen, candidate_seen, candidates_seen};

use crate::candidates::{Candidate, Candidates, put_if};
use crate::conversions::{fits_loosely, is_class, is_unknown};
use crate::passed::{Passed, PassedList};
use crate::phase::Phase;
use crate::variable_arity::variable_arity_types;
use pj_names::{AskFault, Oracle, Ty};
use pj_types::is_subtype;
use std::alloc::Global;

/// Whether the type of an argument fits that of a parameter in a phase.
#[tactic(auto, using(pj_names::proofs::AskingLaws::asking_steps))]
fn type_fits<O: Oracle>(
    alloc: Global,
    oracle: &mut O,
    phase: Phase,
    argument: &Ty,
    parameter: &Ty,
) -> Result<bool, AskFault>
    ensures { Asks (type_fits phase (java_type argument.now) (java_type parameter.now)) (O.tells oracle.old) (O.tells oracle.new) result }
{
    match phase {
        Phase::Strict => is_subtype(alloc, oracle, argument, parameter),
        Phase::Loose | Phase::VariableArity => fits_loosely(alloc, oracle, argument, parameter),
    }
}

/// The same, where the type that is not known fits everything.
#[tactic(auto, using(pj_names::proofs::AskingLaws::asking_steps))]
fn known_fits<O: Oracle>(
    alloc: Global,
    oracle: &mut O,
    phase: Phase,
    argument: &Ty,
    parameter: &Ty,
) -> Result<bool, AskFault>
    ensures { Asks (known_fits phase (java_type argument.now) (java_type parameter.now)) (O.tells oracle.old) (O.tells oracle.new) result }
{
    if is_unknown(argument) {
        return Ok(true);
    }
    type_fits(alloc, oracle, phase, argument, parameter)
}

/// Whether an argument fits a parameter in a phase.
#[tactic(auto, using(pj_names::proofs::AskingLaws::asking_steps))]
fn fits<O: Oracle>(
    alloc: Global,
    oracle: &mut O,
    phase: Phase,
    argument: &Passed,
    parameter: &Ty,
) -> Result<bool, AskFault>
    ensures { Asks (fits phase (argument_seen argument.now) (java_type parameter.now)) (O.tells oracle.old) (O.tells oracle.new) result }
{
    match argument {
        Passed::Function => Ok(is_class(parameter)),
        Passed::Typed(ty) => known_fits(alloc, oracle, phase, ty, parameter),
    }
}

/// Whether each argument fits its parameter, from left to right, up to the first that does not fit.
#[tactic(auto, using(crate::proofs::Turns::asking_turns))]
fn all_fit<O: Oracle>(
    alloc: Global,
    oracle: &mut O,
    phase: Phase,
    arguments: &[Passed],
    parameters: &[Ty],
) -> Result<bool, AskFault>
    ensures { Asks (all_fit phase (arguments_seen arguments.now) (type_list parameters.now)) (O.tells oracle.old) (O.tells oracle.new) result }
{
    for (place, argument) in arguments.iter().enumerate() {
        let Some(parameter) = parameters.get(place) else {
            return Ok(true);
        };
        let is_fitting = fits(alloc, oracle, phase, argument, parameter)?;
        if !is_fitting {
            return Ok(false);
        }
    }
    Ok(true)
}

/// Whether a candidate takes so many arguments in a phase.
fn takes(phase: Phase, count: usize, candidate: &Candidate) -> bool
    ensures { result ≡ takes phase count (candidate_seen candidate.now) }
{
    let parameters = candidate.parameters.len();
    match phase {
        Phase::Strict | Phase::Loose => parameters == count,
        Phase::VariableArity => candidate.has_variable_arity
            && parameters.saturating_sub(1) <= count,
    }
}

/// Whether each argument fits its parameter, of a candidate that takes so many.
#[tactic(auto, using(pj_names::proofs::AskingLaws::asking_steps))]
fn arguments_fit<O: Oracle>(
    alloc: Global,
    oracle: &mut O,
    phase: Phase,
    arguments: &PassedList,
    candidate: &Candidate,
) -> Result<bool, AskFault>
    ensures { Asks (arguments_fit phase (arguments_seen arguments.now) (candidate_seen candidate.now)) (O.tells oracle.old) (O.tells oracle.new) result }
{
    match phase {
        Phase::Strict | Phase::Loose => all_fit(
            alloc,
            oracle,
            phase,
            arguments.as_slice(),
            candidate.parameters.as_slice(),
        ),
        Phase::VariableArity => {
            let types = variable_arity_types(alloc, arguments.len(), &candidate.parameters)?;
            all_fit(alloc, oracle, phase, arguments.as_slice(), types.as_slice())
        }
    }
}

/// Whether a candidate is applicable in a phase. Where it does not take so many arguments nothing is asked.
#[tactic(auto, using(pj_names::proofs::AskingLaws::asking_steps))]
fn is_applicable<O: Oracle>(
    alloc: Global,
    oracle: &mut O,
    phase: Phase,
    arguments: &PassedList,
    candidate: &Candidate,
) -> Result<bool, AskFault>
    ensures { Asks (is_applicable phase (arguments_seen arguments.now) (candidate_seen candidate.now)) (O.tells oracle.old) (O.tells oracle.new) result }
{
    if !takes(phase, arguments.len(), candidate) {
        return Ok(false);
    }
    arguments_fit(alloc, oracle, phase, arguments, candidate)
}

/// The candidates that are applicable in a phase, in their order.
#[tactic(auto, using(crate::proofs::Turns::asking_turns))]
pub fn applicable<O: Oracle>(
    alloc: Global,
    oracle: &mut O,
    phase: Phase,
    arguments: &PassedList,
    candidates: &Candidates,
) -> Result<Candidates, AskFault>
    ensures asks { Asks (applicable phase (arguments_seen arguments.now) (candidates_seen candidates.now)) (O.tells oracle.old) (O.tells oracle.new) (seen candidates_seen result) }
    ensures inside { IfOk result (λ found. AreAmong (candidates_seen found) (candidates_seen candidates.now)) }
{
    let mut found = Candidates::new(alloc);
    for candidate in candidates.as_slice() {
        let is_taken = is_applicable(alloc, oracle, phase, arguments, candidate)?;
        put_if(&mut found, is_taken, candidate)?;
    }
    Ok(found)
}
