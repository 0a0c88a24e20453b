//! The method that is chosen for a call (JLS 15.12.2).

ghost use Rattle.std.specs.Prelude.{◌≡◌, IfOk, slice_get};
ghost use Rattle.pj_names.specs.JavaType.{type_list};
ghost use Rattle.pj_names.specs.Told.{Asks, seen};
ghost use Rattle.pj_types.specs.Members.{all_methods};
ghost use Rattle.pj_calls.specs.Choosing.{chosen_among, chosen_by};
ghost use Rattle.pj_calls.specs.Seen.{candidates_view, seen_chosen, seen_method};

use crate::candidates::Candidates;
use pj_base::{NoMemory, Numbers};
use pj_names::{AskFault, Oracle, Ty, TyList};
use pj_overload::{Choice, choose};
use pj_types::{Method, Methods};
use std::alloc::Global;

/// The method or constructor that is chosen for a call.
#[derive(Drop)]
pub struct Chosen {
    /// The type that it was looked for in: that of the receiver, and else the class that has the candidates, without type arguments.
    pub receiver: Ty,
    /// The method, with the receiver's type arguments put in. Its own type parameters stay.
    pub method: Method,
    /// The types of the arguments.
    pub arguments: TyList,
}

/// The method of a number, counted from 0, once more.
#[tactic(auto, using(crate::proofs::Turns::method_places))]
fn method_at(methods: &Methods, number: u32) -> Result<Option<Method>, NoMemory>
    ensures { IfOk result (λ found. seen_method found ≡ slice_get (all_methods methods.now) number) }
{
    match methods.get(number as usize) {
        Some(method) => Ok(Some(method.copied()?)),
        None => Ok(None),
    }
}

/// The method of a choice.
fn chosen_by(
    candidates: Candidates,
    arguments: TyList,
    choice: Choice,
) -> Result<Option<Chosen>, NoMemory>
    ensures { IfOk result (λ found. seen_chosen found ≡ chosen_by (candidates_view candidates) (type_list arguments) choice) }
{
    match choice {
        Choice::One(number) => match method_at(&candidates.methods, number)? {
            Some(method) => Ok(Some(Chosen {
                receiver: candidates.receiver,
                method,
                arguments,
            })),
            None => Ok(None),
        },
        Choice::None | Choice::Tie => Ok(None),
    }
}

/// The method that is chosen among candidates by the types of the arguments (JLS 15.12.2); `functions` has the places, counted from 0, of the arguments that are lambda expressions or method
/// references. `None` comes exactly where none is applicable, or several of which none is the most specific.
#[tactic(auto, using(pj_names::proofs::AskingLaws::asking_steps))]
pub fn chosen_among<O: Oracle>(
    alloc: Global,
    oracle: &mut O,
    candidates: Candidates,
    arguments: TyList,
    functions: &Numbers,
) -> Result<Option<Chosen>, AskFault>
    ensures { Asks (chosen_among (candidates_view candidates) (type_list arguments) functions.now) (O.tells oracle.old) (O.tells oracle.new) (seen seen_chosen result) }
{
    let choice = choose(alloc, oracle, &candidates.methods, &arguments, functions)?;
    let found = chosen_by(candidates, arguments, choice)?;
    Ok(found)
}
