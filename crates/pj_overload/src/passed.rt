//! The arguments of a call.
ghost use Rattle.std.specs.Prelude.{◌≡◌, IfOk};
ghost use Rattle.pj_names.specs.JavaType.{java_type, type_list};
ghost use Rattle.pj_overload.specs.Passed.{argument_at, arguments_of, has_place};
ghost use Rattle.pj_overload.specs.Seen.{argument_seen, arguments_seen};

use pj_base::{ListOf, NoMemory, Numbers};
use pj_names::{Ty, TyList};
use pj_types::erase;
use std::alloc::Global;

/// An argument of a call.
#[derive(Drop)]
pub enum Passed {
    /// A lambda expression or a method reference (JLS 15.13, 15.27), which has no type of its own.
    Function,
    /// An expression of a type, which is erased.
    Typed(Ty),
}

/// The arguments of a call, in their order.
pub type PassedList = ListOf<Passed>;

/// Whether a place is among some.
fn has_place(places: &Numbers, place: usize) -> bool
    ensures { result ≡ has_place places.now place }
{
    for other in places.as_slice() {
        if *other as usize == place {
            return true;
        }
    }
    false
}

/// The argument at a place, counted from 0, where those at some places are functions.
fn argument_at(
    alloc: Global,
    functions: &Numbers,
    place: usize,
    ty: &Ty,
) -> Result<Passed, NoMemory>
    ensures { IfOk result (λ made. argument_seen made ≡ argument_at functions.now place (java_type ty.now)) }
{
    if has_place(functions, place) {
        return Ok(Passed::Function);
    }
    Ok(Passed::Typed(erase(alloc, ty)?))
}

/// The arguments of a call, from their types and the places of those that are lambda expressions or method references.
#[tactic(auto, using(crate::proofs::Turns::argument_turns))]
pub fn arguments_of(
    alloc: Global,
    functions: &Numbers,
    types: &TyList,
) -> Result<PassedList, NoMemory>
    ensures { IfOk result (λ made. arguments_seen made ≡ arguments_of functions.now (type_list types.now)) }
{
    let mut arguments = PassedList::new(alloc);
    for (place, ty) in types.as_slice().iter().enumerate() {
        arguments.push(argument_at(alloc, functions, place, ty)?)?;
    }
    Ok(arguments)
}
