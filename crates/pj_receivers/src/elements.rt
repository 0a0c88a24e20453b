//! Elements of arrays, and what an enhanced `for` goes through (JLS 10.4, 14.14.2).

ghost use Rattle.std.specs.Prelude.{◌≡◌, IfOk};
ghost use Rattle.pj_names.specs.JavaType.{java_type, java_types};
ghost use Rattle.pj_names.specs.Told.{Asks, seen};
ghost use Rattle.pj_members.specs.SupertypeWalks.{seen_types};
ghost use Rattle.pj_receivers.specs.Elements.{argument_or_object, argument_or_unknown, element_of, iterated, iterated_along, iterated_by, iterated_of_class};

use crate::receivers::as_receiver;
use pj_base::NoMemory;
use pj_members::supertype_of_receiver;
use pj_names::{AskFault, ClassName, Oracle, Ty, Types};
use pj_written::object_type;
use std::alloc::Global;

/// The type of an element of an array.
pub fn element_of(ty: &Ty) -> Result<Ty, NoMemory>
    ensures { IfOk result (λ element. java_type element ≡ element_of (java_type ty.now)) }
{
    match ty {
        Ty::Array(member) => member.copied(),
        _ => Ok(Ty::Unknown),
    }
}

/// The one type argument of `java.lang.Iterable`, and `java.lang.Object` where it is raw.
fn argument_or_object(alloc: Global, arguments: &Types) -> Result<Ty, NoMemory>
    ensures { IfOk result (λ ty. java_type ty ≡ argument_or_object (java_types arguments.now)) }
{
    match arguments {
        Types::More(first, rest) => match &**rest {
            Types::End => first.copied(),
            Types::More(_, _) => object_type(alloc),
        },
        Types::End => object_type(alloc),
    }
}

/// The same, where `java.lang.Iterable` is among the supertypes.
fn argument_or_unknown(alloc: Global, found: &Option<Types>) -> Result<Ty, NoMemory>
    ensures { IfOk result (λ ty. java_type ty ≡ argument_or_unknown (seen_types found.now)) }
{
    match found {
        Some(arguments) => argument_or_object(alloc, arguments),
        None => Ok(Ty::Unknown),
    }
}

/// What is iterated of a class with type arguments that is not `java.lang.Iterable` itself.
#[tactic(auto, using(pj_names::proofs::AskingLaws::asking_steps), unfolding(crate::specs::Elements::iterated_along))]
fn iterated_along<O: Oracle>(
    alloc: Global,
    oracle: &mut O,
    class: &ClassName,
    arguments: &Types,
) -> Result<Ty, AskFault>
    ensures { Asks (iterated_along class.now (java_types arguments.now)) (O.tells oracle.old) (O.tells oracle.new) (seen java_type result) }
{
    let found = supertype_of_receiver(alloc, oracle, class, arguments, "java.lang.Iterable")?;
    let element = argument_or_unknown(alloc, &found)?;
    Ok(element)
}

/// What is iterated of a class with type arguments.
#[tactic(auto, using(pj_names::proofs::AskingLaws::asking_steps))]
fn iterated_of_class<O: Oracle>(
    alloc: Global,
    oracle: &mut O,
    class: &ClassName,
    arguments: &Types,
) -> Result<Ty, AskFault>
    ensures { Asks (iterated_of_class class.now (java_types arguments.now)) (O.tells oracle.old) (O.tells oracle.new) (seen java_type result) }
{
    if class.as_str() == "java.lang.Iterable" {
        let element = argument_or_object(alloc, arguments)?;
        return Ok(element);
    }
    iterated_along(alloc, oracle, class, arguments)
}

/// What is iterated of a type that is no type variable.
#[tactic(auto, using(pj_names::proofs::AskingLaws::asking_steps))]
fn iterated_by<O: Oracle>(alloc: Global, oracle: &mut O, ty: &Ty) -> Result<Ty, AskFault>
    ensures { Asks (iterated_by (java_type ty.now)) (O.tells oracle.old) (O.tells oracle.new) (seen java_type result) }
{
    match ty {
        Ty::Class(class, arguments) => iterated_of_class(alloc, oracle, class, arguments),
        Ty::Array(member) => {
            let ty = member.copied()?;
            Ok(ty)
        }
        _ => Ok(Ty::Unknown),
    }
}

/// What an enhanced `for` over an expression of this type goes through (JLS 14.14.2): the elements of an array; of a class the type argument of `java.lang.Iterable` among
/// its supertypes, as the expression's type arguments have it. It is the upper bound of a wildcard, and `java.lang.Object` where `java.lang.Iterable` is raw. Of every
/// other type, and of a class without it, nothing is known.
#[tactic(auto, using(pj_names::proofs::AskingLaws::asking_steps))]
pub fn iterated<O: Oracle>(alloc: Global, oracle: &mut O, ty: &Ty) -> Result<Ty, AskFault>
    ensures { Asks (iterated (java_type ty.now)) (O.tells oracle.old) (O.tells oracle.new) (seen java_type result) }
{
    iterated_by(alloc, oracle, as_receiver(ty))
}
