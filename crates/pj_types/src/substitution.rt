//! Type variables replaced by types, and types without type arguments.
ghost use Rattle.std.specs.Prelude.{◌≡◌, ◌<◌, IfOk, OnOk};
ghost use Rattle.pj_names.specs.JavaType.{JavaType, java_type, java_types, bound_types};
ghost use Rattle.pj_signatures.specs.Types.{bound_or};
ghost use Rattle.pj_types.specs.Substitution.{substituted, substituted_arguments, erased, seen_binding};

use pj_base::{Copied, NoMemory, Text};
use pj_names::{Bindings, Ty, Types};
use std::alloc::Global;

/// The most parts of a type that a substitution makes: the types in it, and the type arguments. So a copy of it and its end
/// go no deeper than that, and it takes no more memory.
const MOST_PARTS: u32 = 2000;

/// Takes room for one part more.
fn take_room(room: &mut u32) -> Result<(), NoMemory>
    ensures { OnOk result (room.new < room.old) }
{
    if *room == 0 {
        return Err(NoMemory);
    }
    *room -= 1;
    Ok(())
}

/// The type of the first pair of a name.
fn binding_of<'b>(bindings: &'b Bindings, name: &Text) -> Option<&'b Ty>
    ensures { (other : JavaType) → seen_binding other result ≡ bound_or other (bound_types bindings.now) name.now }
{
    for (variable, ty) in bindings.as_slice() {
        if variable == name {
            return Some(ty);
        }
    }
    None
}

/// A type in which each variable of a name that is bound is replaced by the type that it is bound to, all at once
/// (JLS 4.5). A variable that is not bound stays, with its bound substituted.
///
/// Where it would have more than 2,000 parts, types and type arguments together, memory is wanted: so what is put in does
/// not grow without end along a list of supertypes.
pub fn substitute(alloc: Global, ty: &Ty, bindings: &Bindings) -> Result<Ty, NoMemory>
    ensures { IfOk result (λ made. java_type made ≡ substituted (bound_types bindings.now) (java_type ty.now)) }
{
    let mut room = MOST_PARTS;
    substitute_within(alloc, ty, bindings, &mut room)
}

/// The same, where there is room for so many parts.
#[cycle(substitution)]
fn substitute_within(
    alloc: Global,
    ty: &Ty,
    bindings: &Bindings,
    room: &mut u32,
) -> Result<Ty, NoMemory>
    ensures { IfOk result (λ made. java_type made ≡ substituted (bound_types bindings.now) (java_type ty.now)) }
{
    take_room(room)?;
    match ty {
        Ty::Class(name, arguments) => Ok(Ty::Class(
            name.copied()?,
            substitute_arguments(alloc, arguments, bindings, room)?,
        )),
        Ty::Array(member) => Ok(Ty::Array(Box::new(
            alloc,
            substitute_within(alloc, member, bindings, room)?,
        )?)),
        Ty::Var(name, bound) => match binding_of(bindings, name) {
            Some(bound_to) => copied_within(alloc, bound_to, room),
            None => Ok(Ty::Var(
                name.copied()?,
                Box::new(alloc, substitute_within(alloc, bound, bindings, room)?)?,
            )),
        },
        Ty::Prim(_) | Ty::Void | Ty::Null | Ty::Unknown => ty.copied(),
    }
}

/// Type arguments in which each variable that is bound is replaced.
#[cycle(substitution)]
fn substitute_arguments(
    alloc: Global,
    arguments: &Types,
    bindings: &Bindings,
    room: &mut u32,
) -> Result<Types, NoMemory>
    ensures { IfOk result (λ made. java_types made ≡ substituted_arguments (bound_types bindings.now) (java_types arguments.now)) }
{
    match arguments {
        Types::End => Ok(Types::End),
        Types::More(first, rest) => {
            take_room(room)?;
            Ok(Types::More(
                Box::new(alloc, substitute_within(alloc, first, bindings, room)?)?,
                Box::new(alloc, substitute_arguments(alloc, rest, bindings, room)?)?,
            ))
        }
    }
}

/// The same type once more, where there is room for so many parts.
#[cycle(copying)]
fn copied_within(alloc: Global, ty: &Ty, room: &mut u32) -> Result<Ty, NoMemory>
    ensures { IfOk result (λ copy. java_type copy ≡ java_type ty.now) }
{
    take_room(room)?;
    match ty {
        Ty::Class(name, arguments) => Ok(Ty::Class(
            name.copied()?,
            arguments_within(alloc, arguments, room)?,
        )),
        Ty::Array(member) => Ok(Ty::Array(Box::new(alloc, copied_within(alloc, member, room)?)?)),
        Ty::Var(name, bound) => Ok(Ty::Var(
            name.copied()?,
            Box::new(alloc, copied_within(alloc, bound, room)?)?,
        )),
        Ty::Prim(_) | Ty::Void | Ty::Null | Ty::Unknown => ty.copied(),
    }
}

/// The same type arguments once more, where there is room for so many parts.
#[cycle(copying)]
fn arguments_within(alloc: Global, arguments: &Types, room: &mut u32) -> Result<Types, NoMemory>
    ensures { IfOk result (λ copy. java_types copy ≡ java_types arguments.now) }
{
    match arguments {
        Types::End => Ok(Types::End),
        Types::More(first, rest) => {
            take_room(room)?;
            Ok(Types::More(
                Box::new(alloc, copied_within(alloc, first, room)?)?,
                Box::new(alloc, arguments_within(alloc, rest, room)?)?,
            ))
        }
    }
}

/// The erasure of a type (JLS 4.6): a class without type arguments, a type variable's first bound erased, an array of
/// the erased member.
pub fn erase(alloc: Global, ty: &Ty) -> Result<Ty, NoMemory>
    ensures { IfOk result (λ made. java_type made ≡ erased (java_type ty.now)) }
{
    match ty {
        Ty::Class(name, _) => Ok(Ty::Class(name.copied()?, Types::End)),
        Ty::Array(member) => Ok(Ty::Array(Box::new(alloc, erase(alloc, member)?)?)),
        Ty::Var(_, bound) => erase(alloc, bound),
        Ty::Prim(_) | Ty::Void | Ty::Null | Ty::Unknown => ty.copied(),
    }
}
