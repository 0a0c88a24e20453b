//! Types and lists of types: which are the same, and their copies.
use crate::fixtures::{expect, name, text};
use pj_base::{Exact, NoMemory};
use pj_names::{Bindings, Prim, Ty, TyList, Types, copied_bindings, copied_types, same_types};
use std::alloc::Global;
use std::test::Fail;

/// Types.
#[derive(Clone, Copy)]
enum Kind {
    Void,
    Null,
    Unknown,
    Int,
    Long,
    /// `java.util.Map`.
    Raw,
    /// `java.util.Map` of a variable and an array.
    Generic,
}

/// Types of which no two are the same.
static KINDS: [(&str, Kind); 7] = [
    ("void", Kind::Void),
    ("null", Kind::Null),
    ("unknown", Kind::Unknown),
    ("int", Kind::Int),
    ("long", Kind::Long),
    ("raw", Kind::Raw),
    ("generic", Kind::Generic),
];

/// `java.util.Map` without arguments.
fn raw(alloc: Global) -> Result<Ty, Fail> {
    Ok(Ty::Class(name(alloc, "java.util.Map")?, Types::End))
}

/// The bound `java.lang.Object`.
fn bound(alloc: Global) -> Result<Box<Ty>, Fail> {
    let object = name(alloc, "java.lang.Object")?;
    Ok(Box::new(alloc, Ty::Class(object, Types::End))?)
}

/// The variable `T` with that bound.
fn variable(alloc: Global) -> Result<Box<Ty>, Fail> {
    let name = text(alloc, "T")?;
    Ok(Box::new(alloc, Ty::Var(name, bound(alloc)?))?)
}

/// An array of `int`.
fn array(alloc: Global) -> Result<Box<Ty>, NoMemory> {
    let int = Box::new(alloc, Ty::Prim(Prim::Int))?;
    Ok(Box::new(alloc, Ty::Array(int))?)
}

/// The array as the last argument.
fn last(alloc: Global) -> Result<Box<Types>, NoMemory> {
    let end = Box::new(alloc, Types::End)?;
    Ok(Box::new(alloc, Types::More(array(alloc)?, end))?)
}

/// The variable and the array as arguments.
fn arguments(alloc: Global) -> Result<Types, Fail> {
    let rest = last(alloc)?;
    Ok(Types::More(variable(alloc)?, rest))
}

/// `java.util.Map` of these.
fn generic(alloc: Global) -> Result<Ty, Fail> {
    let map = name(alloc, "java.util.Map")?;
    Ok(Ty::Class(map, arguments(alloc)?))
}

/// The type of a kind.
fn type_of(alloc: Global, kind: Kind) -> Result<Ty, Fail> {
    match kind {
        Kind::Void => Ok(Ty::Void),
        Kind::Null => Ok(Ty::Null),
        Kind::Unknown => Ok(Ty::Unknown),
        Kind::Int => Ok(Ty::Prim(Prim::Int)),
        Kind::Long => Ok(Ty::Prim(Prim::Long)),
        Kind::Raw => raw(alloc),
        Kind::Generic => generic(alloc),
    }
}

/// Whether this is the type of a kind.
fn is_kind(alloc: Global, ty: &Ty, kind: Kind) -> Result<bool, Fail> {
    Ok(ty.is(&type_of(alloc, kind)?))
}

/// Whether a type is that of each kind exactly where the places are.
fn is_at(alloc: Global, place: usize, ty: &Ty) -> Result<bool, Fail> {
    for (other, (_, kind)) in KINDS.iter().enumerate() {
        if is_kind(alloc, ty, *kind)? != (place == other) {
            return Ok(false);
        }
    }
    Ok(true)
}

/// Whether the type of a kind is at this place alone.
fn is_apart(alloc: Global, place: usize, kind: Kind) -> Result<bool, Fail> {
    let ty = type_of(alloc, kind)?;
    is_at(alloc, place, &ty)
}

#[test]
fn types(rt: HostRuntime) -> Result<(), Fail> {
    for (place, (row, kind)) in KINDS.iter().enumerate() {
        expect(is_apart(rt.alloc(), place, *kind)?, row)?;
    }
    Ok(())
}

/// Whether a copy of a type is the same.
fn is_copy(ty: &Ty) -> Result<bool, Fail> {
    Ok(ty.copied()?.is(ty))
}

/// Whether a copy of the generic type is the same.
fn type_is_copied(alloc: Global) -> Result<bool, Fail> {
    let map = generic(alloc)?;
    is_copy(&map)
}

/// `void` and the type of `null`.
fn two_types(alloc: Global) -> Result<TyList, NoMemory> {
    let mut list = TyList::new(alloc);
    list.push(Ty::Void)?;
    list.push(Ty::Null)?;
    Ok(list)
}

/// Whether a copy of a list of types is the same.
fn list_is_copied(alloc: Global) -> Result<bool, NoMemory> {
    let list = two_types(alloc)?;
    Ok(same_types(&copied_types(&list)?, &list))
}

/// How many variables a copy of one with a type has.
fn copied_variables(alloc: Global) -> Result<usize, NoMemory> {
    let mut bindings = Bindings::new(alloc);
    bindings.push((text(alloc, "T")?, Ty::Null))?;
    Ok(copied_bindings(&bindings)?.len())
}

#[test]
fn copies(rt: HostRuntime) -> Result<(), Fail> {
    assert!(rt; type_is_copied(rt.alloc())?);
    assert!(rt; list_is_copied(rt.alloc())?);
    assert!(rt; copied_variables(rt.alloc())? == 1);
    Ok(())
}
