//! Subtyping (JLS 4.10).
ghost use Rattle.std.specs.Prelude.{◌≡◌};
ghost use Rattle.pj_names.specs.JavaType.{java_type};
ghost use Rattle.pj_names.specs.Told.{Asks};
ghost use Rattle.pj_types.specs.Subtyping.{class_under, erased_under, is_above_arrays, is_class_under, is_null_under, is_on_list, is_primitive, is_primitive_under, is_under, primitive_under};

use crate::direct::direct_names;
use crate::hierarchy::MOST_CLASSES;
use crate::name_walk::NameWalk;
use crate::substitution::erase;
use pj_names::{AskFault, ClassName, Oracle, Prim, Ty};
use std::alloc::Global;

/// Whether a primitive type is under another one (JLS 4.10.1).
pub fn is_primitive_under(lower: Prim, upper: Prim) -> bool
    ensures { result ≡ is_primitive_under lower upper }
{
    match upper {
        Prim::Boolean => matches!(lower, Prim::Boolean),
        Prim::Byte => matches!(lower, Prim::Byte),
        Prim::Short => matches!(lower, Prim::Byte | Prim::Short),
        Prim::Char => matches!(lower, Prim::Char),
        Prim::Int => matches!(lower, Prim::Byte | Prim::Short | Prim::Char | Prim::Int),
        Prim::Long => !matches!(lower, Prim::Boolean | Prim::Float | Prim::Double),
        Prim::Float => !matches!(lower, Prim::Boolean | Prim::Double),
        Prim::Double => !matches!(lower, Prim::Boolean),
    }
}

/// Whether a primitive type is under a type.
fn primitive_under(lower: Prim, upper: &Ty) -> bool
    ensures { result ≡ primitive_under lower (java_type upper.now) }
{
    match upper {
        Ty::Prim(upper) => is_primitive_under(lower, *upper),
        _ => false,
    }
}

/// Whether a type is this primitive type.
fn is_primitive(prim: Prim, ty: &Ty) -> bool
    ensures { result ≡ is_primitive prim (java_type ty.now) }
{
    match ty {
        Ty::Prim(other) => prim == *other,
        _ => false,
    }
}

/// Whether the type of `null` is under a type.
fn is_null_under(upper: &Ty) -> bool
    ensures { result ≡ is_null_under (java_type upper.now) }
{
    matches!(upper, Ty::Null | Ty::Class(_, _) | Ty::Array(_))
}

/// Whether a class is above every array (JLS 4.10.3).
fn is_above_arrays(name: &ClassName) -> bool
    ensures { result ≡ is_above_arrays name.now }
{
    name.is_object()
        || name.as_str() == "java.lang.Cloneable"
        || name.as_str() == "java.io.Serializable"
}

/// Whether a class is on the list of supertypes of another one: it is looked for along the list, by its name.
fn is_on_list<O: Oracle>(
    alloc: Global,
    oracle: &mut O,
    lower: &ClassName,
    upper: &ClassName,
) -> Result<bool, AskFault>
    ensures { Asks (is_on_list lower.now upper.now) (O.tells oracle.old) (O.tells oracle.new) result }
{
    let mut walk = NameWalk::of(alloc, lower)?;
    for _class in 0..MOST_CLASSES {
        let Some(class) = walk.next_class()? else {
            return Ok(false);
        };
        if class == *upper {
            return Ok(true);
        }
        let more = direct_names(alloc, oracle, &class)?;
        walk.put(more)?;
    }
    Err(AskFault::Memory)
}

/// Whether a class is under another one. Equal names are looked at first, without asking.
#[tactic(auto, using(pj_names::proofs::AskingLaws::asking_steps), unfolding(crate::specs::Subtyping::is_class_under))]
fn is_class_under<O: Oracle>(
    alloc: Global,
    oracle: &mut O,
    lower: &ClassName,
    upper: &ClassName,
) -> Result<bool, AskFault>
    ensures { Asks (is_class_under lower.now upper.now) (O.tells oracle.old) (O.tells oracle.new) result }
{
    if lower == upper {
        return Ok(true);
    }
    is_on_list(alloc, oracle, lower, upper)
}

/// Whether a class is under a type.
#[tactic(auto, using(pj_names::proofs::AskingLaws::asking_steps))]
fn class_under<O: Oracle>(
    alloc: Global,
    oracle: &mut O,
    lower: &ClassName,
    upper: &Ty,
) -> Result<bool, AskFault>
    ensures { Asks (class_under lower.now (java_type upper.now)) (O.tells oracle.old) (O.tells oracle.new) result }
{
    match upper {
        Ty::Class(upper, _) => is_class_under(alloc, oracle, lower, upper),
        _ => Ok(false),
    }
}

/// Whether a type without type variables is under another one. It recurses as deep as the arrays' dimensions.
#[tactic(auto, using(pj_names::proofs::AskingLaws::asking_steps), unfolding(crate::specs::Subtyping::erased_under))]
fn erased_under<O: Oracle>(
    alloc: Global,
    oracle: &mut O,
    lower: &Ty,
    upper: &Ty,
) -> Result<bool, AskFault>
    ensures { Asks (erased_under (java_type lower.now) (java_type upper.now)) (O.tells oracle.old) (O.tells oracle.new) result }
{
    match (lower, upper) {
        (Ty::Prim(prim), _) => Ok(primitive_under(*prim, upper)),
        (Ty::Class(name, _), _) => class_under(alloc, oracle, name, upper),
        (Ty::Array(_), Ty::Class(name, _)) => Ok(is_above_arrays(name)),
        (Ty::Array(lower), Ty::Array(upper)) => match &**lower {
            Ty::Prim(prim) => Ok(is_primitive(*prim, upper)),
            _ => erased_under(alloc, oracle, lower, upper),
        },
        (Ty::Null, _) => Ok(is_null_under(upper)),
        (Ty::Void, Ty::Void) | (Ty::Unknown, Ty::Unknown) => Ok(true),
        _ => Ok(false),
    }
}

/// Whether a type is under another one (JLS 4.10): it is by their erasures.
///
/// A class is under the classes of its list of supertypes; equal names are looked at first, without asking, and the list is
/// asked up to the class that is looked for. The type of `null` is under itself and each class and array. An array of
/// references is under the arrays of what its members are under, an array of a primitive type under itself, and every array
/// under `java.lang.Object`, `java.lang.Cloneable` and `java.io.Serializable`. A primitive type is under itself and the wider
/// ones. `void` and the type that is not known are under themselves alone.
///
/// The search goes by names, so no type arguments are put in. No number bounds it: where a list of supertypes has more members than
/// a list can hold and the class is not among the first of them, memory is wanted.
#[tactic(auto, using(pj_names::proofs::AskingLaws::asking_steps))]
pub fn is_subtype<O: Oracle>(
    alloc: Global,
    oracle: &mut O,
    lower: &Ty,
    upper: &Ty,
) -> Result<bool, AskFault>
    ensures { Asks (is_under (java_type lower.now) (java_type upper.now)) (O.tells oracle.old) (O.tells oracle.new) result }
{
    let lower = erase(alloc, lower)?;
    let upper = erase(alloc, upper)?;
    erased_under(alloc, oracle, &lower, &upper)
}
