//! Boxing and unboxing (JLS 5.1.7, 5.1.8), and numeric contexts (JLS 5.6).

ghost use Rattle.std.specs.Prelude.{◌≡◌, IfOk};
ghost use Rattle.pj_names.specs.JavaType.{java_type};
ghost use Rattle.pj_types.specs.Conversions.{are_numeric, as_primitive, boxed, boxed_name, boxed_type, is_either, is_numeric, numeric, numeric_in, promoted, promoted_both, promoted_in, promoted_pair, unboxed, widened, wider};

use pj_base::{NoMemory, value_in};
use pj_names::{ClassName, Prim, Ty, Types};
use std::alloc::Global;

/// The classes of boxing with their primitive types.
static BOXED: [(&str, Prim); 8] = [
    ("java.lang.Boolean", Prim::Boolean),
    ("java.lang.Byte", Prim::Byte),
    ("java.lang.Short", Prim::Short),
    ("java.lang.Integer", Prim::Int),
    ("java.lang.Long", Prim::Long),
    ("java.lang.Character", Prim::Char),
    ("java.lang.Float", Prim::Float),
    ("java.lang.Double", Prim::Double),
];

/// The name of the class that boxing makes of a primitive type (JLS 5.1.7).
pub fn boxed_name(prim: Prim) -> &'static str
    ensures { result.now ≡ boxed_name prim }
{
    match prim {
        Prim::Boolean => "java.lang.Boolean",
        Prim::Byte => "java.lang.Byte",
        Prim::Short => "java.lang.Short",
        Prim::Int => "java.lang.Integer",
        Prim::Long => "java.lang.Long",
        Prim::Char => "java.lang.Character",
        Prim::Float => "java.lang.Float",
        Prim::Double => "java.lang.Double",
    }
}

/// The class that boxing makes of a primitive type (JLS 5.1.7), without type arguments.
#[tactic(auto, using(crate::proofs::BoxedNames::boxed_is_name))]
pub fn boxed_type(alloc: Global, prim: Prim) -> Result<Ty, NoMemory>
    ensures { IfOk result (λ made. java_type made ≡ boxed_type prim) }
{
    match ClassName::of(alloc, boxed_name(prim))? {
        Some(name) => Ok(Ty::Class(name, Types::End)),
        None => unreachable!(),
    }
}

/// A type as an object has it: a primitive type is boxed (JLS 5.1.7), every other one stays.
pub fn boxed(alloc: Global, ty: &Ty) -> Result<Ty, NoMemory>
    ensures { IfOk result (λ made. java_type made ≡ boxed (java_type ty.now)) }
{
    match ty {
        Ty::Prim(prim) => boxed_type(alloc, *prim),
        Ty::Void | Ty::Null | Ty::Class(_, _) | Ty::Array(_) | Ty::Var(_, _) | Ty::Unknown => {
            ty.copied()
        }
    }
}

/// The primitive type that unboxing makes of a class (JLS 5.1.8), or `None` where the class is none of the eight.
pub fn unboxed(name: &ClassName) -> Option<Prim>
    ensures { result ≡ unboxed name.now }
{
    value_in(&BOXED, name.as_str())
}

/// The primitive type that a type is, or that unboxing makes of it (JLS 5.1.8).
pub fn as_primitive(ty: &Ty) -> Option<Prim>
    ensures { result ≡ as_primitive (java_type ty.now) }
{
    match ty {
        Ty::Prim(prim) => Some(*prim),
        Ty::Class(name, _) => unboxed(name),
        _ => None,
    }
}

/// Whether a primitive type is numeric (JLS 4.2).
fn is_numeric(prim: Prim) -> bool
    ensures { result ≡ is_numeric prim }
{
    !matches!(prim, Prim::Boolean)
}

/// The same type, where it is numeric.
fn numeric_in(prim: Option<Prim>) -> Option<Prim>
    ensures { result ≡ numeric_in prim }
{
    match prim {
        Some(prim) => { if is_numeric(prim) { Some(prim) } else { None } }
        None => None,
    }
}

/// The numeric type of a type that is convertible to one.
pub fn numeric(ty: &Ty) -> Option<Prim>
    ensures { result ≡ numeric (java_type ty.now) }
{
    numeric_in(as_primitive(ty))
}

/// Unary numeric promotion of a primitive type.
fn widened(prim: Prim) -> Prim
    ensures { result ≡ widened prim }
{
    match prim {
        Prim::Byte | Prim::Short | Prim::Char => Prim::Int,
        other => other,
    }
}

/// The same of what may be numeric.
fn promoted_in(prim: Option<Prim>) -> Ty
    ensures { java_type result ≡ promoted_in prim }
{
    match prim {
        Some(prim) => Ty::Prim(widened(prim)),
        None => Ty::Unknown,
    }
}

/// Unary numeric promotion (JLS 5.6), after unboxing: what is not numeric has no type that is known.
pub fn promoted(ty: &Ty) -> Ty
    ensures { java_type result ≡ promoted (java_type ty.now) }
{
    promoted_in(numeric(ty))
}

/// Whether one of two primitive types is a third one.
fn is_either(prim: Prim, first: Prim, second: Prim) -> bool
    ensures { result ≡ is_either prim first second }
{
    prim == first || prim == second
}

/// Binary numeric promotion of primitive types.
fn wider(first: Prim, second: Prim) -> Prim
    ensures { result ≡ wider first second }
{
    if is_either(Prim::Double, first, second) {
        Prim::Double
    } else if is_either(Prim::Float, first, second) {
        Prim::Float
    } else if is_either(Prim::Long, first, second) {
        Prim::Long
    } else {
        Prim::Int
    }
}

/// The same of what may be numeric.
fn promoted_pair(first: Option<Prim>, second: Option<Prim>) -> Ty
    ensures { java_type result ≡ promoted_pair first second }
{
    match (first, second) {
        (Some(first), Some(second)) => Ty::Prim(wider(first, second)),
        _ => Ty::Unknown,
    }
}

/// Binary numeric promotion (JLS 5.6), after unboxing: where one is not numeric no type is known.
pub fn promoted_both(first: &Ty, second: &Ty) -> Ty
    ensures { java_type result ≡ promoted_both (java_type first.now) (java_type second.now) }
{
    promoted_pair(numeric(first), numeric(second))
}

/// Whether both are numeric, after unboxing.
pub fn are_numeric(first: &Ty, second: &Ty) -> bool
    ensures { result ≡ are_numeric (java_type first.now) (java_type second.now) }
{
    numeric(first).is_some() && numeric(second).is_some()
}
