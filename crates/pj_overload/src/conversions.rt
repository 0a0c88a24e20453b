//! How the type of an argument fits that of a parameter (JLS 5.3).
ghost use Rattle.std.specs.Prelude.{◌≡◌, IfOk};
ghost use Rattle.pj_names.specs.JavaType.{java_type};
ghost use Rattle.pj_names.specs.Told.{Asks};
ghost use Rattle.pj_types.specs.Subtyping.{is_unknown};
ghost use Rattle.pj_overload.specs.Conversions.{converted, fits_loosely, is_class, is_some_under};
ghost use Rattle.pj_overload.specs.Seen.{type_seen};

use pj_base::NoMemory;
use pj_names::{AskFault, Oracle, Ty};
use pj_types::{boxed_type, is_subtype, unboxed};
use std::alloc::Global;

/// What boxing or unboxing makes of a type, where one of them is of it.
fn converted(alloc: Global, ty: &Ty) -> Result<Option<Ty>, NoMemory>
    ensures { IfOk result (λ made. type_seen made ≡ converted (java_type ty.now)) }
{
    match ty {
        Ty::Prim(prim) => Ok(Some(boxed_type(alloc, *prim)?)),
        Ty::Class(name, _) => match unboxed(name) {
            Some(prim) => Ok(Some(Ty::Prim(prim))),
            None => Ok(None),
        },
        _ => Ok(None),
    }
}

/// Whether a type is under another one, where there is one.
#[tactic(auto, using(pj_names::proofs::AskingLaws::asking_steps))]
fn is_some_under<O: Oracle>(
    alloc: Global,
    oracle: &mut O,
    ty: &Option<Ty>,
    parameter: &Ty,
) -> Result<bool, AskFault>
    ensures { Asks (is_some_under (type_seen ty.now) (java_type parameter.now)) (O.tells oracle.old) (O.tells oracle.new) result }
{
    match ty {
        None => Ok(false),
        Some(ty) => is_subtype(alloc, oracle, ty, parameter),
    }
}

/// Whether what boxing or unboxing makes of the type of an argument is under that of a parameter.
#[tactic(auto, using(pj_names::proofs::AskingLaws::asking_steps))]
fn fits_converted<O: Oracle>(
    alloc: Global,
    oracle: &mut O,
    argument: &Ty,
    parameter: &Ty,
) -> Result<bool, AskFault>
    ensures { Asks (is_some_under (converted (java_type argument.now)) (java_type parameter.now)) (O.tells oracle.old) (O.tells oracle.new) result }
{
    let other = converted(alloc, argument)?;
    is_some_under(alloc, oracle, &other, parameter)
}

/// Whether the type of an argument fits that of a parameter by subtyping, or else by boxing or unboxing, and then by subtyping of
/// what that makes.
#[tactic(auto, using(pj_names::proofs::AskingLaws::asking_steps))]
pub fn fits_loosely<O: Oracle>(
    alloc: Global,
    oracle: &mut O,
    argument: &Ty,
    parameter: &Ty,
) -> Result<bool, AskFault>
    ensures { Asks (fits_loosely (java_type argument.now) (java_type parameter.now)) (O.tells oracle.old) (O.tells oracle.new) result }
{
    let is_under = is_subtype(alloc, oracle, argument, parameter)?;
    if is_under {
        return Ok(true);
    }
    fits_converted(alloc, oracle, argument, parameter)
}

/// Whether a lambda expression or a method reference fits a parameter of a type: that is a class or an interface.
pub fn is_class(ty: &Ty) -> bool
    ensures { result ≡ is_class (java_type ty.now) }
{
    matches!(ty, Ty::Class(_, _))
}

/// Whether a type is not known.
pub fn is_unknown(ty: &Ty) -> bool
    ensures { result ≡ is_unknown (java_type ty.now) }
{
    matches!(ty, Ty::Unknown)
}
