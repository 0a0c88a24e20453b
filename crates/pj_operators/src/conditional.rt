//! Conditional expressions (JLS 15.25).

ghost use Rattle.std.specs.Prelude.{◌≡◌, IfOk};
ghost use Rattle.pj_names.specs.JavaType.{java_type};
ghost use Rattle.pj_names.specs.Told.{Asks, seen};
ghost use Rattle.pj_types.specs.Subtyping.{is_unknown};
ghost use Rattle.pj_operators.specs.Conditional.{conditional_type, if_null, if_unknown, or_else, second_or_unknown, third_or_second, told_or_upper, told_type, upper_type};
ghost use Rattle.pj_operators.specs.Seen.{type_seen};

use crate::same::same_type;
use pj_base::NoMemory;
use pj_names::{AskFault, Oracle, Ty};
use pj_types::{are_numeric, is_subtype, promoted_both};
use std::alloc::Global;

/// Where a type is that of `null`, the other one.
fn if_null(ty: &Ty, other: &Ty) -> Result<Option<Ty>, NoMemory>
    ensures { IfOk result (λ found. type_seen found ≡ if_null (java_type ty.now) (java_type other.now)) }
{
    match ty {
        Ty::Null => Ok(Some(other.copied()?)),
        _ => Ok(None),
    }
}

/// Where one of two types is that of `null`, the other one.
fn other_than_null(second: &Ty, third: &Ty) -> Result<Option<Ty>, NoMemory>
    ensures { IfOk result (λ found. type_seen found ≡ or_else (if_null (java_type second.now) (java_type third.now)) (if_null (java_type third.now) (java_type second.now))) }
{
    match if_null(second, third)? {
        Some(ty) => Ok(Some(ty)),
        None => if_null(third, second),
    }
}

/// Whether a type is not known.
fn is_unknown(ty: &Ty) -> bool
    ensures { result ≡ is_unknown (java_type ty.now) }
{
    matches!(ty, Ty::Unknown)
}

/// Where one of two types is not known, the type that is not known.
fn if_unknown(second: &Ty, third: &Ty) -> Option<Ty>
    ensures { type_seen result ≡ if_unknown (java_type second.now) (java_type third.now) }
{
    if is_unknown(second) || is_unknown(third) {
        Some(Ty::Unknown)
    } else {
        None
    }
}

/// The type where one of the operands has that of `null`, or has none that is known.
fn beside_null(second: &Ty, third: &Ty) -> Result<Option<Ty>, NoMemory>
    ensures { IfOk result (λ found. type_seen found ≡ or_else (or_else (if_null (java_type second.now) (java_type third.now)) (if_null (java_type third.now) (java_type second.now))) (if_unknown (java_type second.now) (java_type third.now))) }
{
    match other_than_null(second, third)? {
        Some(ty) => Ok(Some(ty)),
        None => Ok(if_unknown(second, third)),
    }
}

/// The type, where it is told without asking for supertypes.
fn told_type(second: &Ty, third: &Ty) -> Result<Option<Ty>, NoMemory>
    ensures { IfOk result (λ found. type_seen found ≡ told_type (java_type second.now) (java_type third.now)) }
{
    if same_type(second, third) {
        Ok(Some(second.copied()?))
    } else if are_numeric(second, third) {
        Ok(Some(promoted_both(second, third)))
    } else {
        beside_null(second, third)
    }
}

/// The second operand's type where it is the upper one.
fn second_or_unknown(second: Ty, is_upper: bool) -> Ty
    ensures { java_type result ≡ second_or_unknown (java_type second) is_upper }
{
    if is_upper { second } else { Ty::Unknown }
}

/// The third operand's type where it is the upper one, and else the second's where that is.
#[tactic(auto, using(pj_names::proofs::AskingLaws::asking_steps))]
fn third_or_second<O: Oracle>(
    alloc: Global,
    oracle: &mut O,
    second: Ty,
    third: Ty,
    is_upper: bool,
) -> Result<Ty, AskFault>
    ensures { Asks (third_or_second (java_type second) (java_type third) is_upper) (O.tells oracle.old) (O.tells oracle.new) (seen java_type result) }
{
    if is_upper {
        return Ok(third);
    }
    let is_second = is_subtype(alloc, oracle, &third, &second)?;
    let ty = second_or_unknown(second, is_second);
    Ok(ty)
}

/// The upper one of two types, where one is under the other.
#[tactic(auto, using(pj_names::proofs::AskingLaws::asking_steps))]
fn upper_type<O: Oracle>(
    alloc: Global,
    oracle: &mut O,
    second: Ty,
    third: Ty,
) -> Result<Ty, AskFault>
    ensures { Asks (upper_type (java_type second) (java_type third)) (O.tells oracle.old) (O.tells oracle.new) (seen java_type result) }
{
    let is_under = is_subtype(alloc, oracle, &second, &third)?;
    third_or_second(alloc, oracle, second, third, is_under)
}

/// The type that was told, and else the upper one.
#[tactic(auto, using(pj_names::proofs::AskingLaws::asking_steps))]
fn told_or_upper<O: Oracle>(
    alloc: Global,
    oracle: &mut O,
    second: Ty,
    third: Ty,
    told: Option<Ty>,
) -> Result<Ty, AskFault>
    ensures { Asks (told_or_upper (java_type second) (java_type third) (type_seen told)) (O.tells oracle.old) (O.tells oracle.new) (seen java_type result) }
{
    match told {
        Some(ty) => Ok(ty),
        None => upper_type(alloc, oracle, second, third),
    }
}

/// The type of a conditional expression by those of its second and third operands (JLS 15.25): that of both where they are the same; the promoted one of two
/// numeric types; the other one beside that of `null`; the upper one where one is under the other. Else it is not known.
///
/// It asks for supertypes where nothing before that fits: first for those of the second type, and where it is not under the third, for those of the third.
#[tactic(auto, using(pj_names::proofs::AskingLaws::asking_steps))]
pub fn conditional_type<O: Oracle>(
    alloc: Global,
    oracle: &mut O,
    second: Ty,
    third: Ty,
) -> Result<Ty, AskFault>
    ensures { Asks (conditional_type (java_type second) (java_type third)) (O.tells oracle.old) (O.tells oracle.new) (seen java_type result) }
{
    let told = told_type(&second, &third)?;
    told_or_upper(alloc, oracle, second, third, told)
}
