//! The type of a method call (JLS 15.12.3).

ghost use Rattle.std.specs.Prelude.{◌≡◌, ◌++◌, ◌∷◌, List, IfOk, OnOk};
ghost use Rattle.pj_names.specs.JavaType.{JavaType, bound_types, java_type, type_list};
ghost use Rattle.pj_names.specs.Told.{Asks, seen};
ghost use Rattle.pj_signatures.specs.Seen.{method_view, seen_option};
ghost use Rattle.pj_calls.specs.Results.{all_inferred, all_same, chosen_result, common, inferred, is_variable, passed_for, result_or_unknown, result_type};
ghost use Rattle.pj_calls.specs.Seen.{candidates_view, seen_chosen};

use crate::candidates::Candidates;
use crate::choosing::{Chosen, chosen_among};
use pj_base::{Copied, NoMemory, Numbers, Text};
use pj_names::{AskFault, Bindings, Oracle, Ty, TyList};
use pj_operators::same_type;
use pj_signatures::MethodSig;
use pj_types::{boxed, erase, substitute};
use std::alloc::Global;

/// Whether a type is just the type variable of a name.
fn is_variable(name: &Text, ty: &Ty) -> bool
    ensures { result ≡ is_variable name.now (java_type ty.now) }
{
    match ty {
        Ty::Var(variable, _) => variable.as_str() == name.as_str(),
        _ => false,
    }
}

/// Puts the boxed type of an argument at the end, where that of the parameter is just the type variable.
fn put_passed(
    alloc: Global,
    passed: &mut TyList,
    name: &Text,
    parameter: &Ty,
    argument: &Ty,
) -> Result<(), NoMemory>
    ensures { OnOk result ((parameters arguments : List JavaType) → type_list passed.new ++ passed_for name.now parameters arguments ≡ type_list passed.old ++ passed_for name.now (java_type parameter.now ∷ parameters) (java_type argument.now ∷ arguments)) }
{
    if !is_variable(name, parameter) {
        return Ok(());
    }
    passed.push(boxed(alloc, argument)?)
}

/// The boxed types of the arguments for the parameters whose type is just the type variable.
fn passed_for(
    alloc: Global,
    name: &Text,
    parameters: &[Ty],
    arguments: &[Ty],
) -> Result<TyList, NoMemory>
    ensures { IfOk result (λ passed. type_list passed ≡ passed_for name.now (type_list parameters.now) (type_list arguments.now)) }
{
    let mut passed = TyList::new(alloc);
    for (place, parameter) in parameters.iter().enumerate() {
        let Some(argument) = arguments.get(place) else {
            return Ok(passed);
        };
        put_passed(alloc, &mut passed, name, parameter, argument)?;
    }
    Ok(passed)
}

/// Whether all of some types are the same as one.
fn all_same(ty: &Ty, types: &[Ty]) -> bool
    ensures { result ≡ all_same (java_type ty.now) (type_list types.now) }
{
    for other in types {
        if !same_type(ty, other) {
            return false;
        }
    }
    true
}

/// The type that all of some are, where there are some and they agree.
fn common(types: &TyList) -> Result<Option<Ty>, NoMemory>
    ensures { IfOk result (λ found. seen_option found ≡ common (type_list types.now)) }
{
    let Some((first, rest)) = types.as_slice().split_first() else {
        return Ok(None);
    };
    if !all_same(first, rest) {
        return Ok(None);
    }
    Ok(Some(first.copied()?))
}

/// What stands in the place of a type parameter of a method: the common type of the arguments that say it, and else its erased bound.
fn inferred(
    alloc: Global,
    signature: &MethodSig,
    arguments: &TyList,
    name: &Text,
    bound: &Ty,
) -> Result<Ty, NoMemory>
    ensures { IfOk result (λ ty. java_type ty ≡ inferred (method_view signature.now) (type_list arguments.now) (name.now, java_type bound.now)) }
{
    let passed = passed_for(
        alloc,
        name,
        signature.arguments.as_slice(),
        arguments.as_slice(),
    )?;
    match common(&passed)? {
        Some(ty) => Ok(ty),
        None => erase(alloc, bound),
    }
}

/// What stands in the place of each type parameter of a method.
fn all_inferred(
    alloc: Global,
    signature: &MethodSig,
    arguments: &TyList,
) -> Result<Bindings, NoMemory>
    ensures { IfOk result (λ made. bound_types made ≡ all_inferred (method_view signature.now) (type_list arguments.now)) }
{
    let mut made = Bindings::new(alloc);
    for (name, bound) in signature.params.as_slice() {
        made.push((
            name.copied()?,
            inferred(alloc, signature, arguments, name, bound)?,
        ))?;
    }
    Ok(made)
}

/// The result of a method for arguments of some types. A type parameter of the method that is the whole type of some parameters is the boxed type of the arguments for these, where they all
/// agree; in every other case it is its erased bound.
pub fn result_type(alloc: Global, signature: &MethodSig, arguments: &TyList) -> Result<Ty, NoMemory>
    ensures { IfOk result (λ ty. java_type ty ≡ result_type (method_view signature.now) (type_list arguments.now)) }
{
    let bindings = all_inferred(alloc, signature, arguments)?;
    substitute(alloc, &signature.result, &bindings)
}

/// The type of a method call: the result of the method that is chosen. Where none is, it is not known.
pub fn result_or_unknown(alloc: Global, chosen: &Option<Chosen>) -> Result<Ty, NoMemory>
    ensures { IfOk result (λ ty. java_type ty ≡ result_or_unknown (seen_chosen chosen.now)) }
{
    match chosen {
        Some(chosen) => result_type(alloc, &chosen.method.signature, &chosen.arguments),
        None => Ok(Ty::Unknown),
    }
}

/// The type of a method call by its candidates and the types of its arguments: the result of the method that is chosen.
#[tactic(auto, using(pj_names::proofs::AskingLaws::asking_steps))]
pub fn chosen_result<O: Oracle>(
    alloc: Global,
    oracle: &mut O,
    candidates: Candidates,
    arguments: TyList,
    functions: &Numbers,
) -> Result<Ty, AskFault>
    ensures { Asks (chosen_result (candidates_view candidates) (type_list arguments) functions.now) (O.tells oracle.old) (O.tells oracle.new) (seen java_type result) }
{
    let chosen = chosen_among(alloc, oracle, candidates, arguments, functions)?;
    let ty = result_or_unknown(alloc, &chosen)?;
    Ok(ty)
}
