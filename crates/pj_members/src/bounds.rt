//! What stands in the place of type parameters in the members of a class.
ghost use Rattle.std.specs.Prelude.{◌≡◌, IfOk};
ghost use Rattle.pj_names.specs.JavaType.{bound_types, type_list};
ghost use Rattle.pj_signatures.specs.Seen.{method_view};
ghost use Rattle.pj_members.specs.InClass.{all_substituted, bounds_substituted, erased_bounds, in_method, in_place, is_bound, without};
ghost use Rattle.pj_members.specs.Seen.{own_or};

use pj_base::{Copied, NoMemory, Text};
use pj_names::{Bindings, TyList, Types};
use pj_signatures::MethodSig;
use pj_types::{erase, paired, substitute};
use std::alloc::Global;

/// Each type parameter with its erased bound (JLS 4.6).
fn erased_bounds(alloc: Global, parameters: &Bindings) -> Result<Bindings, NoMemory>
    ensures { IfOk result (λ bound. bound_types bound ≡ erased_bounds (bound_types parameters.now)) }
{
    let mut bounds = Bindings::new(alloc);
    for (name, bound) in parameters.as_slice() {
        bounds.push((name.copied()?, erase(alloc, bound)?))?;
    }
    Ok(bounds)
}

/// What stands in the place of the type parameters of a class on a list of supertypes: its type arguments; where it is raw
/// (JLS 4.8), their erased bounds; and nothing where it is the class that the list is of.
pub fn in_place(
    alloc: Global,
    parameters: &Bindings,
    is_own: bool,
    arguments: &Types,
) -> Result<Bindings, NoMemory>
    ensures { IfOk result (λ bound. bound_types bound ≡ in_place (bound_types parameters.now) (own_or is_own arguments.now)) }
{
    if is_own {
        return Ok(Bindings::new(alloc));
    }
    match paired(alloc, parameters, arguments)? {
        Some(given) => Ok(given),
        None => erased_bounds(alloc, parameters),
    }
}

/// Whether a name is bound.
fn is_bound(bound: &Bindings, name: &Text) -> bool
    ensures { result ≡ is_bound (bound_types bound.now) name.now }
{
    for (variable, _) in bound.as_slice() {
        if variable == name {
            return true;
        }
    }
    false
}

/// Those that are not named as a type parameter of a method.
#[tactic(auto, using(crate::proofs::Turns::without_turns))]
fn without(alloc: Global, own: &Bindings, bound: &Bindings) -> Result<Bindings, NoMemory>
    ensures { IfOk result (λ left. bound_types left ≡ without (bound_types own.now) (bound_types bound.now)) }
{
    let mut left = Bindings::new(alloc);
    for (name, ty) in bound.as_slice() {
        if !is_bound(own, name) {
            left.push((name.copied()?, ty.copied()?))?;
        }
    }
    Ok(left)
}

/// Types with their variables replaced.
fn all_substituted(alloc: Global, types: &TyList, bound: &Bindings) -> Result<TyList, NoMemory>
    ensures { IfOk result (λ made. type_list made ≡ all_substituted (bound_types bound.now) (type_list types.now)) }
{
    let mut made = TyList::new(alloc);
    for ty in types.as_slice() {
        made.push(substitute(alloc, ty, bound)?)?;
    }
    Ok(made)
}

/// Type parameters with the variables in their bounds replaced.
fn bounds_substituted(
    alloc: Global,
    parameters: &Bindings,
    bound: &Bindings,
) -> Result<Bindings, NoMemory>
    ensures { IfOk result (λ made. bound_types made ≡ bounds_substituted (bound_types bound.now) (bound_types parameters.now)) }
{
    let mut made = Bindings::new(alloc);
    for (name, ty) in parameters.as_slice() {
        made.push((name.copied()?, substitute(alloc, ty, bound)?))?;
    }
    Ok(made)
}

/// A method's types with the variables of its class replaced: its own type parameters stay (JLS 8.4.4).
pub fn in_method(
    alloc: Global,
    bound: &Bindings,
    signature: &MethodSig,
) -> Result<MethodSig, NoMemory>
    ensures { IfOk result (λ made. method_view made ≡ in_method (bound_types bound.now) (method_view signature.now)) }
{
    let outside = without(alloc, &signature.params, bound)?;
    let params = bounds_substituted(alloc, &signature.params, &outside)?;
    let arguments = all_substituted(alloc, &signature.arguments, &outside)?;
    let result = substitute(alloc, &signature.result, &outside)?;
    Ok(MethodSig {
        params,
        arguments,
        result,
    })
}
