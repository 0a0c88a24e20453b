//! The parameters of methods of variable arity (JLS 15.12.2.4).
ghost use Rattle.std.specs.Prelude.{◌≡◌, IfOk};
ghost use Rattle.pj_names.specs.JavaType.{java_type, type_list};
ghost use Rattle.pj_overload.specs.Candidates.{member_of, variable_arity_types};

use pj_base::NoMemory;
use pj_names::{Ty, TyList};
use std::alloc::Global;

/// The type of the members of an array.
fn member_of(ty: &Ty) -> &Ty
    ensures { java_type result.now ≡ member_of (java_type ty.now) }
{
    match ty {
        Ty::Array(member) => member,
        _ => ty,
    }
}

/// The first variable arity parameter types of a method, so many of them (JLS 15.12.2.4): those before the last one, and then the
/// type of the members of the last one, again and again.
#[tactic(auto, using(crate::proofs::Turns::variable_turns))]
pub fn variable_arity_types(
    alloc: Global,
    count: usize,
    parameters: &TyList,
) -> Result<TyList, NoMemory>
    ensures { IfOk result (λ made. type_list made ≡ variable_arity_types count (type_list parameters.now)) }
{
    let mut types = TyList::new(alloc);
    let mut rest = parameters.as_slice();
    for _place in 0..count {
        let Some((first, more)) = rest.split_first() else {
            return Ok(types);
        };
        if more.is_empty() {
            types.push(member_of(first).copied()?)?;
        } else {
            types.push(first.copied()?)?;
            rest = more;
        }
    }
    Ok(types)
}
