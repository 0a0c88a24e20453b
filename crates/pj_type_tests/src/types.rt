//! Types that have a name, or are under a class that has.
ghost use Rattle.pj_names.specs.JavaType.{java_type};
ghost use Rattle.pj_names.specs.Told.{Asks};
ghost use Rattle.pj_type_tests.specs.Types.{type_is};

use crate::classes::class_is;
use crate::names::has_name;
use pj_names::{AskFault, Oracle, Ty};
use std::alloc::Global;

/// Whether a type has a name, or is under a class that has it (JLS 4.10.2).
///
/// A class is looked at along its list of supertypes, up to the first class that has the name; each class before that one is asked, and never the name itself. A type
/// variable is looked at by its erasure (JLS 4.6). A primitive type and an array are by their names alone, and other types have none.
#[tactic(auto, using(pj_names::proofs::AskingLaws::asking_steps))]
pub fn type_is<O: Oracle>(
    alloc: Global,
    oracle: &mut O,
    ty: &Ty,
    text: &str,
) -> Result<bool, AskFault>
    ensures { Asks (type_is text.now (java_type ty.now)) (O.tells oracle.old) (O.tells oracle.new) result }
{
    match ty {
        Ty::Class(name, _) => class_is(alloc, oracle, name, text),
        Ty::Var(_, bound) => type_is(alloc, oracle, bound, text),
        _ => Ok(has_name(ty, text)),
    }
}
