//! The list of supertypes of a class.
ghost use Rattle.pj_names.specs.JavaType.{type_list};
ghost use Rattle.pj_names.specs.Told.{Asks, seen};
ghost use Rattle.pj_types.specs.Supertypes.{supertype_list, supertypes_of};

use crate::direct::direct_names;
use crate::name_walk::NameWalk;
use crate::walk::Walk;
use pj_base::Names;
use pj_names::{AskFault, ClassName, Oracle, TyList};
use std::alloc::Global;

/// The most classes that a walk is followed: a list has no more members.
pub(crate) const MOST_CLASSES: u64 = 4294967294;

/// The supertypes of a class (JLS 4.10.2), each once: the class, then depth first its superclass, then its interfaces in
/// their order. Each of them is asked but `java.lang.Object`. The class stands without type arguments, each further one with
/// its own, written with the type parameters of the class.
///
/// No number bounds the list: where it has more members than a list can hold, memory is wanted.
pub fn supertype_list<O: Oracle>(
    alloc: Global,
    oracle: &mut O,
    name: &ClassName,
) -> Result<TyList, AskFault>
    ensures { Asks (supertype_list name.now) (O.tells oracle.old) (O.tells oracle.new) (seen type_list result) }
{
    let mut walk = Walk::of(alloc, name)?;
    let mut types = TyList::new(alloc);
    for _class in 0..MOST_CLASSES {
        let Some(ty) = walk.next_class(oracle)? else {
            return Ok(types);
        };
        types.push(ty)?;
    }
    Err(AskFault::Memory)
}

/// The names of a class and of its supertypes, as `supertype_list` gives them.
///
/// The walk goes by names, so no type arguments are put in.
pub fn supertypes<O: Oracle>(
    alloc: Global,
    oracle: &mut O,
    name: &ClassName,
) -> Result<Names, AskFault>
    ensures { Asks (supertypes_of name.now) (O.tells oracle.old) (O.tells oracle.new) result }
{
    let mut walk = NameWalk::of(alloc, name)?;
    let mut names = Names::new(alloc);
    for _class in 0..MOST_CLASSES {
        let Some(class) = walk.next_class()? else {
            return Ok(names);
        };
        let more = direct_names(alloc, oracle, &class)?;
        names.push(class.into_text())?;
        walk.put(more)?;
    }
    Err(AskFault::Memory)
}
