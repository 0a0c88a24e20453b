//! Fields and member classes of the type of a receiver (JLS 6.5.2, 8.5, 10.7, 15.11.1).

ghost use Rattle.std.specs.Prelude.{◌≡◌};
ghost use Rattle.pj_names.specs.JavaType.{java_type, java_types};
ghost use Rattle.pj_names.specs.Told.{Asks, seen};
ghost use Rattle.pj_members.specs.Seen.{seen_field};
ghost use Rattle.pj_receivers.specs.Fields.{field_in, field_of, field_of_array, field_of_class, field_or_member, member_class, member_or_unknown, member_type};

use crate::receivers::as_receiver;
use pj_members::field_of_receiver;
use pj_names::{AskFault, ClassName, Oracle, Prim, Ty, Types};
use pj_outer_names::{File, member_in};
use pj_types::{Field, NameWalk, direct_names};
use std::alloc::Global;

/// The most classes that a walk is followed: a list has no more members.
const MOST_CLASSES: u64 = 4294967294;

/// The member class of a class, of its own or inherited (JLS 8.5), where there is one: the first along the list of supertypes, the class itself
/// first. A class of the list is asked only where the search goes past it. The search goes by names, so no type arguments are put in.
pub fn member_class<O: Oracle>(
    alloc: Global,
    file: &File<'_>,
    oracle: &mut O,
    class: &ClassName,
    name: &str,
) -> Result<Option<ClassName>, AskFault>
    ensures { Asks (member_class file.now class.now name.now) (O.tells oracle.old) (O.tells oracle.new) result }
{
    let mut walk = NameWalk::of(alloc, class)?;
    for _class in 0..MOST_CLASSES {
        let Some(next) = walk.next_class()? else {
            return Ok(None);
        };
        let hit = member_in(alloc, file, oracle, true, &next, name, &next)?;
        if let Some(member) = hit {
            return Ok(Some(member));
        }
        let more = direct_names(alloc, oracle, &next)?;
        walk.put(more)?;
    }
    Err(AskFault::Memory)
}

/// A member class as a type.
fn member_or_unknown(member: Option<ClassName>) -> Ty
    ensures { java_type result ≡ member_or_unknown member }
{
    match member {
        Some(class) => Ty::Class(class, Types::End),
        None => Ty::Unknown,
    }
}

/// The member class of a class, of its own or inherited, as a type.
#[tactic(auto, using(pj_names::proofs::AskingLaws::asking_steps), unfolding(crate::specs::Fields::member_type))]
fn member_type<O: Oracle>(
    alloc: Global,
    file: &File<'_>,
    oracle: &mut O,
    class: &ClassName,
    name: &str,
) -> Result<Ty, AskFault>
    ensures { Asks (member_type file.now class.now name.now) (O.tells oracle.old) (O.tells oracle.new) (seen java_type result) }
{
    let member = member_class(alloc, file, oracle, class, name)?;
    let ty = member_or_unknown(member);
    Ok(ty)
}

/// The type of a field that was found, and else the member class.
#[tactic(auto, using(pj_names::proofs::AskingLaws::asking_steps))]
fn field_or_member<O: Oracle>(
    alloc: Global,
    file: &File<'_>,
    oracle: &mut O,
    class: &ClassName,
    name: &str,
    found: Option<Field>,
) -> Result<Ty, AskFault>
    ensures { Asks (field_or_member file.now class.now name.now (seen_field found)) (O.tells oracle.old) (O.tells oracle.new) (seen java_type result) }
{
    match found {
        Some(field) => Ok(field.ty),
        None => member_type(alloc, file, oracle, class, name),
    }
}

/// The type of a field of a class with type arguments, and else its member class.
#[tactic(auto, using(pj_names::proofs::AskingLaws::asking_steps), unfolding(crate::specs::Fields::field_of_class))]
fn field_of_class<O: Oracle>(
    alloc: Global,
    file: &File<'_>,
    oracle: &mut O,
    class: &ClassName,
    arguments: &Types,
    name: &str,
) -> Result<Ty, AskFault>
    ensures { Asks (field_of_class file.now class.now (java_types arguments.now) name.now) (O.tells oracle.old) (O.tells oracle.new) (seen java_type result) }
{
    let found = field_of_receiver(alloc, oracle, class, arguments, name)?;
    field_or_member(alloc, file, oracle, class, name, found)
}

/// The type of a field of an array: it has its length alone.
fn field_of_array(name: &str) -> Ty
    ensures { java_type result ≡ field_of_array name.now }
{
    if name == "length" {
        Ty::Prim(Prim::Int)
    } else {
        Ty::Unknown
    }
}

/// The type of a field of a type, and else its member class.
#[tactic(auto, using(pj_names::proofs::AskingLaws::asking_steps))]
fn field_in<O: Oracle>(
    alloc: Global,
    file: &File<'_>,
    oracle: &mut O,
    name: &str,
    ty: &Ty,
) -> Result<Ty, AskFault>
    ensures { Asks (field_in file.now name.now (java_type ty.now)) (O.tells oracle.old) (O.tells oracle.new) (seen java_type result) }
{
    match ty {
        Ty::Class(class, arguments) => field_of_class(alloc, file, oracle, class, arguments, name),
        Ty::Array(_) => Ok(field_of_array(name)),
        _ => Ok(Ty::Unknown),
    }
}

/// The type of a field of a receiver of this type, and else the member class of that name.
#[tactic(auto, using(pj_names::proofs::AskingLaws::asking_steps))]
pub fn field_of<O: Oracle>(
    alloc: Global,
    file: &File<'_>,
    oracle: &mut O,
    name: &str,
    receiver: &Ty,
) -> Result<Ty, AskFault>
    ensures { Asks (field_of file.now name.now (java_type receiver.now)) (O.tells oracle.old) (O.tells oracle.new) (seen java_type result) }
{
    field_in(alloc, file, oracle, name, as_receiver(receiver))
}
