//! Fields, along the supertypes of a class (JLS 8.3).
ghost use Rattle.std.specs.Prelude.{◌≡◌, IfOk};
ghost use Rattle.pj_names.specs.JavaType.{bound_types, java_type, java_types};
ghost use Rattle.pj_names.specs.Told.{Asks, known_answer, seen};
ghost use Rattle.pj_names.specs.declared.answer.Answer.TheVariants as answers;
ghost use Rattle.pj_types.specs.Members.{field_view};
ghost use Rattle.pj_types.specs.Substitution.{substituted};
ghost use Rattle.pj_members.specs.InClass.{field_of_answer, field_of_known, first_field};
ghost use Rattle.pj_members.specs.Fields.{field_in, field_in_class, find_field};
ghost use Rattle.pj_members.specs.Seen.{own_or, seen_field};

use crate::bounds::in_place;
use pj_base::{Copied, NoMemory};
use pj_names::{
    Answer, AskFault, Bindings, ClassInfo, ClassName, Members, Oracle, Ty, Types, look_up,
};
use pj_signatures::{class_signature, field_signature_in};
use pj_types::{Field, Walk, substitute};
use std::alloc::Global;
use std::sync::Arc;

/// A field of a class, whose variables are replaced.
fn made_field(
    alloc: Global,
    owner: &ClassName,
    bound: &Bindings,
    ty: &Ty,
) -> Result<Field, NoMemory>
    ensures { IfOk result (λ field. field_view field ≡ record { owner = owner.now; ty = substituted (bound_types bound.now) (java_type ty.now) }) }
{
    let owner = owner.copied()?;
    let ty = substitute(alloc, ty, bound)?;
    Ok(Field { owner, ty })
}

/// The first field of a name whose signature is one (JVMS 4.7.9.1).
fn first_field(
    alloc: Global,
    owner: &ClassName,
    parameters: &Bindings,
    bound: &Bindings,
    name: &str,
    members: &Members,
) -> Result<Option<Field>, NoMemory>
    ensures { IfOk result (λ found. seen_field found ≡ first_field owner.now (bound_types parameters.now) (bound_types bound.now) name.now members.now) }
{
    for member in members.as_slice() {
        if member.name.as_str() == name {
            let ty = field_signature_in(alloc, parameters, member.signature.as_str())?;
            if let Some(ty) = ty {
                let field = made_field(alloc, owner, bound, &ty)?;
                return Ok(Some(field));
            }
        }
    }
    Ok(None)
}

/// The field of a class that was found. A class whose signature is none has no members.
fn field_of_class(
    alloc: Global,
    owner: &ClassName,
    is_own: bool,
    arguments: &Types,
    name: &str,
    class: &ClassInfo,
) -> Result<Option<Field>, NoMemory>
    ensures { IfOk result (λ found. seen_field found ≡ field_of_answer owner.now (own_or is_own arguments.now) name.now (answers.Found class.now)) }
{
    let Some(signature) = class_signature(alloc, class.signature.as_str())? else {
        return Ok(None);
    };
    let bound = in_place(alloc, &signature.params, is_own, arguments)?;
    first_field(alloc, owner, &signature.params, &bound, name, &class.fields)
}

/// The field of a class, from what is known of it.
pub fn field_of_known(
    alloc: Global,
    owner: &ClassName,
    is_own: bool,
    arguments: &Types,
    name: &str,
    known: &Option<Arc<Answer>>,
) -> Result<Option<Field>, NoMemory>
    ensures { IfOk result (λ found. seen_field found ≡ field_of_known owner.now (own_or is_own arguments.now) name.now (known_answer known.now)) }
{
    let Some(answer) = known else {
        return Ok(None);
    };
    match &**answer {
        Answer::Found(class) => field_of_class(alloc, owner, is_own, arguments, name, class),
        Answer::Absent | Answer::Broken(_) => Ok(None),
    }
}

/// The field of a class on the list of a class: it is asked, unless it is `java.lang.Object`.
#[tactic(auto, using(pj_names::proofs::AskingLaws::asking_steps))]
fn field_in_class<O: Oracle>(
    alloc: Global,
    oracle: &mut O,
    class: &ClassName,
    name: &str,
    owner: &ClassName,
    arguments: &Types,
) -> Result<Option<Field>, AskFault>
    ensures { Asks (field_in_class class.now name.now owner.now (java_types arguments.now)) (O.tells oracle.old) (O.tells oracle.new) (seen seen_field result) }
{
    let is_own = owner == class;
    let known = look_up(oracle, owner)?;
    let found = field_of_known(alloc, owner, is_own, arguments, name, &known)?;
    Ok(found)
}

/// The field of a type on the list of a class. Each of these is a class.
#[tactic(auto, using(pj_names::proofs::AskingLaws::asking_steps))]
fn field_in<O: Oracle>(
    alloc: Global,
    oracle: &mut O,
    class: &ClassName,
    name: &str,
    ty: &Ty,
) -> Result<Option<Field>, AskFault>
    ensures { Asks (field_in class.now name.now (java_type ty.now)) (O.tells oracle.old) (O.tells oracle.new) (seen seen_field result) }
{
    match ty {
        Ty::Class(owner, arguments) => field_in_class(alloc, oracle, class, name, owner, arguments),
        _ => Ok(None),
    }
}

/// The most classes that a walk is followed: a list has no more members.
const MOST_CLASSES: u64 = 4294967294;

/// A field of a class: the first of its name along the list of supertypes, the class itself first. Each class is asked before
/// the next one is given, but `java.lang.Object`, of which nothing is looked for. A field whose signature is none of JVMS
/// 4.7.9.1 is left out.
///
/// Its type is written with the type parameters of the class: in a further class of the list, its type arguments stand in
/// the place of its type parameters, and where it is raw (JLS 4.8), their erased bounds.
#[tactic(auto, using(pj_types::proofs::AlongTurns::along_loops))]
pub fn find_field<O: Oracle>(
    alloc: Global,
    oracle: &mut O,
    class: &ClassName,
    name: &str,
) -> Result<Option<Field>, AskFault>
    ensures { Asks (find_field class.now name.now) (O.tells oracle.old) (O.tells oracle.new) (seen seen_field result) }
{
    let mut walk = Walk::of(alloc, class)?;
    for _class in 0..MOST_CLASSES {
        let Some(ty) = walk.next_class(oracle)? else {
            return Ok(None);
        };
        let hit = field_in(alloc, oracle, class, name, &ty)?;
        if let Some(field) = hit {
            return Ok(Some(field));
        }
    }
    Err(AskFault::Memory)
}
