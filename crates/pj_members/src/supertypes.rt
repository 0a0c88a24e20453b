//! Direct supertypes of a class with type arguments (JLS 4.10.2).
ghost use Rattle.std.specs.Prelude.{◌≡◌, ◌++◌, ◌∷◌, [], IfOk, OnOk};
ghost use Rattle.pj_names.specs.JavaType.{bound_types, java_type, java_types, type_list};
ghost use Rattle.pj_names.specs.Told.{Asks, known_answer, seen};
ghost use Rattle.pj_names.specs.declared.answer.Answer.TheVariants as answers;
ghost use Rattle.pj_types.specs.Seen.{seen_bindings};
ghost use Rattle.pj_types.specs.Supertypes.{by_arguments, classes_by, direct, of_answer, of_known, with_class};
ghost use Rattle.pj_members.specs.SupertypeWalks.{all_supertypes, supertype_view};

use pj_base::{ListOf, NoMemory};
use pj_names::{Answer, AskFault, Bindings, ClassInfo, ClassName, Oracle, Ty, Types, look_up};
use pj_signatures::{ClassSig, class_signature};
use pj_types::{erase, paired, substitute};
use std::alloc::Global;
use std::sync::Arc;

/// A class on the list of supertypes of a receiver.
#[derive(Drop)]
pub struct Supertype {
    /// The name of the class.
    pub name: ClassName,
    /// The type arguments that it stands with.
    pub arguments: Types,
}

/// Classes on such a list.
pub type Supertypes = ListOf<Supertype>;

/// A supertype with type arguments put in, and erased where the class is raw (JLS 4.8).
fn written(alloc: Global, bindings: &Option<Bindings>, ty: &Ty) -> Result<Ty, NoMemory>
    ensures { IfOk result (λ made. java_type made ≡ by_arguments (seen_bindings bindings.now) (java_type ty.now)) }
{
    match bindings {
        Some(bindings) => substitute(alloc, ty, bindings),
        None => erase(alloc, ty),
    }
}

/// Puts a supertype at the end as it is written, where it is a class.
fn push_class(
    alloc: Global,
    classes: &mut Supertypes,
    bindings: &Option<Bindings>,
    ty: &Ty,
) -> Result<(), NoMemory>
    ensures { OnOk result (all_supertypes classes.new ≡ all_supertypes classes.old ++ with_class (by_arguments (seen_bindings bindings.now) (java_type ty.now)) []) }
{
    if let Ty::Class(name, arguments) = written(alloc, bindings, ty)? {
        classes.push(Supertype { name, arguments })?;
    }
    Ok(())
}

/// The superclass and then the interfaces of a signature, those that are classes.
#[tactic(auto, using(pj_types::proofs::Classes::turns))]
fn classes_of(
    alloc: Global,
    signature: &ClassSig,
    bindings: &Option<Bindings>,
) -> Result<Supertypes, NoMemory>
    ensures { IfOk result (λ classes. all_supertypes classes ≡ classes_by (by_arguments (seen_bindings bindings.now)) (java_type signature.now.superclass ∷ type_list signature.now.interfaces)) }
{
    let mut classes = Supertypes::new(alloc);
    push_class(alloc, &mut classes, bindings, &signature.superclass)?;
    for ty in signature.interfaces.as_slice() {
        push_class(alloc, &mut classes, bindings, ty)?;
    }
    Ok(classes)
}

/// The direct supertypes of a class that was found. One whose signature is none has none.
fn of_class(alloc: Global, arguments: &Types, class: &ClassInfo) -> Result<Supertypes, NoMemory>
    ensures { IfOk result (λ classes. all_supertypes classes ≡ of_answer (Some (java_types arguments.now)) (answers.Found class.now)) }
{
    let Some(signature) = class_signature(alloc, class.signature.as_str())? else {
        return Ok(Supertypes::new(alloc));
    };
    let bindings = paired(alloc, &signature.params, arguments)?;
    classes_of(alloc, &signature, &bindings)
}

/// The direct supertypes of a class, from what is known of it.
fn of_known(
    alloc: Global,
    arguments: &Types,
    known: &Option<Arc<Answer>>,
) -> Result<Supertypes, NoMemory>
    ensures { IfOk result (λ classes. all_supertypes classes ≡ of_known (Some (java_types arguments.now)) (known_answer known.now)) }
{
    let Some(answer) = known else {
        return Ok(Supertypes::new(alloc));
    };
    match &**answer {
        Answer::Found(class) => of_class(alloc, arguments, class),
        Answer::Absent | Answer::Broken(_) => Ok(Supertypes::new(alloc)),
    }
}

/// The direct supertypes of a class with type arguments: its superclass, then its interfaces (JLS 8.1.4, 8.1.5, 9.1.3). The class is asked, unless it is
/// `java.lang.Object`, which has none.
#[tactic(auto, using(pj_names::proofs::AskingLaws::asking_steps), unfolding(pj_types::specs::Supertypes::direct))]
pub fn direct_supertypes<O: Oracle>(
    alloc: Global,
    oracle: &mut O,
    class: &Supertype,
) -> Result<Supertypes, AskFault>
    ensures { Asks (direct (supertype_view class.now)) (O.tells oracle.old) (O.tells oracle.new) (seen all_supertypes result) }
{
    let known = look_up(oracle, &class.name)?;
    let classes = of_known(alloc, &class.arguments, &known)?;
    Ok(classes)
}
