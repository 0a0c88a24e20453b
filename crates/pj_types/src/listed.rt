//! Direct supertypes of a class.
ghost use Rattle.std.specs.Prelude.{◌≡◌, ◌++◌, ◌∷◌, [], IfOk, OnOk};
ghost use Rattle.pj_names.specs.JavaType.{JavaType, bound_types, java_type, java_types, type_list};
ghost use Rattle.pj_names.specs.Told.{Asks, seen};
ghost use Rattle.pj_signatures.specs.Seen.{seen_class};
ghost use Rattle.pj_types.specs.Supertypes.{classes_by, direct, given_type, of_answer, paired, signature_of, with_class, written};
ghost use Rattle.pj_types.specs.Seen.{listed, seen_arguments, seen_bindings, written_by, all_listed};

use crate::substitution::{erase, substitute};
use pj_base::{Copied, ListOf, NoMemory};
use pj_names::{Answer, AskFault, Bindings, ClassName, Oracle, Ty, Types, look_up};
use pj_signatures::{ClassSig, class_signature};
use std::alloc::Global;

/// A class on a list of supertypes.
#[derive(Debug, Drop)]
pub struct ListedClass {
    /// The name of the class.
    pub name: ClassName,
    /// Its type arguments; `None` is the first class of the list, which stands with its own type parameters.
    pub arguments: Option<Types>,
}

/// Classes on a list of supertypes.
pub type ListedClasses = ListOf<ListedClass>;

/// How the supertypes of a class are written with the parameters of the first class.
#[derive(Drop)]
pub enum Writing {
    /// As they are declared: they are those of the first class.
    AsDeclared,
    /// With arguments in place of the type parameters.
    Bound(Bindings),
    /// Erased: the class is raw.
    Erased,
}

impl ListedClass {
    /// The type that the class is given as.
    pub fn given_type(&self) -> Result<Ty, NoMemory>
        ensures { IfOk result (λ ty. java_type ty ≡ given_type (listed self.now)) }
    {
        let arguments = match &self.arguments {
            None => Types::End,
            Some(arguments) => arguments.copied()?,
        };
        Ok(Ty::Class(self.name.copied()?, arguments))
    }

    /// The same class once more.
    pub fn copied(&self) -> Result<ListedClass, NoMemory>
        ensures { IfOk result (λ copy. listed copy ≡ listed self.now) }
    {
        let arguments = match &self.arguments {
            None => None,
            Some(arguments) => Some(arguments.copied()?),
        };
        Ok(ListedClass {
            name: self.name.copied()?,
            arguments,
        })
    }
}

impl Writing {
    /// A supertype as it is written.
    fn written(&self, alloc: Global, ty: &Ty) -> Result<Ty, NoMemory>
        ensures { IfOk result (λ made. java_type made ≡ written_by self.now (java_type ty.now)) }
    {
        match self {
            Writing::AsDeclared => ty.copied(),
            Writing::Bound(bindings) => substitute(alloc, ty, bindings),
            Writing::Erased => erase(alloc, ty),
        }
    }
}

/// Type parameters, each with its argument, or `None` where they are not as many (JLS 4.5).
#[tactic(auto, using(crate::proofs::Pairs::turns))]
pub fn paired(
    alloc: Global,
    parameters: &Bindings,
    arguments: &Types,
) -> Result<Option<Bindings>, NoMemory>
    ensures { IfOk result (λ found. seen_bindings found ≡ paired (bound_types parameters.now) (java_types arguments.now)) }
{
    let mut bindings = Bindings::new(alloc);
    let mut rest = arguments;
    for (name, _) in parameters.as_slice() {
        let Types::More(first, more) = rest else {
            return Ok(None);
        };
        bindings.push((name.copied()?, first.copied()?))?;
        rest = more;
    }
    match rest {
        Types::End => Ok(Some(bindings)),
        Types::More(_, _) => Ok(None),
    }
}

/// How the supertypes of a class with some type arguments are written.
fn writing_of(
    alloc: Global,
    parameters: &Bindings,
    arguments: &Option<Types>,
) -> Result<Writing, NoMemory>
    ensures { IfOk result (λ writing. (ty : JavaType) → written_by writing ty ≡ written (bound_types parameters.now) (seen_arguments arguments.now) ty) }
{
    let Some(arguments) = arguments else {
        return Ok(Writing::AsDeclared);
    };
    match paired(alloc, parameters, arguments)? {
        Some(bindings) => Ok(Writing::Bound(bindings)),
        None => Ok(Writing::Erased),
    }
}

/// Puts a supertype at the end as it is written, where it is a class.
fn push_class(
    alloc: Global,
    classes: &mut ListedClasses,
    writing: &Writing,
    ty: &Ty,
) -> Result<(), NoMemory>
    ensures { OnOk result (all_listed classes.new ≡ all_listed classes.old ++ with_class (written_by writing.now (java_type ty.now)) []) }
{
    if let Ty::Class(name, arguments) = writing.written(alloc, ty)? {
        classes.push(ListedClass {
            name,
            arguments: Some(arguments),
        })?;
    }
    Ok(())
}

/// The superclass and then the interfaces of a signature, those that are classes.
#[tactic(auto, using(crate::proofs::Classes::turns))]
fn classes_of(
    alloc: Global,
    signature: &ClassSig,
    writing: &Writing,
) -> Result<ListedClasses, NoMemory>
    ensures { IfOk result (λ classes. all_listed classes ≡ classes_by (written_by writing.now) (java_type signature.now.superclass ∷ type_list signature.now.interfaces)) }
{
    let mut classes = ListedClasses::new(alloc);
    push_class(alloc, &mut classes, writing, &signature.superclass)?;
    for ty in signature.interfaces.as_slice() {
        push_class(alloc, &mut classes, writing, ty)?;
    }
    Ok(classes)
}

/// What the signature of a class that was found spells, where it spells one.
fn signature_of(alloc: Global, answer: &Answer) -> Result<Option<ClassSig>, NoMemory>
    ensures { IfOk result (λ found. seen_class found ≡ signature_of answer.now) }
{
    match answer {
        Answer::Found(class) => class_signature(alloc, class.signature.as_str()),
        Answer::Absent | Answer::Broken(_) => Ok(None),
    }
}

/// The direct supertypes of a class, from what is known of it.
pub fn of_answer(
    alloc: Global,
    arguments: &Option<Types>,
    answer: &Answer,
) -> Result<ListedClasses, NoMemory>
    ensures { IfOk result (λ classes. all_listed classes ≡ of_answer (seen_arguments arguments.now) answer.now) }
{
    let Some(signature) = signature_of(alloc, answer)? else {
        return Ok(ListedClasses::new(alloc));
    };
    let writing = writing_of(alloc, &signature.params, arguments)?;
    classes_of(alloc, &signature, &writing)
}

/// The direct supertypes of a class: its superclass, then its interfaces (JLS 8.1.4, 8.1.5, 9.1.3). The class is asked,
/// unless it is `java.lang.Object`, which has none.
#[tactic(auto, using(pj_names::proofs::AskingLaws::asking_steps), unfolding(crate::specs::Supertypes::direct))]
pub fn direct_supertypes<O: Oracle>(
    alloc: Global,
    oracle: &mut O,
    class: &ListedClass,
) -> Result<ListedClasses, AskFault>
    ensures { Asks (direct (listed class.now)) (O.tells oracle.old) (O.tells oracle.new) (seen all_listed result) }
{
    match look_up(oracle, &class.name)? {
        None => Ok(ListedClasses::new(alloc)),
        Some(answer) => {
            let classes = of_answer(alloc, &class.arguments, &answer)?;
            Ok(classes)
        }
    }
}
