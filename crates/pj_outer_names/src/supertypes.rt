//! Names of direct supertypes.

ghost use Rattle.std.specs.Prelude.{◌≡◌, ◌++◌, ◌∷◌, [], None, IfOk, OnOk};
ghost use Rattle.pj_names.specs.JavaType.{java_type, type_list};
ghost use Rattle.pj_names.specs.Told.{Asks};
ghost use Rattle.pj_signatures.specs.Reading.{class_signature_of};
ghost use Rattle.pj_types.specs.Supertypes.{of_answer, of_signature};
ghost use Rattle.pj_outer_names.specs.Inherited.{class_names, listed_names, outside_supertypes, with_name};

use pj_base::NoMemory;
use pj_names::{Answer, AskFault, ClassName, ClassNames, Oracle, Ty, TyList};
use pj_signatures::{ClassSig, class_signature};
use std::alloc::Global;

/// Puts the name of a type at the end, where it is a class.
fn put_class(names: &mut ClassNames, ty: Ty) -> Result<(), NoMemory>
    ensures { OnOk result (names.new ≡ names.old ++ with_name (java_type ty) []) }
{
    match ty {
        Ty::Class(name, _) => names.push(name),
        _ => Ok(()),
    }
}

/// Some names, and behind them those of the classes among some types.
#[tactic(auto, using(crate::proofs::Listed::gathered))]
pub fn with_classes(mut names: ClassNames, types: TyList) -> Result<ClassNames, NoMemory>
    ensures { IfOk result (λ all. all ≡ names ++ class_names (type_list types)) }
{
    for ty in types.into_vec() {
        put_class(&mut names, ty)?;
    }
    Ok(names)
}

/// The names of the superclass and then of the interfaces of a signature.
#[tactic(auto, using(crate::proofs::Listed::gathered))]
fn signature_names(alloc: Global, signature: ClassSig) -> Result<ClassNames, NoMemory>
    ensures { IfOk result (λ names. names ≡ class_names (java_type signature.superclass ∷ type_list signature.interfaces)) }
{
    let ClassSig {
        params: _params,
        superclass,
        interfaces,
    } = signature;
    let mut names = ClassNames::new(alloc);
    put_class(&mut names, superclass)?;
    let names = with_classes(names, interfaces)?;
    Ok(names)
}

/// The names of the superclass and the interfaces that a signature spells. One that is none spells no supertypes.
#[tactic(auto, using(crate::proofs::Listed::spelled))]
fn spelled_names(alloc: Global, signature: &str) -> Result<ClassNames, NoMemory>
    ensures { IfOk result (λ names. names ≡ listed_names (of_signature None (class_signature_of signature.now))) }
{
    let Some(signature) = class_signature(alloc, signature)? else {
        return Ok(ClassNames::new(alloc));
    };
    let names = signature_names(alloc, signature)?;
    Ok(names)
}

/// The names of the superclass and the interfaces of a class, by its answer.
fn supertype_names(alloc: Global, answer: &Answer) -> Result<ClassNames, NoMemory>
    ensures { IfOk result (λ names. names ≡ listed_names (of_answer None answer.now)) }
{
    match answer {
        Answer::Found(class) => spelled_names(alloc, class.signature.as_str()),
        Answer::Absent | Answer::Broken(_) => Ok(ClassNames::new(alloc)),
    }
}

/// The names of the direct supertypes of a class outside the file, which is asked.
#[tactic(auto, using(pj_names::proofs::AskingLaws::asking_steps))]
pub fn outside_supertypes<O: Oracle>(
    alloc: Global,
    oracle: &mut O,
    name: &ClassName,
) -> Result<ClassNames, AskFault>
    ensures { Asks (outside_supertypes name.now) (O.tells oracle.old) (O.tells oracle.new) result }
{
    let answer = oracle.ask(name)?;
    let names = supertype_names(alloc, &answer)?;
    Ok(names)
}
