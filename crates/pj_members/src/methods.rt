//! Methods and constructors, along the supertypes of a class (JLS 8.4.8, 8.8).
ghost use Rattle.std.specs.Prelude.{◌≡◌, ◌++◌, ◌∷◌, [], IfOk, List, OnOk};
ghost use Rattle.std.specs.FinSet as set;
ghost use Rattle.pj_names.specs.JavaType.{Class, NoMore, bound_types, java_type, java_types, type_list};
ghost use Rattle.pj_names.specs.Told.{Asks, known_answer, seen};
ghost use Rattle.pj_names.specs.declared.answer.Answer.TheVariants as answers;
ghost use Rattle.pj_signatures.specs.Seen.{method_view as types_of_method};
ghost use Rattle.pj_signatures.specs.Signature.{letter as letter_of};
ghost use Rattle.pj_types.specs.Members.{FoundMethod, all_methods, method_view};
ghost use Rattle.pj_members.specs.InClass.{method_from, methods_from, methods_of_answer, methods_of_known};
ghost use Rattle.pj_members.specs.Methods.{erasure_text, found_in, key_of, methods_in, methods_in_class, methods_named, parameters_text, searched, unhidden};
ghost use Rattle.pj_members.specs.Seen.{own_or};

use crate::bounds::{in_method, in_place};
use crate::keys::Keys;
use pj_base::{Copied, NoMemory, Text};
use pj_names::{
    Answer, AskFault, Bindings, ClassInfo, ClassName, Member, Members, Oracle, Prim, Ty, TyList,
    Types, look_up,
};
use pj_signatures::{MethodSig, class_signature, method_signature_in};
use pj_types::{Method, Methods, supertype_list};
use std::alloc::Global;
use std::sync::Arc;

/// A method of a class, whose variables are replaced.
fn made_method(
    alloc: Global,
    owner: &ClassName,
    bound: &Bindings,
    member: &Member,
    signature: &MethodSig,
) -> Result<Method, NoMemory>
    ensures { IfOk result (λ method. method_view method ≡ method_from owner.now (bound_types bound.now) member.now (types_of_method signature.now)) }
{
    let owner = owner.copied()?;
    let name = member.name.copied()?;
    let signature = in_method(alloc, bound, signature)?;
    Ok(Method {
        owner,
        flags: member.flags,
        name,
        signature,
    })
}

/// The methods of a name whose signatures are ones (JVMS 4.7.9.1), in their order.
#[tactic(auto, using(crate::proofs::Turns::methods_turns))]
fn methods_from(
    alloc: Global,
    owner: &ClassName,
    parameters: &Bindings,
    bound: &Bindings,
    name: &str,
    members: &Members,
) -> Result<Methods, NoMemory>
    ensures { IfOk result (λ found. all_methods found ≡ methods_from owner.now (bound_types parameters.now) (bound_types bound.now) name.now members.now) }
{
    let mut found = Methods::new(alloc);
    for member in members.as_slice() {
        if member.name.as_str() == name {
            let read = method_signature_in(alloc, parameters, member.signature.as_str())?;
            if let Some(signature) = read {
                let method = made_method(alloc, owner, bound, member, &signature)?;
                found.push(method)?;
            }
        }
    }
    Ok(found)
}

/// The methods of a class that was found. A class whose signature is none has no members.
fn methods_of_class(
    alloc: Global,
    owner: &ClassName,
    is_own: bool,
    arguments: &Types,
    name: &str,
    class: &ClassInfo,
) -> Result<Methods, NoMemory>
    ensures { IfOk result (λ found. all_methods found ≡ methods_of_answer owner.now (own_or is_own arguments.now) name.now (answers.Found class.now)) }
{
    let Some(signature) = class_signature(alloc, class.signature.as_str())? else {
        return Ok(Methods::new(alloc));
    };
    let bound = in_place(alloc, &signature.params, is_own, arguments)?;
    methods_from(
        alloc,
        owner,
        &signature.params,
        &bound,
        name,
        &class.methods,
    )
}

/// The methods of a class, from what is known of it.
pub fn methods_of_known(
    alloc: Global,
    owner: &ClassName,
    is_own: bool,
    arguments: &Types,
    name: &str,
    known: &Option<Arc<Answer>>,
) -> Result<Methods, NoMemory>
    ensures { IfOk result (λ found. all_methods found ≡ methods_of_known owner.now (own_or is_own arguments.now) name.now (known_answer known.now)) }
{
    let Some(answer) = known else {
        return Ok(Methods::new(alloc));
    };
    match &**answer {
        Answer::Found(class) => methods_of_class(alloc, owner, is_own, arguments, name, class),
        Answer::Absent | Answer::Broken(_) => Ok(Methods::new(alloc)),
    }
}

/// The methods of a class on the list of a class: it is asked, unless it is `java.lang.Object`.
#[tactic(auto, using(pj_names::proofs::AskingLaws::asking_steps))]
fn methods_in_class<O: Oracle>(
    alloc: Global,
    oracle: &mut O,
    class: &ClassName,
    name: &str,
    owner: &ClassName,
    arguments: &Types,
) -> Result<Methods, AskFault>
    ensures { Asks (methods_in_class class.now name.now owner.now (java_types arguments.now)) (O.tells oracle.old) (O.tells oracle.new) (seen all_methods result) }
{
    let is_own = owner == class;
    let known = look_up(oracle, owner)?;
    let found = methods_of_known(alloc, owner, is_own, arguments, name, &known)?;
    Ok(found)
}

/// The methods of a type on the list of a class. Each of these is a class.
#[tactic(auto, using(pj_names::proofs::AskingLaws::asking_steps))]
fn methods_in<O: Oracle>(
    alloc: Global,
    oracle: &mut O,
    class: &ClassName,
    name: &str,
    ty: &Ty,
) -> Result<Methods, AskFault>
    ensures { Asks (methods_in class.now name.now (java_type ty.now)) (O.tells oracle.old) (O.tells oracle.new) (seen all_methods result) }
{
    match ty {
        Ty::Class(owner, arguments) => {
            methods_in_class(alloc, oracle, class, name, owner, arguments)
        }
        _ => Ok(Methods::new(alloc)),
    }
}

/// The methods of some types, one after the other.
#[tactic(auto, using(pj_names::proofs::AskingLaws::asking_loops))]
pub fn found_in<O: Oracle>(
    alloc: Global,
    oracle: &mut O,
    class: &ClassName,
    name: &str,
    types: &TyList,
) -> Result<Methods, AskFault>
    ensures { Asks (found_in class.now name.now [] (type_list types.now)) (O.tells oracle.old) (O.tells oracle.new) (seen all_methods result) }
{
    let mut found = Methods::new(alloc);
    for ty in types.as_slice() {
        let more = methods_in(alloc, oracle, class, name, ty)?;
        found.append(more)?;
    }
    Ok(found)
}

/// The list of one class without type arguments.
fn one_class(alloc: Global, class: &ClassName) -> Result<TyList, NoMemory>
    ensures { IfOk result (λ types. type_list types ≡ Class class.now NoMore ∷ []) }
{
    let mut types = TyList::new(alloc);
    types.push(Ty::Class(class.copied()?, Types::End))?;
    Ok(types)
}

/// The types that methods of a name are looked for in.
#[tactic(auto, using(pj_names::proofs::AskingLaws::asking_steps))]
pub fn searched<O: Oracle>(
    alloc: Global,
    oracle: &mut O,
    class: &ClassName,
    name: &str,
) -> Result<TyList, AskFault>
    ensures { Asks (searched class.now name.now) (O.tells oracle.old) (O.tells oracle.new) (seen type_list result) }
{
    if name == "<init>" {
        let types = one_class(alloc, class)?;
        return Ok(types);
    }
    supertype_list(alloc, oracle, class)
}

/// The letter of a primitive type (JVMS 4.3.2).
fn letter(prim: Prim) -> &'static str
    ensures { result.now ≡ letter_of prim ∷ [] }
{
    match prim {
        Prim::Boolean => "Z",
        Prim::Byte => "B",
        Prim::Short => "S",
        Prim::Int => "I",
        Prim::Long => "J",
        Prim::Char => "C",
        Prim::Float => "F",
        Prim::Double => "D",
    }
}

/// Puts the erasure of a type at the end of a text, as a descriptor spells it.
fn push_erasure(text: &mut Text, ty: &Ty) -> Result<(), NoMemory>
    ensures { OnOk result (text.new ≡ text.old ++ erasure_text (java_type ty.now)) }
{
    match ty {
        Ty::Prim(prim) => text.push_str(letter(*prim)),
        Ty::Void => text.push_str("V"),
        Ty::Null => text.push_str("N"),
        Ty::Class(name, _) => push_class(text, name),
        Ty::Array(member) => {
            text.push_str("[")?;
            push_erasure(text, member)
        }
        Ty::Var(_, bound) => push_erasure(text, bound),
        Ty::Unknown => text.push_str("?"),
    }
}

/// Puts a class at the end of a text, as a descriptor spells it, with dots.
fn push_class(text: &mut Text, name: &ClassName) -> Result<(), NoMemory>
    ensures { OnOk result (text.new ≡ text.old ++ 76 ∷ (name.now ++ 59 ∷ [])) }
{
    text.push_str("L")?;
    text.push_str(name.as_str())?;
    text.push_str(";")
}

/// The erased parameters of a method, as a descriptor spells them.
#[tactic(auto, using(crate::proofs::Turns::text_turns))]
pub fn key_of(alloc: Global, method: &Method) -> Result<Text, NoMemory>
    ensures { IfOk result (λ key. key ≡ key_of (method_view method.now)) }
{
    let mut key = Text::new(alloc);
    for ty in method.signature.arguments.as_slice() {
        push_erasure(&mut key, ty)?;
    }
    Ok(key)
}

/// Puts a method at the end, unless one whose erased parameters are among the keys hides it.
#[tactic(auto, using(crate::proofs::Turns::hiding_turns))]
fn put_unhidden(
    alloc: Global,
    keys: &mut Keys,
    left: &mut Methods,
    method: Method,
) -> Result<(), NoMemory>
    ensures { OnOk result ((rest : List FoundMethod) → all_methods left.new ++ unhidden keys.new rest ≡ all_methods left.old ++ unhidden keys.old (method_view method ∷ rest)) }
{
    let key = key_of(alloc, &method)?;
    if keys.insert(key)? {
        left.push(method)?;
    }
    Ok(())
}

/// Methods without those that an earlier one hides.
fn unhidden(alloc: Global, found: Methods) -> Result<Methods, NoMemory>
    ensures { IfOk result (λ left. all_methods left ≡ unhidden set.empty (all_methods found)) }
{
    let mut keys = Keys::new(alloc);
    let mut left = Methods::new(alloc);
    let mut rest = found.into_vec();
    rest.reverse();
    while let Some(method) = rest.pop() {
        put_unhidden(alloc, &mut keys, &mut left, method)?;
    }
    Ok(left)
}

/// The methods of a name of a class, in the order of the list of supertypes, the class itself first. All classes of the list
/// are asked, but `java.lang.Object`, of which nothing is looked for; constructors, `<init>`, are looked for in the class
/// alone. A method whose signature is none of JVMS 4.7.9.1 is left out, and so is one that has the same erased parameters as
/// an earlier one.
///
/// Types are written with the type parameters of the class: in a further class of the list, its type arguments stand in the
/// place of its type parameters, and where it is raw (JLS 4.8), their erased bounds. A method's own type parameters stay.
#[tactic(auto, using(pj_names::proofs::AskingLaws::asking_steps))]
pub fn methods_named<O: Oracle>(
    alloc: Global,
    oracle: &mut O,
    class: &ClassName,
    name: &str,
) -> Result<Methods, AskFault>
    ensures { Asks (methods_named class.now name.now) (O.tells oracle.old) (O.tells oracle.new) (seen all_methods result) }
{
    let types = searched(alloc, oracle, class, name)?;
    let found = found_in(alloc, oracle, class, name, &types)?;
    let left = unhidden(alloc, found)?;
    Ok(left)
}
