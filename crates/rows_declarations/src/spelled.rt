//! What is made of texts that are no files: parts of names, and signatures as class files write them.
use crate::question::Spelling;
use crate::written::put_parts;
use pj_base::{Copied, NoMemory, Text};
use pj_names::{Bindings, Ty, TyList, copied_types};
use pj_row_java::unquoted;
use pj_signatures::{ClassSig, MethodSig, field_signature};
use pj_tree::Node;
use pj_written::{
    Parameter, Parameters, Written, class_signature, member_name, method_signature, name_of_text,
    next_candidate, type_signature, with_dots,
};
use std::alloc::Global;

/// What is made of a text.
pub fn spelled(alloc: Global, spelling: Spelling, text: &str) -> Result<Text, NoMemory> {
    let text = unquoted(text);
    match spelling {
        Spelling::Parts => parts(alloc, text),
        Spelling::Candidate => candidate(alloc, text),
        Spelling::Member => member(alloc, text),
        Spelling::Type => of_type(alloc, text),
        Spelling::Class => of_class(alloc, text),
        Spelling::Method => of_method(alloc, text),
        Spelling::BoundedMethod => of_bounded_method(alloc, text),
    }
}

/// The parts of a name at the node 7, if they are the text again with dots between.
fn parts_of(alloc: Global, name: &Written, text: &str) -> Result<Text, NoMemory> {
    let whole = with_dots(alloc, &name.parts)?;
    let mut out = Text::new(alloc);
    if name.at.0 == 7 && whole.as_str() == text {
        put_parts(&mut out, name)?;
    } else {
        out.push_str("! another text")?;
    }
    Ok(out)
}

/// The parts of a text as a name.
fn parts(alloc: Global, text: &str) -> Result<Text, NoMemory> {
    let name = name_of_text(alloc, Node(7), text)?;
    parts_of(alloc, &name, text)
}

/// The next candidate of a name.
fn candidate(alloc: Global, text: &str) -> Result<Text, NoMemory> {
    match next_candidate(alloc, text)? {
        Some(next) => Ok(next),
        None => Text::from_str(alloc, "none"),
    }
}

/// The name of the member of a class, with `of` between.
fn member(alloc: Global, text: &str) -> Result<Text, NoMemory> {
    let (member, outer) = text.split_once(" of ").unwrap_or(("", ""));
    member_name(alloc, outer, member)
}

/// The type of a signature, that of `null`, and `void` where it is none.
fn type_of(alloc: Global, text: &str) -> Result<Ty, NoMemory> {
    if text == "null" {
        return Ok(Ty::Null);
    }
    match field_signature(alloc, text)? {
        Some(ty) => Ok(ty),
        None => Ok(Ty::Void),
    }
}

/// The signature of the type that a text spells.
fn of_type(alloc: Global, text: &str) -> Result<Text, NoMemory> {
    let ty = type_of(alloc, text)?;
    type_signature(alloc, &ty)
}

/// A type parameter.
fn parameter(name: Text, bounds: TyList) -> Parameter {
    Parameter { name, bounds }
}

/// Puts a copy of a bound.
fn push_bound(bounds: &mut TyList, bound: &Ty) -> Result<(), NoMemory> {
    bounds.push(bound.copied()?)
}

/// A list of one bound.
fn one_bound(alloc: Global, bound: &Ty) -> Result<TyList, NoMemory> {
    let mut bounds = TyList::new(alloc);
    push_bound(&mut bounds, bound)?;
    Ok(bounds)
}

/// Puts a type parameter that has one bound.
fn push_parameter(
    alloc: Global,
    parameters: &mut Parameters,
    name: &Text,
    bound: &Ty,
) -> Result<(), NoMemory> {
    let name = name.copied()?;
    parameters.push(parameter(name, one_bound(alloc, bound)?))
}

/// Type parameters that have one bound each.
fn parameters(alloc: Global, params: &Bindings) -> Result<Parameters, NoMemory> {
    let mut parameters = Parameters::new(alloc);
    for (name, bound) in params.as_slice() {
        push_parameter(alloc, &mut parameters, name, bound)?;
    }
    Ok(parameters)
}

/// The signature of a class.
fn class_again(alloc: Global, class: &ClassSig) -> Result<Text, NoMemory> {
    let parameters = parameters(alloc, &class.params)?;
    class_signature(alloc, &parameters, &class.superclass, &class.interfaces)
}

/// The signature of the class that a text spells.
fn of_class(alloc: Global, text: &str) -> Result<Text, NoMemory> {
    match pj_signatures::class_signature(alloc, text)? {
        Some(class) => class_again(alloc, &class),
        None => Text::from_str(alloc, "! no class"),
    }
}

/// The signature of a method.
fn method_again(alloc: Global, method: &MethodSig) -> Result<Text, NoMemory> {
    let parameters = parameters(alloc, &method.params)?;
    method_signature(alloc, &parameters, &method.arguments, &method.result)
}

/// The signature of the method that a text spells.
fn of_method(alloc: Global, text: &str) -> Result<Text, NoMemory> {
    match pj_signatures::method_signature(alloc, text)? {
        Some(method) => method_again(alloc, &method),
        None => Text::from_str(alloc, "! no method"),
    }
}

/// Puts the type of a signature.
fn push_type(alloc: Global, types: &mut TyList, text: &str) -> Result<(), NoMemory> {
    types.push(type_of(alloc, text)?)
}

/// The types of signatures with spaces between.
fn types_of(alloc: Global, text: &str) -> Result<TyList, NoMemory> {
    let mut types = TyList::new(alloc);
    for word in text.split(' ') {
        push_type(alloc, &mut types, word)?;
    }
    Ok(types)
}

/// Puts `T` with these bounds.
fn push_bounded(
    alloc: Global,
    parameters: &mut Parameters,
    bounds: &TyList,
) -> Result<(), NoMemory> {
    let name = Text::from_str(alloc, "T")?;
    parameters.push(parameter(name, copied_types(bounds)?))
}

/// Puts `U` without a bound.
fn push_free(alloc: Global, parameters: &mut Parameters) -> Result<(), NoMemory> {
    let name = Text::from_str(alloc, "U")?;
    parameters.push(parameter(name, TyList::new(alloc)))
}

/// `T` with these bounds, and `U` without one.
fn two_parameters(alloc: Global, bounds: &TyList) -> Result<Parameters, NoMemory> {
    let mut parameters = Parameters::new(alloc);
    push_bounded(alloc, &mut parameters, bounds)?;
    push_free(alloc, &mut parameters)?;
    Ok(parameters)
}

/// The signature of a method with `T`, which has these bounds, and `U`, which has none, with arguments of these types and no result.
fn with_bounds(alloc: Global, types: &TyList) -> Result<Text, NoMemory> {
    let parameters = two_parameters(alloc, types)?;
    let result = Ty::Void;
    method_signature(alloc, &parameters, types, &result)
}

/// The same, of types with spaces between.
fn of_bounded_method(alloc: Global, text: &str) -> Result<Text, NoMemory> {
    let types = types_of(alloc, text)?;
    with_bounds(alloc, &types)
}
