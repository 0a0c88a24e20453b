//! Types, as signatures write them (JVMS 4.7.9.1).
//!
//! Each reader takes a text and answers what its front spells with what stands behind it, or `None` where its front
//! spells no such thing.
ghost use Rattle.std.specs.Prelude.{◌≡◌, ◌<◌, ◌≤◌, IfOk, IfSome, IsTrue, IsUtf8, length};
ghost use Rattle.pj_names.specs.JavaType.{JavaType, java_type, java_types, type_list, bound_types};
ghost use Rattle.pj_names.specs.ClassName.{is_class_name};
ghost use Rattle.pj_signatures.specs.Names.{is_identifier};
ghost use Rattle.pj_signatures.specs.Types.{types, arguments_of, class_named, object, bound_in, bound_or};
ghost use Rattle.pj_signatures.specs.Reading.{type_at, inside, reference_by, members_at, class_at, variable_at, arguments_at, listed_at, argument_at, suffix_at};
ghost use Rattle.pj_signatures.specs.Seen.{declared_of, seen_bound, seen_type, seen_types, seen_suffix};

use crate::names::{add_member, class_name, identifier_at, name_of_path, path_at};
use crate::scan::{begins, begins_reference, behind, primitive_at};
use pj_base::{NoMemory, Text};
use pj_names::{Ty, TyList, Types};
use std::alloc::Global;

/// The type variables that are declared where a type stands, with their bounds: those of its own signature, and then
/// those around it.
#[derive(Clone, Copy)]
pub struct Declared<'a> {
    /// Those of the signature itself.
    pub own: &'a [(Text, Ty)],
    /// Those that are declared around it.
    pub around: &'a [(Text, Ty)],
}

/// The bound of the first variable of a name.
fn find_bound<'a>(bindings: &'a [(Text, Ty)], name: &str) -> Option<&'a Ty>
    ensures { (other : JavaType) → seen_bound other result ≡ bound_or other (bound_types bindings.now) name.now }
{
    for (variable, bound) in bindings {
        if variable.as_str() == name {
            return Some(bound);
        }
    }
    None
}

/// `java.lang.Object`.
pub fn object(alloc: Global) -> Result<Ty, NoMemory>
    ensures { IfOk result (λ ty. java_type ty ≡ object) }
{
    Ok(Ty::Class(class_name(alloc, "java.lang.Object")?, Types::End))
}

/// The bound of a type variable that is declared.
#[tactic(auto, using(crate::proofs::Arguments::bound_append))]
fn declared_bound<'a>(declared: &Declared<'a>, name: &str) -> Option<&'a Ty>
    ensures { (other : JavaType) → seen_bound other result ≡ bound_or other (declared_of declared.now) name.now }
{
    match find_bound(declared.own, name) {
        Some(bound) => Some(bound),
        None => find_bound(declared.around, name),
    }
}

/// The bound of a type variable.
fn bound_of(alloc: Global, declared: &Declared<'_>, name: &str) -> Result<Ty, NoMemory>
    ensures { IfOk result (λ ty. java_type ty ≡ bound_in (declared_of declared.now) name.now) }
{
    match declared_bound(declared, name) {
        Some(bound) => {
            let copy = bound.copied()?;
            Ok(copy)
        }
        None => {
            let object = object(alloc)?;
            Ok(object)
        }
    }
}

/// The class of a name with type arguments, or the unknown type where the name is `?`.
pub fn class_named(alloc: Global, name: Text, arguments: TyList) -> Result<Ty, NoMemory>
    requires { IsTrue (is_class_name name) }
    ensures { IfOk result (λ ty. java_type ty ≡ class_named name (arguments_of (type_list arguments))) }
{
    if name.as_str() == "?" {
        return Ok(Ty::Unknown);
    }
    Ok(Ty::Class(
        class_name(alloc, name.as_str())?,
        Types::of(alloc, arguments)?,
    ))
}

/// A type variable.
fn variable_at<'s>(
    alloc: Global,
    declared: &Declared<'_>,
    text: &'s str,
) -> Result<Option<(Ty, &'s str)>, NoMemory>
    ensures value { IfOk result (λ found. seen_type found ≡ variable_at (types (declared_of declared.now)) text.now) }
    ensures shorter { IfOk result (λ found. IfSome found (λ pair. length pair.1.now < length text.now)) }
    ensures utf8 { IfOk result (λ found. IfSome found (λ pair. IsUtf8 pair.1.now)) }
{
    let Some((name, after)) = identifier_at(text) else {
        return Ok(None);
    };
    let Some(rest) = behind(after, b';') else {
        return Ok(None);
    };
    let bound = bound_of(alloc, declared, name)?;
    let variable = Ty::Var(Text::from_str(alloc, name)?, Box::new(alloc, bound)?);
    Ok(Some((variable, rest)))
}

/// A type, where so many signs `[` and `<` may be open.
#[cycle(types_at)]
pub fn type_at<'s>(
    alloc: Global,
    declared: &Declared<'_>,
    open_signs: u8,
    text: &'s str,
) -> Result<Option<(Ty, &'s str)>, NoMemory>
    ensures value { IfOk result (λ found. seen_type found ≡ type_at (types (declared_of declared.now)) open_signs text.now) }
    ensures shorter { IfOk result (λ found. IfSome found (λ pair. length pair.1.now < length text.now)) }
    ensures utf8 { IfOk result (λ found. IfSome found (λ pair. IsUtf8 pair.1.now)) }
{
    if let Some(rest) = behind(text, b'L') {
        return class_at(alloc, declared, open_signs, rest);
    }
    if let Some(rest) = behind(text, b'T') {
        return variable_at(alloc, declared, rest);
    }
    if let Some(rest) = behind(text, b'[') {
        return match type_inside(alloc, declared, open_signs, rest)? {
            Some((member, after)) => Ok(Some((Ty::Array(Box::new(alloc, member)?), after))),
            None => Ok(None),
        };
    }
    match primitive_at(text) {
        Some((prim, rest)) => Ok(Some((Ty::Prim(prim), rest))),
        None => Ok(None),
    }
}

/// A type behind an open sign, where so many may be open before it.
#[cycle(types_at)]
#[tactic(auto, using(crate::proofs::Inside::inside_none, crate::proofs::Inside::inside_more))]
pub fn type_inside<'s>(
    alloc: Global,
    declared: &Declared<'_>,
    open_signs: u8,
    text: &'s str,
) -> Result<Option<(Ty, &'s str)>, NoMemory>
    ensures value { IfOk result (λ found. seen_type found ≡ inside (types (declared_of declared.now)) open_signs text.now) }
    ensures shorter { IfOk result (λ found. IfSome found (λ pair. length pair.1.now < length text.now)) }
    ensures utf8 { IfOk result (λ found. IfSome found (λ pair. IsUtf8 pair.1.now)) }
{
    if open_signs == 0 {
        return Ok(None);
    }
    type_at(alloc, declared, open_signs - 1, text)
}

/// A reference type behind an open sign.
#[cycle(types_at)]
pub fn reference_inside<'s>(
    alloc: Global,
    declared: &Declared<'_>,
    open_signs: u8,
    text: &'s str,
) -> Result<Option<(Ty, &'s str)>, NoMemory>
    ensures value { IfOk result (λ found. seen_type found ≡ reference_by (inside (types (declared_of declared.now)) open_signs) text.now) }
    ensures shorter { IfOk result (λ found. IfSome found (λ pair. length pair.1.now < length text.now)) }
    ensures utf8 { IfOk result (λ found. IfSome found (λ pair. IsUtf8 pair.1.now)) }
{
    if !begins_reference(text) {
        return Ok(None);
    }
    type_inside(alloc, declared, open_signs, text)
}

/// A type argument: a wildcard is its upper bound.
#[cycle(types_at)]
#[tactic(auto, using(crate::proofs::Inside::next_one))]
fn argument_at<'s>(
    alloc: Global,
    declared: &Declared<'_>,
    open_signs: u8,
    text: &'s str,
) -> Result<Option<(Ty, &'s str)>, NoMemory>
    ensures value { IfOk result (λ found. seen_type found ≡ argument_at (types (declared_of declared.now)) (inside (types (declared_of declared.now)) open_signs) text.now) }
    ensures shorter { IfOk result (λ found. IfSome found (λ pair. length pair.1.now < length text.now)) }
    ensures utf8 { IfOk result (λ found. IfSome found (λ pair. IsUtf8 pair.1.now)) }
{
    if let Some(rest) = behind(text, b'*') {
        return Ok(Some((object(alloc)?, rest)));
    }
    if let Some(rest) = behind(text, b'+') {
        return reference_inside(alloc, declared, open_signs, rest);
    }
    if let Some(rest) = behind(text, b'-') {
        return match reference_inside(alloc, declared, open_signs, rest)? {
            Some((_, after)) => Ok(Some((object(alloc)?, after))),
            None => Ok(None),
        };
    }
    reference_inside(alloc, declared, open_signs, text)
}

/// Type arguments: none, or a list in angle brackets.
#[cycle(types_at)]
#[tactic(auto, using(crate::proofs::Inside::open_none, crate::proofs::Inside::open_more))]
fn arguments_at<'s>(
    alloc: Global,
    declared: &Declared<'_>,
    open_signs: u8,
    text: &'s str,
) -> Result<Option<(TyList, &'s str)>, NoMemory>
    ensures value { IfOk result (λ found. seen_types found ≡ arguments_at (types (declared_of declared.now)) open_signs (inside (types (declared_of declared.now)) open_signs) text.now) }
    ensures shorter { IfOk result (λ found. IfSome found (λ pair. length pair.1.now ≤ length text.now)) }
    ensures utf8 { IfOk result (λ found. IfSome found (λ pair. IsUtf8 pair.1.now)) }
{
    let Some(rest) = behind(text, b'<') else {
        return Ok(Some((TyList::new(alloc), text)));
    };
    if open_signs == 0 {
        return Ok(None);
    }
    listed_at(alloc, declared, open_signs, rest)
}

/// A list of type arguments behind its angle bracket: one at least, and at most 255.
#[cycle(types_at)]
#[tactic(auto, using(crate::proofs::Turns::types_turn, crate::proofs::Turns::listed_done, crate::proofs::Turns::listed_empty, crate::proofs::Turns::listed_long, crate::proofs::Many::many_none))]
fn listed_at<'s>(
    alloc: Global,
    declared: &Declared<'_>,
    open_signs: u8,
    text: &'s str,
) -> Result<Option<(TyList, &'s str)>, NoMemory>
    ensures value { IfOk result (λ found. seen_types found ≡ listed_at (types (declared_of declared.now)) (inside (types (declared_of declared.now)) open_signs) text.now) }
    ensures shorter { IfOk result (λ found. IfSome found (λ pair. length pair.1.now < length text.now)) }
    ensures utf8 { IfOk result (λ found. IfSome found (λ pair. IsUtf8 pair.1.now)) }
{
    let mut arguments = TyList::new(alloc);
    let mut rest = text;
    'arguments: while !begins(rest, b'>') {
        let Some((argument, after)) = argument_at(alloc, declared, open_signs, rest)? else {
            return Ok(None);
        };
        arguments.push(argument)?;
        rest = after;
    }
    let Some(after) = behind(rest, b'>') else {
        return Ok(None);
    };
    if arguments.is_empty() || arguments.len() > 255 {
        return Ok(None);
    }
    Ok(Some((arguments, after)))
}

/// The name of a member class with its type arguments, behind a dot.
#[cycle(types_at)]
fn suffix_at<'s>(
    alloc: Global,
    declared: &Declared<'_>,
    open_signs: u8,
    text: &'s str,
) -> Result<Option<((&'s str, TyList), &'s str)>, NoMemory>
    ensures value { IfOk result (λ found. seen_suffix found ≡ suffix_at (types (declared_of declared.now)) open_signs (inside (types (declared_of declared.now)) open_signs) text.now) }
    ensures is_identifier { IfOk result (λ found. IfSome found (λ pair. IsTrue (is_identifier pair.0.0.now))) }
    ensures shorter { IfOk result (λ found. IfSome found (λ pair. length pair.1.now < length text.now)) }
    ensures utf8 { IfOk result (λ found. IfSome found (λ pair. IsUtf8 pair.1.now)) }
{
    let Some(rest) = behind(text, b'.') else {
        return Ok(None);
    };
    let Some((name, after)) = identifier_at(rest) else {
        return Ok(None);
    };
    match arguments_at(alloc, declared, open_signs, after)? {
        Some((arguments, behind)) => Ok(Some(((name, arguments), behind))),
        None => Ok(None),
    }
}

/// The member classes of a class type with its end, where the name and the type arguments so far are given.
#[cycle(types_at)]
#[tactic(auto, using(crate::proofs::Turns::suffix_turn, crate::proofs::Turns::members_done, crate::proofs::Turns::members_open, crate::proofs::Turns::members_none))]
fn members_at<'s>(
    alloc: Global,
    declared: &Declared<'_>,
    open_signs: u8,
    outer: Text,
    outer_arguments: TyList,
    text: &'s str,
) -> Result<Option<(Ty, &'s str)>, NoMemory>
    requires { IsTrue (is_class_name outer) }
    ensures value { IfOk result (λ found. seen_type found ≡ members_at (types (declared_of declared.now)) open_signs (inside (types (declared_of declared.now)) open_signs) (outer, type_list outer_arguments) text.now) }
    ensures shorter { IfOk result (λ found. IfSome found (λ pair. length pair.1.now < length text.now)) }
    ensures utf8 { IfOk result (λ found. IfSome found (λ pair. IsUtf8 pair.1.now)) }
{
    let mut name = outer;
    let mut arguments = outer_arguments;
    let mut rest = text;
    'suffixes: while begins(rest, b'.') {
        let Some(((member, of_member), after)) = suffix_at(alloc, declared, open_signs, rest)?
        else {
            return Ok(None);
        };
        add_member(&mut name, member)?;
        arguments = of_member;
        rest = after;
    }
    let Some(end) = behind(rest, b';') else {
        return Ok(None);
    };
    let class = class_named(alloc, name, arguments)?;
    Ok(Some((class, end)))
}

/// A class type, behind its sign.
#[cycle(types_at)]
fn class_at<'s>(
    alloc: Global,
    declared: &Declared<'_>,
    open_signs: u8,
    text: &'s str,
) -> Result<Option<(Ty, &'s str)>, NoMemory>
    ensures value { IfOk result (λ found. seen_type found ≡ class_at (types (declared_of declared.now)) open_signs (inside (types (declared_of declared.now)) open_signs) text.now) }
    ensures shorter { IfOk result (λ found. IfSome found (λ pair. length pair.1.now < length text.now)) }
    ensures utf8 { IfOk result (λ found. IfSome found (λ pair. IsUtf8 pair.1.now)) }
{
    let Some((path, after)) = path_at(text) else {
        return Ok(None);
    };
    let Some((arguments, behind)) = arguments_at(alloc, declared, open_signs, after)? else {
        return Ok(None);
    };
    let name = name_of_path(alloc, path)?;
    members_at(alloc, declared, open_signs, name, arguments, behind)
}
