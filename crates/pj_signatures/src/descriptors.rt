//! Descriptors (JVMS 4.3), read from the left.
ghost use Rattle.std.specs.Prelude.{◌≡◌, ◌<◌, IfOk, IfSome, IsUtf8, length};
ghost use Rattle.pj_signatures.specs.Reading.{object_at, array_at, field_at, return_at, method_descriptor_at};
ghost use Rattle.pj_signatures.specs.Seen.{seen_type, seen_method_types};

use crate::names::{is_internal_name, name_of_internal};
use crate::scan::{begins, behind, primitive_at, split_run};
use crate::types::class_named;
use pj_base::NoMemory;
use pj_names::{Ty, TyList};
use std::alloc::Global;

/// The class whose name in internal form ends before a semicolon.
fn object_at<'s>(alloc: Global, text: &'s str) -> Result<Option<(Ty, &'s str)>, NoMemory>
    ensures value { IfOk result (λ found. seen_type found ≡ object_at text.now) }
    ensures shorter { IfOk result (λ found. IfSome found (λ pair. length pair.1.now < length text.now)) }
    ensures utf8 { IfOk result (λ found. IfSome found (λ pair. IsUtf8 pair.1.now)) }
{
    let (name, after) = split_run(text, b";");
    let Some(rest) = behind(after, b';') else {
        return Ok(None);
    };
    if !is_internal_name(name) {
        return Ok(None);
    }
    let name = name_of_internal(alloc, name)?;
    let class = class_named(alloc, name, TyList::new(alloc))?;
    Ok(Some((class, rest)))
}

/// A field's type, where it may have so many dimensions.
#[cycle(fields_at)]
pub fn field_at<'s>(
    alloc: Global,
    dimensions: u8,
    text: &'s str,
) -> Result<Option<(Ty, &'s str)>, NoMemory>
    ensures value { IfOk result (λ found. seen_type found ≡ field_at dimensions text.now) }
    ensures shorter { IfOk result (λ found. IfSome found (λ pair. length pair.1.now < length text.now)) }
    ensures utf8 { IfOk result (λ found. IfSome found (λ pair. IsUtf8 pair.1.now)) }
{
    if let Some(rest) = behind(text, b'L') {
        return object_at(alloc, rest);
    }
    if let Some(rest) = behind(text, b'[') {
        return array_at(alloc, dimensions, rest);
    }
    match primitive_at(text) {
        Some((prim, rest)) => Ok(Some((Ty::Prim(prim), rest))),
        None => Ok(None),
    }
}

/// An array behind its sign, where it may have so many dimensions.
#[cycle(fields_at)]
#[tactic(auto, using(crate::proofs::Inside::array_none, crate::proofs::Inside::array_more))]
fn array_at<'s>(
    alloc: Global,
    dimensions: u8,
    text: &'s str,
) -> Result<Option<(Ty, &'s str)>, NoMemory>
    ensures value { IfOk result (λ found. seen_type found ≡ array_at dimensions text.now) }
    ensures shorter { IfOk result (λ found. IfSome found (λ pair. length pair.1.now < length text.now)) }
    ensures utf8 { IfOk result (λ found. IfSome found (λ pair. IsUtf8 pair.1.now)) }
{
    if dimensions == 0 {
        return Ok(None);
    }
    match field_at(alloc, dimensions - 1, text)? {
        Some((component, rest)) => Ok(Some((Ty::Array(Box::new(alloc, component)?), rest))),
        None => Ok(None),
    }
}

/// The result of a method.
fn return_at<'s>(
    alloc: Global,
    dimensions: u8,
    text: &'s str,
) -> Result<Option<(Ty, &'s str)>, NoMemory>
    ensures { IfOk result (λ found. seen_type found ≡ return_at dimensions text.now) }
{
    match behind(text, b'V') {
        Some(rest) => Ok(Some((Ty::Void, rest))),
        None => field_at(alloc, dimensions, text),
    }
}

/// The parameters and the result of a method, where each may have so many dimensions.
#[tactic(auto, using(crate::proofs::Turns::types_turn, crate::proofs::Many::many_none, crate::proofs::Many::many_end))]
pub fn method_descriptor_at<'s>(
    alloc: Global,
    dimensions: u8,
    text: &'s str,
) -> Result<Option<((TyList, Ty), &'s str)>, NoMemory>
    ensures { IfOk result (λ found. seen_method_types found ≡ method_descriptor_at dimensions text.now) }
{
    let Some(first) = behind(text, b'(') else {
        return Ok(None);
    };
    let mut parameters = TyList::new(alloc);
    let mut rest = first;
    'parameters: while !begins(rest, b')') {
        let Some((parameter, after)) = field_at(alloc, dimensions, rest)? else {
            return Ok(None);
        };
        parameters.push(parameter)?;
        rest = after;
    }
    let Some(after) = behind(rest, b')') else {
        return Ok(None);
    };
    match return_at(alloc, dimensions, after)? {
        Some((returned, end)) => Ok(Some(((parameters, returned), end))),
        None => Ok(None),
    }
}
