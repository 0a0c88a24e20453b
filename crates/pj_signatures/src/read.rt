//! Whole texts read from the left: the supertypes and the types of methods that signatures write (JVMS 4.7.9.1).
ghost use Rattle.std.specs.Prelude.{◌≡◌, ◌<◌, [], IfOk, IfSome, IsUtf8, length};
ghost use Rattle.pj_names.specs.JavaType.{java_type, bound_types};
ghost use Rattle.pj_signatures.specs.Types.{types};
ghost use Rattle.pj_signatures.specs.Reading.{whole, two_of, many, not_empty, put, class_type_at, thrown_at, result_at, supertypes_at, arguments_of_method_at, types_at, descriptor_of, method_descriptor_of, field_signature_of, result_read, class_signature_of, method_signature_of};
ghost use Rattle.pj_signatures.specs.Seen.{declared_of, seen_option, seen_type, seen_types, seen_list, seen_class_bound, seen_types_of_method, seen_class, seen_method, seen_supertypes};

use crate::descriptors::{field_at, method_descriptor_at};
use crate::parameters::parameters_at;
use crate::scan::{begins, behind};
use crate::signature::{ClassSig, MethodSig};
use crate::types::{Declared, type_at};
use pj_base::NoMemory;
use pj_names::{Bindings, Ty, TyList};
use std::alloc::Global;

/// The most signs `[` and `<` that are open at one place.
const MOST_OPEN: u8 = 255;

/// A type that was read, where nothing stands behind it.
fn whole(found: Option<(Ty, &str)>) -> Option<Ty>
    ensures { seen_option result ≡ whole (seen_type found.entry) }
{
    match found {
        Some((ty, rest)) if rest.is_empty() => Some(ty),
        _ => None,
    }
}

/// The type that a field's descriptor is read as.
#[tactic(auto, unfolding(crate::specs::Reading::descriptor_of))]
pub fn read_descriptor(alloc: Global, text: &str) -> Result<Option<Ty>, NoMemory>
    ensures { IfOk result (λ found. seen_option found ≡ descriptor_of text.now) }
{
    let found = field_at(alloc, MOST_OPEN, text)?;
    Ok(whole(found))
}

/// The types that a method's descriptor is read as.
#[tactic(auto, unfolding(crate::specs::Reading::method_descriptor_of))]
pub fn read_method_descriptor(alloc: Global, text: &str) -> Result<Option<MethodSig>, NoMemory>
    ensures { IfOk result (λ found. seen_method found ≡ method_descriptor_of text.now) }
{
    match method_descriptor_at(alloc, MOST_OPEN, text)? {
        Some(((arguments, result), rest)) if rest.is_empty() => Ok(Some(MethodSig {
            params: Bindings::new(alloc),
            arguments,
            result,
        })),
        _ => Ok(None),
    }
}

/// The type that a type's signature is read as, where some type variables are declared.
#[tactic(auto, unfolding(crate::specs::Reading::field_signature_of))]
pub fn read_field_signature(
    alloc: Global,
    around: &Bindings,
    text: &str,
) -> Result<Option<Ty>, NoMemory>
    ensures { IfOk result (λ found. seen_option found ≡ field_signature_of (bound_types around.now) text.now) }
{
    let declared = Declared {
        own: &[],
        around: around.as_slice(),
    };
    let found = type_at(alloc, &declared, MOST_OPEN, text)?;
    Ok(whole(found))
}

/// A class's type.
fn class_type_at<'s>(
    alloc: Global,
    declared: &Declared<'_>,
    text: &'s str,
) -> Result<Option<(Ty, &'s str)>, NoMemory>
    ensures value { IfOk result (λ found. seen_type found ≡ class_type_at (types (declared_of declared.now)) 255 text.now) }
    ensures shorter { IfOk result (λ found. IfSome found (λ pair. length pair.1.now < length text.now)) }
    ensures utf8 { IfOk result (λ found. IfSome found (λ pair. IsUtf8 pair.1.now)) }
{
    if !begins(text, b'L') {
        return Ok(None);
    }
    type_at(alloc, declared, MOST_OPEN, text)
}

/// Interfaces, up to the end of the text.
#[tactic(auto, using(crate::proofs::Turns::types_turn, crate::proofs::Turns::all_done, crate::proofs::Many::many_none))]
fn interfaces_at(
    alloc: Global,
    declared: &Declared<'_>,
    text: &str,
) -> Result<Option<TyList>, NoMemory>
    ensures { IfOk result (λ found. seen_list found ≡ whole (many not_empty (class_type_at (types (declared_of declared.now)) 255) put [] text.now)) }
{
    let mut interfaces = TyList::new(alloc);
    let mut rest = text;
    'interfaces: while !rest.is_empty() {
        let Some((interface, next)) = class_type_at(alloc, declared, rest)? else {
            return Ok(None);
        };
        interfaces.push(interface)?;
        rest = next;
    }
    Ok(Some(interfaces))
}

/// A superclass and interfaces, up to the end of the text.
fn supertypes_at(
    alloc: Global,
    declared: &Declared<'_>,
    text: &str,
) -> Result<Option<(Ty, TyList)>, NoMemory>
    ensures { IfOk result (λ found. seen_supertypes found ≡ whole (supertypes_at (types (declared_of declared.now)) 255 text.now)) }
{
    let Some((superclass, behind)) = class_type_at(alloc, declared, text)? else {
        return Ok(None);
    };
    match interfaces_at(alloc, declared, behind)? {
        Some(interfaces) => Ok(Some((superclass, interfaces))),
        None => Ok(None),
    }
}

/// The parameters of a method.
#[tactic(auto, using(crate::proofs::Turns::types_turn, crate::proofs::Many::many_none, crate::proofs::Many::many_end))]
fn arguments_at<'s>(
    alloc: Global,
    declared: &Declared<'_>,
    text: &'s str,
) -> Result<Option<(TyList, &'s str)>, NoMemory>
    ensures value { IfOk result (λ found. seen_types found ≡ arguments_of_method_at (types (declared_of declared.now)) 255 text.now) }
    ensures utf8 { IfOk result (λ found. IfSome found (λ pair. IsUtf8 pair.1.now)) }
{
    let Some(first) = behind(text, b'(') else {
        return Ok(None);
    };
    let mut arguments = TyList::new(alloc);
    let mut rest = first;
    'arguments: while !begins(rest, b')') {
        let Some((argument, next)) = type_at(alloc, declared, MOST_OPEN, rest)? else {
            return Ok(None);
        };
        arguments.push(argument)?;
        rest = next;
    }
    match behind(rest, b')') {
        Some(end) => Ok(Some((arguments, end))),
        None => Ok(None),
    }
}

/// The result of a method, or `None` where it is `V`.
fn result_at<'s>(
    alloc: Global,
    declared: &Declared<'_>,
    text: &'s str,
) -> Result<Option<(Option<Ty>, &'s str)>, NoMemory>
    ensures value { IfOk result (λ found. seen_class_bound found ≡ result_at (types (declared_of declared.now)) 255 text.now) }
    ensures utf8 { IfOk result (λ found. IfSome found (λ pair. IsUtf8 pair.1.now)) }
{
    if let Some(rest) = behind(text, b'V') {
        return Ok(Some((None, rest)));
    }
    match type_at(alloc, declared, MOST_OPEN, text)? {
        Some((ty, rest)) => Ok(Some((Some(ty), rest))),
        None => Ok(None),
    }
}

/// What a method throws: a class or a type variable.
fn thrown_at<'s>(
    alloc: Global,
    declared: &Declared<'_>,
    text: &'s str,
) -> Result<Option<(Ty, &'s str)>, NoMemory>
    ensures value { IfOk result (λ found. seen_type found ≡ thrown_at (types (declared_of declared.now)) 255 text.now) }
    ensures shorter { IfOk result (λ found. IfSome found (λ pair. length pair.1.now < length text.now)) }
    ensures utf8 { IfOk result (λ found. IfSome found (λ pair. IsUtf8 pair.1.now)) }
{
    let Some(rest) = behind(text, b'^') else {
        return Ok(None);
    };
    if !begins(rest, b'L') && !begins(rest, b'T') {
        return Ok(None);
    }
    type_at(alloc, declared, MOST_OPEN, rest)
}

/// All that a method throws, up to the end of the text.
#[tactic(auto, using(crate::proofs::Turns::types_turn, crate::proofs::Turns::all_done, crate::proofs::Many::many_none))]
fn all_thrown_at(
    alloc: Global,
    declared: &Declared<'_>,
    text: &str,
) -> Result<Option<TyList>, NoMemory>
    ensures { IfOk result (λ found. seen_list found ≡ whole (many not_empty (thrown_at (types (declared_of declared.now)) 255) put [] text.now)) }
{
    let mut thrown = TyList::new(alloc);
    let mut rest = text;
    'thrown: while !rest.is_empty() {
        let Some((ty, next)) = thrown_at(alloc, declared, rest)? else {
            return Ok(None);
        };
        thrown.push(ty)?;
        rest = next;
    }
    Ok(Some(thrown))
}

/// The types of a method, up to the end of the text: its parameters and its result, or `None` for `V`.
fn types_at(
    alloc: Global,
    declared: &Declared<'_>,
    text: &str,
) -> Result<Option<(TyList, Option<Ty>)>, NoMemory>
    ensures { IfOk result (λ found. seen_types_of_method found ≡ two_of (whole (types_at (types (declared_of declared.now)) 255 text.now))) }
{
    let Some((arguments, after)) = arguments_at(alloc, declared, text)? else {
        return Ok(None);
    };
    let Some((returned, behind)) = result_at(alloc, declared, after)? else {
        return Ok(None);
    };
    match all_thrown_at(alloc, declared, behind)? {
        Some(_) => Ok(Some((arguments, returned))),
        None => Ok(None),
    }
}

/// The supertypes that a class's signature is read as.
#[tactic(auto, using(crate::proofs::Turns::class_signature_done, crate::proofs::Turns::class_signature_open, crate::proofs::Turns::class_signature_none))]
pub fn read_class_signature(alloc: Global, text: &str) -> Result<Option<ClassSig>, NoMemory>
    ensures { IfOk result (λ found. seen_class found ≡ class_signature_of text.now) }
{
    let Some((params, after)) = parameters_at(alloc, MOST_OPEN, text)? else {
        return Ok(None);
    };
    let declared = Declared {
        own: params.as_slice(),
        around: &[],
    };
    match supertypes_at(alloc, &declared, after)? {
        Some((superclass, interfaces)) => Ok(Some(ClassSig {
            params,
            superclass,
            interfaces,
        })),
        None => Ok(None),
    }
}

/// The type that a method returns, `Void` where there is none.
fn result_of(returned: Option<Ty>) -> Ty
    ensures { java_type result ≡ result_read (seen_option returned) }
{
    match returned {
        Some(ty) => ty,
        None => Ty::Void,
    }
}

/// The types that a method's signature is read as, where some type variables are declared around it.
#[tactic(auto, using(crate::proofs::Turns::method_signature_done, crate::proofs::Turns::method_signature_open, crate::proofs::Turns::method_signature_none))]
pub fn read_method_signature(
    alloc: Global,
    around: &Bindings,
    text: &str,
) -> Result<Option<MethodSig>, NoMemory>
    ensures { IfOk result (λ found. seen_method found ≡ method_signature_of (bound_types around.now) text.now) }
{
    let Some((params, after)) = parameters_at(alloc, MOST_OPEN, text)? else {
        return Ok(None);
    };
    let declared = Declared {
        own: params.as_slice(),
        around: around.as_slice(),
    };
    match types_at(alloc, &declared, after)? {
        Some((arguments, returned)) => Ok(Some(MethodSig {
            params,
            arguments,
            result: result_of(returned),
        })),
        None => Ok(None),
    }
}
