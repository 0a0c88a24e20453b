//! Type parameters, as signatures write them (JVMS 4.7.9.1).
ghost use Rattle.std.specs.Prelude.{◌≡◌, ◌<◌, ◌≤◌, [], IfOk, IfSome, OnOk, IsUtf8, length};
ghost use Rattle.pj_names.specs.JavaType.{java_type, type_list, bound_types};
ghost use Rattle.pj_signatures.specs.Types.{types, first_bound};
ghost use Rattle.pj_signatures.specs.Reading.{inside, many, put, begins, past_run, end_signs, class_bound_at, interface_bound_at, parameter_at, listed_parameters_at, parameters_at};
ghost use Rattle.pj_signatures.specs.Seen.{seen_option, seen_type, seen_types, seen_class_bound, seen_parameter, seen_parameters};

use crate::names::identifier_at;
use crate::scan::{begins, begins_reference, behind, split_run};
use crate::types::{Declared, object, reference_inside, type_inside};
use pj_base::{NoMemory, Text};
use pj_names::{Bindings, Ty, TyList};
use std::alloc::Global;

/// The first of the bounds of a type parameter, and else `java.lang.Object`.
fn first_bound(alloc: Global, class_bound: Option<Ty>, more: TyList) -> Result<Ty, NoMemory>
    ensures { IfOk result (λ ty. java_type ty ≡ first_bound (seen_option class_bound) (type_list more)) }
{
    if let Some(bound) = class_bound {
        return Ok(bound);
    }
    match more.as_slice().first() {
        Some(bound) => {
            let copy = bound.copied()?;
            Ok(copy)
        }
        None => {
            let object = object(alloc)?;
            Ok(object)
        }
    }
}

/// Whether the next type parameter begins: a name that ends in a colon.
fn begins_parameter(text: &str) -> bool
    ensures { result ≡ begins 58 (past_run end_signs text.now) }
{
    begins(split_run(text, b".;[<>:").1, b':')
}

/// The bound behind the first colon, if it is there.
fn class_bound_at<'s>(
    alloc: Global,
    open_signs: u8,
    text: &'s str,
) -> Result<Option<(Option<Ty>, &'s str)>, NoMemory>
    ensures value { IfOk result (λ found. seen_class_bound found ≡ class_bound_at (types []) (inside (types []) open_signs) text.now) }
    ensures shorter { IfOk result (λ found. IfSome found (λ pair. length pair.1.now ≤ length text.now)) }
    ensures utf8 { IfOk result (λ found. IfSome found (λ pair. IsUtf8 pair.1.now)) }
{
    if !begins_reference(text) || begins_parameter(text) {
        return Ok(Some((None, text)));
    }
    let declared = Declared {
        own: &[],
        around: &[],
    };
    match type_inside(alloc, &declared, open_signs, text)? {
        Some((bound, rest)) => Ok(Some((Some(bound), rest))),
        None => Ok(None),
    }
}

/// A bound behind a further colon.
fn interface_bound_at<'s>(
    alloc: Global,
    open_signs: u8,
    text: &'s str,
) -> Result<Option<(Ty, &'s str)>, NoMemory>
    ensures value { IfOk result (λ found. seen_type found ≡ interface_bound_at (types []) (inside (types []) open_signs) text.now) }
    ensures shorter { IfOk result (λ found. IfSome found (λ pair. length pair.1.now < length text.now)) }
    ensures utf8 { IfOk result (λ found. IfSome found (λ pair. IsUtf8 pair.1.now)) }
{
    let Some(rest) = behind(text, b':') else {
        return Ok(None);
    };
    let declared = Declared {
        own: &[],
        around: &[],
    };
    reference_inside(alloc, &declared, open_signs, rest)
}

/// The bounds behind further colons.
#[tactic(auto, using(crate::proofs::Turns::types_turn, crate::proofs::Many::many_none, crate::proofs::Many::many_end))]
fn interface_bounds_at<'s>(
    alloc: Global,
    open_signs: u8,
    text: &'s str,
) -> Result<Option<(TyList, &'s str)>, NoMemory>
    ensures value { IfOk result (λ found. seen_types found ≡ many (begins 58) (interface_bound_at (types []) (inside (types []) open_signs)) put [] text.now) }
    ensures shorter { IfOk result (λ found. IfSome found (λ pair. length pair.1.now ≤ length text.now)) }
    ensures utf8 { IfOk result (λ found. IfSome found (λ pair. IsUtf8 pair.1.now)) }
{
    let mut more = TyList::new(alloc);
    let mut rest = text;
    'bounds: while begins(rest, b':') {
        let Some((bound, next)) = interface_bound_at(alloc, open_signs, rest)? else {
            return Ok(None);
        };
        more.push(bound)?;
        rest = next;
    }
    Ok(Some((more, rest)))
}

/// A type parameter with its first bound.
fn parameter_at<'s>(
    alloc: Global,
    open_signs: u8,
    text: &'s str,
) -> Result<Option<((Text, Ty), &'s str)>, NoMemory>
    ensures value { IfOk result (λ found. seen_parameter found ≡ parameter_at (types []) (inside (types []) open_signs) text.now) }
    ensures shorter { IfOk result (λ found. IfSome found (λ pair. length pair.1.now < length text.now)) }
    ensures utf8 { IfOk result (λ found. IfSome found (λ pair. IsUtf8 pair.1.now)) }
{
    let Some((name, after)) = identifier_at(text) else {
        return Ok(None);
    };
    let Some(colon) = behind(after, b':') else {
        return Ok(None);
    };
    let Some((class_bound, behind_class)) = class_bound_at(alloc, open_signs, colon)? else {
        return Ok(None);
    };
    let Some((more, rest)) = interface_bounds_at(alloc, open_signs, behind_class)? else {
        return Ok(None);
    };
    let name = Text::from_str(alloc, name)?;
    let bound = first_bound(alloc, class_bound, more)?;
    Ok(Some(((name, bound), rest)))
}

/// Puts a type parameter at the end.
#[tactic(auto, using(crate::proofs::Turns::bound_put))]
fn add_parameter(parameters: &mut Bindings, name: Text, bound: Ty) -> Result<(), NoMemory>
    ensures { OnOk result (bound_types parameters.new ≡ put (bound_types parameters.old) (name, java_type bound)) }
{
    parameters.push((name, bound))?;
    Ok(())
}

/// A list of type parameters behind its angle bracket: one at least.
#[tactic(auto, using(crate::proofs::Turns::bounds_turn, crate::proofs::Turns::parameters_done, crate::proofs::Turns::parameters_empty, crate::proofs::Many::many_none))]
fn listed_parameters_at<'s>(
    alloc: Global,
    open_signs: u8,
    text: &'s str,
) -> Result<Option<(Bindings, &'s str)>, NoMemory>
    ensures value { IfOk result (λ found. seen_parameters found ≡ listed_parameters_at (types []) (inside (types []) open_signs) text.now) }
    ensures utf8 { IfOk result (λ found. IfSome found (λ pair. IsUtf8 pair.1.now)) }
{
    let mut parameters = Bindings::new(alloc);
    let mut rest = text;
    'parameters: while !begins(rest, b'>') {
        let Some(((name, bound), next)) = parameter_at(alloc, open_signs, rest)? else {
            return Ok(None);
        };
        add_parameter(&mut parameters, name, bound)?;
        rest = next;
    }
    let Some(end) = behind(rest, b'>') else {
        return Ok(None);
    };
    if parameters.is_empty() {
        return Ok(None);
    }
    Ok(Some((parameters, end)))
}

/// Type parameters: none, or a list in angle brackets.
pub fn parameters_at<'s>(
    alloc: Global,
    open_signs: u8,
    text: &'s str,
) -> Result<Option<(Bindings, &'s str)>, NoMemory>
    ensures value { IfOk result (λ found. seen_parameters found ≡ parameters_at (types []) (inside (types []) open_signs) text.now) }
    ensures utf8 { IfOk result (λ found. IfSome found (λ pair. IsUtf8 pair.1.now)) }
{
    match behind(text, b'<') {
        Some(rest) => listed_parameters_at(alloc, open_signs, rest),
        None => Ok(Some((Bindings::new(alloc), text))),
    }
}
