//! The reading of signature patterns.
ghost use Rattle.std.specs.Prelude.{◌≡◌, ◌==◌, IfOk};
ghost use Rattle.std.specs.List.{slice_split};
ghost use Rattle.pj_signature_patterns.specs.Patterns.{IsRead};
ghost use Rattle.pj_signature_patterns.specs.Reading.{between_commas, is_constructor, pattern_in, pattern_of, read_method, read_name, read_parameters, read_type, read_types};

use crate::cuts::{before_last, cut};
use crate::identifiers::is_identifier;
use crate::pattern::{MethodPattern, ParametersPattern, SigPattern, TypePattern, TypePatterns};
use crate::type_names::is_type_name;
use pj_base::{NoMemory, Text};
use std::alloc::Global;

/// What a pattern asks of a type.
fn read_type(alloc: Global, text: &str) -> Result<Option<TypePattern>, NoMemory>
    ensures { IfOk result (λ found. found ≡ read_type text.now) }
{
    if text == "_" {
        return Ok(Some(TypePattern::Any));
    }
    if !is_type_name(text) {
        return Ok(None);
    }
    Ok(Some(TypePattern::Named(Text::from_str(alloc, text)?)))
}

/// Whether a text says a constructor.
fn is_constructor(text: &str) -> bool
    ensures { result ≡ is_constructor text.now }
{
    text == "new" || text == "<init>"
}

/// A method's name.
fn read_name(alloc: Global, text: &str) -> Result<Option<MethodPattern>, NoMemory>
    ensures { IfOk result (λ found. found ≡ read_name text.now) }
{
    if !is_identifier(text) {
        return Ok(None);
    }
    Ok(Some(MethodPattern::Named(Text::from_str(alloc, text)?)))
}

/// What a pattern asks of a method's name.
fn read_method(alloc: Global, text: &str) -> Result<Option<MethodPattern>, NoMemory>
    ensures { IfOk result (λ found. found ≡ read_method text.now) }
{
    if text == "_" {
        Ok(Some(MethodPattern::Any))
    } else if is_constructor(text) {
        Ok(Some(MethodPattern::Constructor))
    } else {
        read_name(alloc, text)
    }
}

/// What a pattern asks of each of the parameters, of which there is one at least.
#[tactic(auto, using(crate::proofs::Listed::begins, crate::proofs::Listed::turns, crate::proofs::Listed::fails, crate::proofs::Listed::ends, crate::proofs::Listed::ends_none))]
fn read_some_types(alloc: Global, text: &str) -> Result<Option<TypePatterns>, NoMemory>
    ensures { IfOk result (λ found. found ≡ read_types (slice_split (λ c. c == 44) text.now)) }
{
    let mut types = TypePatterns::new(alloc);
    let mut left = text;
    while let Some((piece, rest)) = cut(left, ',') {
        let Some(ty) = read_type(alloc, piece)? else {
            return Ok(None);
        };
        types.push(ty)?;
        left = rest;
    }
    let Some(last) = read_type(alloc, left)? else {
        return Ok(None);
    };
    types.push(last)?;
    Ok(Some(types))
}

/// What a pattern asks of each of the parameters.
fn read_types(alloc: Global, text: &str) -> Result<Option<TypePatterns>, NoMemory>
    ensures { IfOk result (λ found. found ≡ read_types (between_commas text.now)) }
{
    if text.is_empty() {
        return Ok(Some(TypePatterns::new(alloc)));
    }
    read_some_types(alloc, text)
}

/// What a pattern asks of the parameters.
fn read_parameters(alloc: Global, text: &str) -> Result<Option<ParametersPattern>, NoMemory>
    ensures { IfOk result (λ found. found ≡ read_parameters text.now) }
{
    if text == "_*" {
        return Ok(Some(ParametersPattern::Any));
    }
    match read_types(alloc, text)? {
        Some(types) => Ok(Some(ParametersPattern::Listed(types))),
        None => Ok(None),
    }
}

/// A pattern of its three parts.
fn pattern_of(
    alloc: Global,
    receiver: &str,
    method: &str,
    parameters: &str,
) -> Result<Option<SigPattern>, NoMemory>
    ensures { IfOk result (λ found. found ≡ pattern_of (read_type receiver.now) (read_method method.now) (read_parameters parameters.now)) }
{
    let Some(receiver) = read_type(alloc, receiver)? else {
        return Ok(None);
    };
    let Some(method) = read_method(alloc, method)? else {
        return Ok(None);
    };
    let Some(parameters) = read_parameters(alloc, parameters)? else {
        return Ok(None);
    };
    Ok(Some(SigPattern {
        receiver,
        method,
        parameters,
    }))
}

/// The pattern that a text spells.
#[tactic(auto, unfolding(crate::specs::Reading::pattern_in))]
fn pattern_in(alloc: Global, text: &str) -> Result<Option<SigPattern>, NoMemory>
    ensures { IfOk result (λ found. found ≡ pattern_in text.now) }
{
    let Some((receiver, behind)) = cut(text, '#') else {
        return Ok(None);
    };
    let Some((method, behind)) = cut(behind, '(') else {
        return Ok(None);
    };
    let Some(parameters) = before_last(behind, ')') else {
        return Ok(None);
    };
    pattern_of(alloc, receiver, method, parameters)
}

impl SigPattern {
    /// The pattern that a text spells, `T#m(P)` without white space, and `None` exactly where the text is no pattern.
    ///
    /// `T` is `_` or a name of a type; `m` is an identifier, `_`, `new` or `<init>`; `P` is `_*`, or names of types and `_` with commas
    /// between, of which there may be none. A name of a type is identifiers (JLS 3.8) joined by dots, or the word of a primitive type, with any
    /// number of `[]` behind.
    #[tactic(auto, using(crate::proofs::Exact::is_read))]
    pub fn parse(alloc: Global, text: &str) -> Result<Option<SigPattern>, NoMemory>
        ensures spelled { IfOk result (λ found. IsRead text.now found) }
        ensures value { IfOk result (λ found. found ≡ pattern_in text.now) }
    {
        pattern_in(alloc, text)
    }
}
