//! The types of literals.

ghost use Rattle.std.specs.Prelude.{◌≡◌, IfOk, codes};
ghost use Rattle.std.specs.List.{list_any};
ghost use Rattle.pj_names.specs.JavaType.{Argument, Class, NoMore, java_type};
ghost use Rattle.pj_operators.specs.Literals.{class_argument, class_literal, either, ends_in, is_decimal_sign, is_floating, is_hexadecimal, is_hexadecimal_mark, mark_of, number_type, string_type};

use pj_base::NoMemory;
use pj_names::{ClassName, Prim, Ty, Types};
use pj_types::boxed_type;
use std::alloc::Global;

/// The byte behind a first `0`.
fn mark_of(text: &str) -> Option<u8>
    ensures { result ≡ mark_of text.now }
{
    match text.as_bytes() {
        [b'0', mark, ..] => Some(*mark),
        _ => None,
    }
}

/// Whether the byte is one of two.
fn is_either(small: u8, large: u8, byte: u8) -> bool
    ensures { result ≡ either small large byte }
{
    byte == small || byte == large
}

/// Whether the byte behind a first `0` is `x` or `X`.
fn is_hexadecimal_mark(mark: Option<u8>) -> bool
    ensures { result ≡ is_hexadecimal_mark mark }
{
    match mark {
        Some(mark) => is_either(b'x', b'X', mark),
        None => false,
    }
}

/// Whether a number is written in hexadecimal digits.
fn is_hexadecimal(text: &str) -> bool
    ensures { result ≡ is_hexadecimal text.now }
{
    is_hexadecimal_mark(mark_of(text))
}

/// Whether a byte shows that a number which is not hexadecimal is a floating point number.
fn is_decimal_sign(byte: u8) -> bool
    ensures { result ≡ is_decimal_sign byte }
{
    byte == b'.'
        || is_either(b'e', b'E', byte)
        || is_either(b'f', b'F', byte)
        || is_either(b'd', b'D', byte)
}

/// Whether a hexadecimal number has an exponent.
fn has_exponent(bytes: &[u8]) -> bool
    ensures { result ≡ list_any (either 112 80) bytes.now }
{
    bytes.iter().any(|byte| is_either(b'p', b'P', *byte))
}

/// Whether any other number has a sign of a floating point one.
fn has_decimal_sign(bytes: &[u8]) -> bool
    ensures { result ≡ list_any is_decimal_sign bytes.now }
{
    bytes.iter().any(|byte| is_decimal_sign(*byte))
}

/// Whether a number is a floating point one.
fn is_floating(text: &str) -> bool
    ensures { result ≡ is_floating text.now }
{
    if is_hexadecimal(text) {
        has_exponent(text.as_bytes())
    } else {
        has_decimal_sign(text.as_bytes())
    }
}

/// Whether the text ends in one of two bytes.
fn ends_in(text: &str, small: u8, large: u8) -> bool
    ensures { result ≡ ends_in (either small large) text.now }
{
    match text.as_bytes() {
        [.., last] => is_either(small, large, *last),
        _ => false,
    }
}

/// The type of a numeric literal by its text (JLS 3.10.1, 3.10.2). The text is one that the grammar has at a NumericLiteral; what comes of another text means nothing.
pub fn number_type(text: &str) -> Prim
    ensures { result ≡ number_type text.now }
{
    if is_floating(text) {
        if ends_in(text, b'f', b'F') {
            Prim::Float
        } else {
            Prim::Double
        }
    } else if ends_in(text, b'l', b'L') {
        Prim::Long
    } else {
        Prim::Int
    }
}

/// The class of a text that is the name of one, without arguments, so memory alone is wanted.
fn plain_class(alloc: Global, text: &str) -> Result<Ty, NoMemory>
    ensures { IfOk result (λ ty. java_type ty ≡ Class text.now NoMore) }
{
    match ClassName::of(alloc, text)? {
        Some(name) => Ok(Ty::Class(name, Types::End)),
        None => Err(NoMemory),
    }
}

/// The type of a string and of a text block (JLS 3.10.5, 3.10.6).
pub fn string_type(alloc: Global) -> Result<Ty, NoMemory>
    ensures { IfOk result (λ ty. java_type ty ≡ string_type) }
{
    plain_class(alloc, "java.lang.String")
}

/// The type argument of the literal of a type.
fn class_argument(alloc: Global, ty: Ty) -> Result<Ty, NoMemory>
    ensures { IfOk result (λ argument. java_type argument ≡ class_argument (java_type ty)) }
{
    match ty {
        Ty::Prim(prim) => boxed_type(alloc, prim),
        Ty::Void => plain_class(alloc, "java.lang.Void"),
        other => Ok(other),
    }
}

/// The class `java.lang.Class` of one argument.
fn class_of(alloc: Global, argument: Ty) -> Result<Ty, NoMemory>
    ensures { IfOk result (λ ty. java_type ty ≡ Class (codes "java.lang.Class") (Argument (java_type argument) NoMore)) }
{
    let Some(name) = ClassName::of(alloc, "java.lang.Class")? else {
        return Err(NoMemory);
    };
    let argument = Box::new(alloc, argument)?;
    let end = Box::new(alloc, Types::End)?;
    Ok(Ty::Class(name, Types::More(argument, end)))
}

/// The type of the class literal of a type (JLS 15.8.2).
pub fn class_literal(alloc: Global, ty: Ty) -> Result<Ty, NoMemory>
    ensures { IfOk result (λ literal. java_type literal ≡ class_literal (java_type ty)) }
{
    let argument = class_argument(alloc, ty)?;
    class_of(alloc, argument)
}
