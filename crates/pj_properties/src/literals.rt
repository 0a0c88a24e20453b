//! What literals tell by how they are written.

ghost use Rattle.std.specs.Prelude.{◌≡◌, ◌<◌, length, IfSome, pos};
ghost use Rattle.std.specs.List.{list_any};
ghost use Rattle.pj_properties.specs.Literals.{either, mark_of, is_hexadecimal_mark, is_hexadecimal, is_decimal_sign, is_floating, ends_in, is_int_literal, is_long_literal, is_float_literal, is_double_literal, radix_behind, radix_by, radix_of, constant_integer, is_text_block};

use pj_literals::value_of_any;

/// The byte behind a first `0`.
fn mark_of(text: &str) -> Option<u8>
    ensures { result ≡ mark_of text.now }
{
    match text.as_bytes() {
        [b'0', mark, ..] => Some(*mark),
        _ => None,
    }
}

/// Whether the byte is one of two.
fn is_either(small: u8, large: u8, byte: u8) -> bool
    ensures { result ≡ either small large byte }
{
    byte == small || byte == large
}

/// Whether the byte behind a first `0` is `x` or `X`.
fn is_hexadecimal_mark(mark: Option<u8>) -> bool
    ensures { result ≡ is_hexadecimal_mark mark }
{
    match mark {
        Some(mark) => is_either(b'x', b'X', mark),
        None => false,
    }
}

/// Whether a number is written in hexadecimal digits.
fn is_hexadecimal(text: &str) -> bool
    ensures { result ≡ is_hexadecimal text.now }
{
    is_hexadecimal_mark(mark_of(text))
}

/// Whether a byte shows that a number which is not hexadecimal is a floating point number.
fn is_decimal_sign(byte: u8) -> bool
    ensures { result ≡ is_decimal_sign byte }
{
    byte == b'.'
        || is_either(b'e', b'E', byte)
        || is_either(b'f', b'F', byte)
        || is_either(b'd', b'D', byte)
}

/// Whether a hexadecimal number has an exponent.
fn has_exponent(bytes: &[u8]) -> bool
    ensures { result ≡ list_any (either 112 80) bytes.now }
{
    bytes.iter().any(|byte| is_either(b'p', b'P', *byte))
}

/// Whether any other number has a sign of a floating point one.
fn has_decimal_sign(bytes: &[u8]) -> bool
    ensures { result ≡ list_any is_decimal_sign bytes.now }
{
    bytes.iter().any(|byte| is_decimal_sign(*byte))
}

/// Whether a number is a floating point one.
fn is_floating(text: &str) -> bool
    ensures { result ≡ is_floating text.now }
{
    if is_hexadecimal(text) {
        has_exponent(text.as_bytes())
    } else {
        has_decimal_sign(text.as_bytes())
    }
}

/// Whether the text ends in one of two bytes.
fn ends_in(text: &str, small: u8, large: u8) -> bool
    ensures { result ≡ ends_in (either small large) text.now }
{
    match text.as_bytes() {
        [.., last] => is_either(small, large, *last),
        _ => false,
    }
}

/// Whether a number is of type `int` (JLS 3.10.1).
pub fn is_int_literal(text: &str) -> bool
    ensures { result ≡ is_int_literal text.now }
{
    !is_floating(text) && !ends_in(text, b'l', b'L')
}

/// Whether a number is of type `long` (JLS 3.10.1).
pub fn is_long_literal(text: &str) -> bool
    ensures { result ≡ is_long_literal text.now }
{
    !is_floating(text) && ends_in(text, b'l', b'L')
}

/// Whether a number is of type `float` (JLS 3.10.2).
pub fn is_float_literal(text: &str) -> bool
    ensures { result ≡ is_float_literal text.now }
{
    is_floating(text) && ends_in(text, b'f', b'F')
}

/// Whether a number is of type `double` (JLS 3.10.2).
pub fn is_double_literal(text: &str) -> bool
    ensures { result ≡ is_double_literal text.now }
{
    is_floating(text) && !ends_in(text, b'f', b'F')
}

/// The radix of a number that begins with `0`, by the byte behind.
fn radix_behind(is_floating: bool, mark: u8) -> i64
    ensures { result ≡ pos (radix_behind is_floating mark) }
{
    if is_either(b'x', b'X', mark) {
        16
    } else if is_either(b'b', b'B', mark) {
        2
    } else if ((b'0' <= mark && mark <= b'9') || mark == b'_') && !is_floating {
        8
    } else {
        10
    }
}

/// The radix of a number, by the byte behind a first `0` where there is one.
fn radix_by(is_floating: bool, mark: Option<u8>) -> i64
    ensures { result ≡ pos (radix_by is_floating mark) }
{
    match mark {
        Some(mark) => radix_behind(is_floating, mark),
        None => 10,
    }
}

/// The radix of a number.
pub fn radix_of(text: &str) -> i64
    ensures { result ≡ pos (radix_of text.now) }
{
    radix_by(is_floating(text), mark_of(text))
}

/// The value of an integer that fits 64 bits.
pub fn constant_integer(text: &str) -> Option<i64>
    ensures { result ≡ constant_integer text.now }
{
    if is_floating(text) {
        None
    } else {
        value_of_any(text)
    }
}

/// Whether a literal is a text block (JLS 3.10.6).
pub fn is_text_block(text: &str) -> bool
    ensures { result ≡ is_text_block text.now }
{
    match text.as_bytes() {
        [b'"', b'"', b'"', ..] => true,
        _ => false,
    }
}
