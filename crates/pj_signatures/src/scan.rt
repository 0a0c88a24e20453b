//! Texts read from the left.
ghost use Rattle.std.specs.Prelude.{◌≡◌, ◌++◌, ◌∷◌, ◌<◌, ◌≤◌, ◌+◌, IfSome, IsSome, IsTrue, nat_lt, length, take, drop, not, slice_index, IsUtf8};
ghost use Rattle.pj_signatures.specs.Reading.{behind, begins, begins_reference, run, past_run, primitive_at, primitive_of};
ghost use Rattle.std.specs.List.{list_all};
ghost use Rattle.pj_signatures.specs.Names.{is_none_of};
ghost use Rattle.pj_signatures.specs.Seen.{seen_rest, seen_primitive};

use pj_names::Prim;

/// What stands behind a sign at the front of a text, or `None` where another sign or none stands there.
pub fn behind<'s>(text: &'s str, sign: u8) -> Option<&'s str>
    requires { sign < 128 }
    ensures value { seen_rest result ≡ behind sign text.now }
    ensures shorter { IfSome result (λ rest. length rest.now + 1 ≡ length text.now) }
    ensures utf8 { IfSome result (λ rest. IsUtf8 rest.now) }
{
    match text.as_bytes().first() {
        Some(first) if *first == sign => Some(after_first(text)),
        _ => None,
    }
}

/// Whether a text begins with a sign.
pub fn begins(text: &str, sign: u8) -> bool
    ensures { result ≡ begins sign text.now }
{
    match text.as_bytes().first() {
        Some(first) => *first == sign,
        None => false,
    }
}

/// Whether a text begins as a reference type does.
pub fn begins_reference(text: &str) -> bool
    ensures { result ≡ begins_reference text.now }
{
    begins(text, b'L') || begins(text, b'T') || begins(text, b'[')
}

/// The longest front of a text without some signs, and what stands behind it.
pub fn split_run<'s>(text: &'s str, signs: &[u8]) -> (&'s str, &'s str)
    requires { IsTrue (list_all (λ sign. nat_lt sign 128) signs.now) }
    ensures front { result.0.now ≡ run signs.now text.now }
    ensures rest { result.1.now ≡ past_run signs.now text.now }
    ensures parts { result.0.now ++ result.1.now ≡ text.now }
    ensures utf8 { IsUtf8 result.1.now }
{
    let bytes = text.as_bytes();
    let end = run_len(bytes, signs);
    text.split_at(end)
}

/// The length of the longest front of some bytes without some signs.
fn run_len(bytes: &[u8], signs: &[u8]) -> usize
    ensures within { result ≤ length bytes.now }
    ensures front { take result bytes.now ≡ run signs.now bytes.now }
    ensures rest { drop result bytes.now ≡ past_run signs.now bytes.now }
    ensures stop { result < length bytes.now → IsTrue (not (is_none_of signs.now (slice_index bytes.now result))) }
{
    for (i, byte) in bytes.iter().enumerate() {
        if signs.contains(byte) {
            return i;
        }
    }
    bytes.len()
}

/// What stands behind the first character of a text, where it is an ASCII character.
fn after_first<'s>(text: &'s str) -> &'s str
    requires there { 0 < length text.now }
    requires ascii { slice_index text.now 0 < 128 }
    ensures value { text.now ≡ slice_index text.now 0 ∷ result.now }
    ensures utf8 { IsUtf8 result.now }
{
    text.split_at(1).1
}

/// The primitive type of a letter (JVMS 4.3.2, table 4.3-A).
fn primitive_of(letter: u8) -> Option<Prim>
    ensures value { result ≡ primitive_of letter }
    ensures ascii { IsSome result → letter < 128 }
{
    match letter {
        b'B' => Some(Prim::Byte),
        b'C' => Some(Prim::Char),
        b'D' => Some(Prim::Double),
        b'F' => Some(Prim::Float),
        b'I' => Some(Prim::Int),
        b'J' => Some(Prim::Long),
        b'S' => Some(Prim::Short),
        b'Z' => Some(Prim::Boolean),
        _ => None,
    }
}

/// The primitive type of the letter that a text begins with, and what stands behind it.
pub fn primitive_at<'s>(text: &'s str) -> Option<(Prim, &'s str)>
    ensures value { seen_primitive result ≡ primitive_at text.now }
    ensures shorter { IfSome result (λ found. length found.1.now + 1 ≡ length text.now) }
    ensures utf8 { IfSome result (λ found. IsUtf8 found.1.now) }
{
    let first = text.as_bytes().first()?;
    let prim = primitive_of(*first)?;
    Some((prim, after_first(text)))
}
