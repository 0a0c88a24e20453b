//! Fields of a cache: texts and byte strings, in their order.
ghost use Rattle.std.specs.Prelude.{◌≡◌, ◌≤◌, ◌↔◌, length, nat_eq, true, IsTrue, IfOk, IfErr, MatchResult, Ok, Err};
ghost use Rattle.std.specs.Cmp.Lexicographic.{pointwise};
ghost use Rattle.std.specs.Option.{option_copied};
ghost use Rattle.std.specs.Ordering.{nat_cmp};
ghost use Rattle.std.specs.Str.{is_utf8};
ghost use Rattle.pj_format.specs.Format.{fault, first};
ghost use Rattle.pj_format.specs.Fields.{Gives, sized, sized_as};
ghost use Rattle.pj_format.specs.declared.fault.Refused.TheVariants as refusals;
ghost use Rattle.pj_cache.specs.Places.{byte_order};
ghost use Rattle.pj_cache_format.specs.Judges.{passing, text, is_behind, is_path_behind};

use pj_base::{Bytes, NoMemory, Text};
use pj_format::{Refused, refused, sized_of};
use std::alloc::Global;

/// The refusal of a field that breaks a rule, at its first byte.
pub(crate) fn wrong(at: u32) -> Refused
    ensures { result ≡ refusals.Fault (fault 1 at) }
{
    refused(1, at)
}

/// Whether bytes are a text.
pub(crate) fn is_text(bytes: &[u8]) -> bool
    ensures { result ≡ is_utf8 bytes.now }
{
    match str::from_utf8(bytes) {
        Ok(_) => true,
        Err(_) => false,
    }
}

/// The text of bytes that are one.
pub(crate) fn made_text(alloc: Global, bytes: &[u8]) -> Result<Text, Refused>
    requires { is_utf8 bytes.now ≡ true }
    ensures value { IfOk result (λ text. text ≡ bytes.now) }
    ensures memory { IfErr result (λ e. e ≡ refusals.Memory) }
{
    match str::from_utf8(bytes) {
        Ok(text) => or_memory(Text::from_str(alloc, text)),
        Err(_) => Err(Refused::Memory),
    }
}

/// The value, or that memory ran out.
pub(crate) fn or_memory<T>(value: Result<T, NoMemory>) -> Result<T, Refused>
    ensures { MatchResult value (λ x. result ≡ Ok x) (λ e. result ≡ Err refusals.Memory) }
{
    match value {
        Ok(value) => Ok(value),
        Err(_) => Err(Refused::Memory),
    }
}

/// A text.
#[tactic(auto, using(pj_format::proofs::Laws::reads), unfolding(pj_cache_format::specs::Judges::text))]
pub(crate) fn text_of(alloc: Global, bytes: &[u8], at: u32) -> Result<(Text, u32), Refused>
    requires { length bytes.now ≤ 4294967294 }
    ensures { Gives (λ x. x) result (first text bytes.now at) }
{
    let (found, behind) = sized_of(bytes, at)?;
    if !is_text(found) {
        return Err(wrong(at));
    }
    Ok((made_text(alloc, found)?, behind))
}

/// Whether bytes stand behind those before them, if there are some.
pub(crate) fn is_behind(before: Option<&[u8]>, bytes: &[u8]) -> bool
    ensures { result ≡ is_behind byte_order (option_copied before.entry) bytes.now }
{
    match before {
        Some(before) => before.cmp(bytes).is_lt(),
        None => true,
    }
}

/// Whether bytes are the same.
pub(crate) fn is_same(bytes: &[u8], others: &[u8]) -> bool
    ensures exact { IsTrue result ↔ (bytes.now ≡ others.now) }
    ensures bytes { result ≡ pointwise nat_eq bytes.now others.now }
{
    bytes == others
}

/// Whether a number stands behind the one before it, if there is one.
#[tactic(auto, using(pj_cache_reading::proofs::Texts::tests))]
pub(crate) fn is_number_behind(before: Option<u32>, number: u32) -> bool
    ensures { result ≡ is_behind nat_cmp before number }
{
    match before {
        Some(before) => before < number,
        None => true,
    }
}

/// Bytes behind their number.
#[tactic(auto, using(pj_format::proofs::Laws::reads))]
pub(crate) fn bytes_of(alloc: Global, bytes: &[u8], at: u32) -> Result<(Bytes, u32), Refused>
    requires { length bytes.now ≤ 4294967294 }
    ensures { Gives (λ x. x) result (first sized bytes.now at) }
{
    let (found, behind) = sized_of(bytes, at)?;
    Ok((Bytes::from_vec(Vec::from_slice(alloc, found)?), behind))
}

/// Whether bytes are a path behind another one.
pub(crate) fn is_path_behind(before: Option<&[u8]>, bytes: &[u8]) -> bool
    ensures { result ≡ is_path_behind (option_copied before.entry) bytes.now }
{
    is_text(bytes) && is_behind(before, bytes)
}
