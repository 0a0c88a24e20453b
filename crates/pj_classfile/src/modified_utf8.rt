//! Modified UTF-8 (JVMS 4.4.7).
ghost use Rattle.std.specs.Prelude.{◌≡◌, ◌<◌, IfOk, IfSome, Some, None, length, if◌then◌else◌};
ghost use Rattle.std.specs.Option.{option_map};
ghost use Rattle.pj_classfile.specs.ModifiedUtf8.{unit_at, units_of, text_of_units, decoded, is_two, is_three, two, three};

use pj_base::{NoMemory, Text};
use std::alloc::{AllocError, Global};

/// The unit of two bytes, where they are its shortest form.
fn two_of(a: u8, b: u8) -> Option<u16>
    ensures { result ≡ (if is_two a b then Some (two a b) else None) }
{
    if a < 192 || 223 < a || b < 128 || 191 < b {
        return None;
    }
    let unit = (u16::from(a) - 192) * 64 + (u16::from(b) - 128);
    if unit == 0 || 128 <= unit {
        return Some(unit);
    }
    None
}

/// The unit of three bytes, where they are its shortest form.
fn three_of(a: u8, b: u8, c: u8) -> Option<u16>
    ensures { result ≡ (if is_three a b c then Some (three a b c) else None) }
{
    if a < 224 || 239 < a || b < 128 || 191 < b || c < 128 || 191 < c {
        return None;
    }
    let unit = (u16::from(a) - 224) * 4096 + (u16::from(b) - 128) * 64 + (u16::from(c) - 128);
    if 2048 <= unit {
        return Some(unit);
    }
    None
}

/// The unit at the front of the bytes, and what stands behind it.
#[tactic(auto, unfolding(crate::specs::ModifiedUtf8::unit_at))]
fn unit_of(bytes: &[u8]) -> Option<(u16, &[u8])>
    ensures value { option_map (λ x. (x.0, x.1.now)) result ≡ unit_at bytes.now }
    ensures shorter { IfSome result (λ x. length x.1.now < length bytes.now) }
{
    let [a, behind @ ..] = bytes else {
        return None;
    };
    if 1 <= *a && *a <= 127 {
        return Some((u16::from(*a), behind));
    }
    let [b, behind @ ..] = behind else {
        return None;
    };
    if let Some(unit) = two_of(*a, *b) {
        return Some((unit, behind));
    }
    let [c, behind @ ..] = behind else {
        return None;
    };
    match three_of(*a, *b, *c) {
        Some(unit) => Some((unit, behind)),
        None => None,
    }
}

/// The units that the bytes spell, if they spell units.
fn units_of(alloc: Global, bytes: &[u8]) -> Result<Option<Vec<u16>>, AllocError>
    ensures { IfOk result (λ found. option_map (λ units. units.items) found ≡ units_of bytes.now) }
{
    let mut units = Vec::new(alloc);
    let mut rest = bytes;
    while !rest.is_empty() {
        let Some((unit, behind)) = unit_of(rest) else {
            return Ok(None);
        };
        units.push(unit)?;
        rest = behind;
    }
    Ok(Some(units))
}

/// The text of units of UTF-16, or `None` where a surrogate is not one of a pair.
#[tactic(auto, unfolding(crate::specs::ModifiedUtf8::text_of_units))]
fn text_of_units(alloc: Global, units: &[u16]) -> Result<Option<Text>, AllocError>
    ensures { IfOk result (λ found. found ≡ text_of_units units.now) }
{
    match String::from_utf16(alloc, units)? {
        Ok(text) => Ok(Some(Text::from_string(text))),
        Err(_) => Ok(None),
    }
}

/// The text that the bytes spell, if they spell one.
#[tactic(auto, unfolding(crate::specs::ModifiedUtf8::decoded))]
pub fn decode(alloc: Global, bytes: &[u8]) -> Result<Option<Text>, NoMemory>
    ensures { IfOk result (λ found. found ≡ decoded bytes.now) }
{
    match units_of(alloc, bytes)? {
        None => Ok(None),
        Some(units) => Ok(text_of_units(alloc, &units)?),
    }
}
