//! The first character of the translated text of a rest of a file.

ghost use Rattle.std.specs.Prelude.{ℕ, List, ◌≡◌, ◌+◌, ◌<◌, ◌≤◌, ◌∷◌, ◌++◌, true, false, length, MatchOption, IfSome};
ghost use Rattle.std.specs.Char.{len_utf8};
ghost use Rattle.std.specs.Char.Utf16.{is_high_surrogate, is_low_surrogate, surrogate_pair_char};
ghost use Rattle.std.specs.Str.{chars};
ghost use Rattle.pj_source.specs.Escapes.{IsBadEscape, BeginsWithNoEscape, character_alone};
ghost use Rattle.pj_source.specs.Translating.{IsFront};

use crate::source::escape::split_escape;
use pj_base::begins_with;

/// A character of the translated text, and how the file writes it.
#[derive(Clone, Copy)]
pub struct Front<'s> {
    pub character: char,
    /// Whether an escape writes it, or two.
    pub escaped: bool,
    /// How many characters write it.
    pub length: u32,
    /// The rest of the file behind these.
    pub behind: &'s str,
}

/// Whether the unit of UTF-16 is the first one of a pair.
fn is_high(unit: u32) -> bool
    ensures { result ≡ is_high_surrogate unit }
{
    0xD800 <= unit && unit < 0xDC00
}

/// Whether it is the second one of a pair.
fn is_low(unit: u32) -> bool
    ensures { result ≡ is_low_surrogate unit }
{
    0xDC00 <= unit && unit < 0xE000
}

/// The character of a surrogate pair.
fn pair(high: u32, low: u32) -> char
    requires high { is_high_surrogate high ≡ true }
    requires low { is_low_surrogate low ≡ true }
    ensures value { result ≡ surrogate_pair_char high low }
{
    let code = 0x1_0000 + (high - 0xD800) * 0x400 + (low - 0xDC00);
    char::from_u32(code).unwrap_or('\u{fffd}')
}

/// The character of a unit by itself: the unit, and U+FFFD for a surrogate.
fn alone(unit: u32) -> char
    requires { unit < 65536 }
    ensures value { result ≡ character_alone unit }
{
    match char::from_u32(unit) {
        Some(c) => c,
        None => '\u{fffd}',
    }
}

/// The character that an escape at the front writes, or two adjacent ones, and `None` where no escape stands there.
fn split_escaped<'s>(rest: &'s str) -> Option<Front<'s>>
    requires { length rest.now ≤ 4294967294 }
    ensures front { MatchOption result (BeginsWithNoEscape (chars rest.now)) (λ f. IsFront true (chars rest.now) f.character f.escaped f.length (chars f.behind.now)) }
    ensures escaped { IfSome result (λ f. f.escaped ≡ true) }
    ensures shorter { IfSome result (λ f. len_utf8 f.character ≤ f.length) }
    ensures len { IfSome result (λ f. length rest.now ≡ f.length + length f.behind.now) }
{
    let first = split_escape(rest)?;
    if is_high(first.unit) {
        if let Some(second) = split_escape(first.behind) {
            if is_low(second.unit) {
                return Some(Front {
                    character: pair(first.unit, second.unit),
                    escaped: true,
                    length: first.length + second.length,
                    behind: second.behind,
                });
            }
        }
    }
    Some(Front {
        character: alone(first.unit),
        escaped: true,
        length: first.length,
        behind: first.behind,
    })
}

/// The first character of the translated text of a rest that begins with the character c, with `behind` behind it. A
/// backslash there may begin an escape where it is eligible. `None` where it ought to and does not.
pub fn split_front<'s>(eligible: bool, rest: &'s str, c: char, behind: &'s str) -> Option<Front<'s>>
    requires few { length rest.now ≤ 4294967294 }
    requires chars { chars rest.now ≡ c ∷ chars behind.now }
    requires len { length rest.now ≡ len_utf8 c + length behind.now }
    ensures front { MatchOption result (IsBadEscape eligible (chars rest.now)) (λ f. IsFront eligible (chars rest.now) f.character f.escaped f.length (chars f.behind.now)) }
    ensures shorter { IfSome result (λ f. len_utf8 f.character + length f.behind.now ≤ length rest.now) }
    ensures len { IfSome result (λ f. f.length + length f.behind.now ≤ length rest.now) }
    ensures some { IfSome result (λ f. 0 < f.length) }
{
    if eligible && c == '\\' && begins_with(behind, 'u') {
        return split_escaped(rest);
    }
    Some(Front {
        character: c,
        escaped: false,
        length: 1,
        behind,
    })
}
