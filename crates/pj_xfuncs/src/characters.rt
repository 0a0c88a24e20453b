//! The characters of texts.
ghost use Rattle.std.specs.Prelude.{◌≡◌, chars, encode_utf8_all, IfOk, string_bytes};
ghost use Rattle.pj_xfuncs.specs.Sequences.{at_places, is_from, is_within};

use crate::places::{before, behind, first_of, within};
use pj_base::NoMemory;
use std::alloc::Global;

/// The characters of a text.
pub(crate) fn characters(alloc: Global, text: &str) -> Result<Vec<char>, NoMemory>
    ensures { IfOk result (λ all. all.items ≡ chars text.now) }
{
    let all: Vec<char> = text.chars().collect(alloc)?;
    Ok(all)
}

/// The text of some characters.
pub(crate) fn text_of(alloc: Global, characters: &[char]) -> Result<String, NoMemory>
    ensures { IfOk result (λ text. string_bytes text ≡ encode_utf8_all characters.now) }
{
    let mut text = String::new(alloc);
    let mut rest = characters;
    'content: while let [c, behind @ ..] = rest {
        text.push(*c)?;
        rest = behind;
    }
    Ok(text)
}

/// The text of the characters from a place on.
pub(crate) fn text_from(alloc: Global, characters: &[char], first: i64) -> Result<String, NoMemory>
    ensures { IfOk result (λ text. string_bytes text ≡ encode_utf8_all (at_places (is_from first) characters.now)) }
{
    let skipped = before(first);
    let part = behind(characters, skipped);
    let text = text_of(alloc, part)?;
    Ok(text)
}

/// The text of so many characters from a place on.
pub(crate) fn text_within(
    alloc: Global,
    characters: &[char],
    first: i64,
    number: i64,
) -> Result<String, NoMemory>
    ensures { IfOk result (λ text. string_bytes text ≡ encode_utf8_all (at_places (is_within first number) characters.now)) }
{
    let skipped = before(first);
    let rest = behind(characters, skipped);
    let count = within(first, number);
    let part = first_of(rest, count);
    let text = text_of(alloc, part)?;
    Ok(text)
}
