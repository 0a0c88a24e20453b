//! `upper-case` and `lower-case`.
ghost use Rattle.std.specs.Prelude.{◌≡◌, map, encode_utf8_all, IfOk, string_bytes};
ghost use Rattle.std.specs.Char.{to_ascii_uppercase, to_ascii_lowercase};
ghost use Rattle.pj_xvalue.specs.Items.{values_of};
ghost use Rattle.pj_xvalue.specs.Replies.{outcome};
ghost use Rattle.pj_xvalue.specs.Arguments.{IsGiven};
ghost use Rattle.pj_xfuncs.specs.Strings.{lower_case as lower_case_of, upper_case as upper_case_of};

use crate::characters::characters;
use pj_base::NoMemory;
use pj_xvalue::{Sequence, XFault, optional_string_argument, string_singleton};
use std::alloc::Global;

/// `upper-case`.
pub(crate) fn upper_case<'t>(alloc: Global, text: &Sequence<'_>) -> Result<Sequence<'t>, XFault>
    ensures { IsGiven (upper_case_of (values_of text.now)) (outcome values_of result) }
{
    let whole = optional_string_argument(text)?;
    let all = characters(alloc, whole)?;
    let changed = raised(alloc, &all)?;
    Ok(string_singleton(alloc, changed)?)
}

/// The characters with the letters of ASCII in upper case.
fn raised(alloc: Global, characters: &[char]) -> Result<String, NoMemory>
    ensures { IfOk result (λ changed. string_bytes changed ≡ encode_utf8_all (map to_ascii_uppercase characters.now)) }
{
    let mut changed = String::new(alloc);
    let mut rest = characters;
    'content: while let [c, behind @ ..] = rest {
        changed.push(c.to_ascii_uppercase())?;
        rest = behind;
    }
    Ok(changed)
}

/// `lower-case`.
pub(crate) fn lower_case<'t>(alloc: Global, text: &Sequence<'_>) -> Result<Sequence<'t>, XFault>
    ensures { IsGiven (lower_case_of (values_of text.now)) (outcome values_of result) }
{
    let whole = optional_string_argument(text)?;
    let all = characters(alloc, whole)?;
    let changed = lowered(alloc, &all)?;
    Ok(string_singleton(alloc, changed)?)
}

/// The characters with the letters of ASCII in lower case.
fn lowered(alloc: Global, characters: &[char]) -> Result<String, NoMemory>
    ensures { IfOk result (λ changed. string_bytes changed ≡ encode_utf8_all (map to_ascii_lowercase characters.now)) }
{
    let mut changed = String::new(alloc);
    let mut rest = characters;
    'content: while let [c, behind @ ..] = rest {
        changed.push(c.to_ascii_lowercase())?;
        rest = behind;
    }
    Ok(changed)
}
