//! Functions of strings.
ghost use Rattle.std.specs.Prelude.{◌≡◌, ◌∷◌, [], chars, encode_utf8_all, IfOk, length, is_some, nat_eq};
ghost use Rattle.std.specs.List.{starts_with as starts_with_part, ends_with as ends_with_part};
ghost use Rattle.pj_xvalue.specs.Items.{String as StringValue, values_of};
ghost use Rattle.pj_xvalue.specs.Replies.{outcome};
ghost use Rattle.pj_xvalue.specs.Arguments.{IsGiven};
ghost use Rattle.pj_xfuncs.specs.Strings.{before as before_of, behind as behind_of, contains as contains_of, ends as ends_of, place_of, starts as starts_of, string_length as string_length_of, substring as substring_of, substring_after as substring_after_of, substring_before as substring_before_of, substring_from as substring_from_of};

use crate::characters::{characters, text_from, text_within};
use pj_base::NoMemory;
use pj_xvalue::{
    Sequence, XFault, boolean_singleton, count_singleton, integer_argument,
    optional_string_argument, string_singleton,
};
use std::alloc::Global;

/// `contains`.
pub(crate) fn contains<'t>(
    alloc: Global,
    text: &Sequence<'_>,
    part: &Sequence<'_>,
) -> Result<Sequence<'t>, XFault>
    ensures { IsGiven (contains_of (values_of text.now) (values_of part.now)) (outcome values_of result) }
{
    let whole = optional_string_argument(text)?;
    let sought = optional_string_argument(part)?;
    Ok(boolean_singleton(alloc, has_part(whole, sought))?)
}

/// Whether a text has another one as a part.
fn has_part(text: &str, part: &str) -> bool
    ensures { result ≡ is_some (place_of (chars part.now) (chars text.now)) }
{
    text.contains(part)
}

/// `starts-with`.
pub(crate) fn starts<'t>(
    alloc: Global,
    text: &Sequence<'_>,
    part: &Sequence<'_>,
) -> Result<Sequence<'t>, XFault>
    ensures { IsGiven (starts_of (values_of text.now) (values_of part.now)) (outcome values_of result) }
{
    let whole = optional_string_argument(text)?;
    let sought = optional_string_argument(part)?;
    Ok(boolean_singleton(alloc, starts_with(whole, sought))?)
}

/// Whether a text begins with another one.
fn starts_with(text: &str, part: &str) -> bool
    ensures { result ≡ starts_with_part nat_eq (chars text.now) (chars part.now) }
{
    text.starts_with(part)
}

/// `ends-with`.
pub(crate) fn ends<'t>(
    alloc: Global,
    text: &Sequence<'_>,
    part: &Sequence<'_>,
) -> Result<Sequence<'t>, XFault>
    ensures { IsGiven (ends_of (values_of text.now) (values_of part.now)) (outcome values_of result) }
{
    let whole = optional_string_argument(text)?;
    let sought = optional_string_argument(part)?;
    Ok(boolean_singleton(alloc, ends_with(whole, sought))?)
}

/// Whether a text ends with another one.
fn ends_with(text: &str, part: &str) -> bool
    ensures { result ≡ ends_with_part nat_eq (chars text.now) (chars part.now) }
{
    text.ends_with(part)
}

/// `substring-before`.
pub(crate) fn substring_before<'t>(
    alloc: Global,
    text: &Sequence<'_>,
    part: &Sequence<'_>,
) -> Result<Sequence<'t>, XFault>
    ensures { IsGiven (substring_before_of (values_of text.now) (values_of part.now)) (outcome values_of result) }
{
    let whole = optional_string_argument(text)?;
    let sought = optional_string_argument(part)?;
    Ok(copied(alloc, part_before(whole, sought))?)
}

/// `substring-after`.
pub(crate) fn substring_after<'t>(
    alloc: Global,
    text: &Sequence<'_>,
    part: &Sequence<'_>,
) -> Result<Sequence<'t>, XFault>
    ensures { IsGiven (substring_after_of (values_of text.now) (values_of part.now)) (outcome values_of result) }
{
    let whole = optional_string_argument(text)?;
    let sought = optional_string_argument(part)?;
    Ok(copied(alloc, part_behind(whole, sought))?)
}

/// The text before the first place at which the part stands, or no text where it stands nowhere.
fn part_before<'a>(text: &'a str, part: &str) -> &'a str
    ensures { result.now ≡ encode_utf8_all (before_of (chars text.now) (chars part.now)) }
{
    match text.split_once(part) {
        Some((front, _)) => front,
        None => "",
    }
}

/// The text behind that place, likewise.
fn part_behind<'a>(text: &'a str, part: &str) -> &'a str
    ensures { result.now ≡ encode_utf8_all (behind_of (chars text.now) (chars part.now)) }
{
    match text.split_once(part) {
        Some((_, rest)) => rest,
        None => "",
    }
}

/// A sequence of a string of its own.
fn copied<'t>(alloc: Global, text: &str) -> Result<Sequence<'t>, NoMemory>
    ensures { IfOk result (λ items. values_of items ≡ StringValue text.now ∷ []) }
{
    string_singleton(alloc, String::from_str(alloc, text)?)
}

/// `substring` of two arguments.
pub(crate) fn substring_from<'t>(
    alloc: Global,
    text: &Sequence<'_>,
    start: &Sequence<'_>,
) -> Result<Sequence<'t>, XFault>
    ensures { IsGiven (substring_from_of (values_of text.now) (values_of start.now)) (outcome values_of result) }
{
    let whole = optional_string_argument(text)?;
    let first = integer_argument(start)?;
    let all = characters(alloc, whole)?;
    let kept = text_from(alloc, &all, first)?;
    Ok(string_singleton(alloc, kept)?)
}

/// `substring` with a length.
pub(crate) fn substring<'t>(
    alloc: Global,
    text: &Sequence<'_>,
    start: &Sequence<'_>,
    length: &Sequence<'_>,
) -> Result<Sequence<'t>, XFault>
    ensures { IsGiven (substring_of (values_of text.now) (values_of start.now) (values_of length.now)) (outcome values_of result) }
{
    let whole = optional_string_argument(text)?;
    let first = integer_argument(start)?;
    let number = integer_argument(length)?;
    let all = characters(alloc, whole)?;
    let kept = text_within(alloc, &all, first, number)?;
    Ok(string_singleton(alloc, kept)?)
}

/// `string-length` of an argument.
pub(crate) fn string_length<'t>(alloc: Global, text: &Sequence<'_>) -> Result<Sequence<'t>, XFault>
    ensures { IsGiven (string_length_of (values_of text.now)) (outcome values_of result) }
{
    let whole = optional_string_argument(text)?;
    Ok(count_singleton(alloc, count_characters(whole))?)
}

/// How many characters a text has.
fn count_characters(text: &str) -> usize
    ensures { result ≡ length (chars text.now) }
{
    text.chars().count()
}
