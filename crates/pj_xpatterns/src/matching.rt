//! Functions of strings that use a pattern.
ghost use Rattle.std.specs.Prelude.{◌≡◌, map, IfOk};
ghost use Rattle.std.specs.List.{list_any};
ghost use Rattle.std.specs.Option.{option_map};
ghost use Rattle.pj_xvalue.specs.Items.{String as StringValue, values_of};
ghost use Rattle.pj_xvalue.specs.Replies.{outcome};
ghost use Rattle.pj_xvalue.specs.Arguments.{IsGiven, seen_as};
ghost use Rattle.pj_xpatterns.specs.Patterns.{flags_in as flags_in_of, is_mark, known as known_of, matches as matches_of, never_empty, plain, replace as replace_of, tokenize as tokenize_of};

use crate::compiled::CompiledPattern;
use crate::flags::PatternFlags;
use crate::patterns::Patterns;
use pj_base::{Names, NoMemory};
use pj_xvalue::{
    Item, Sequence, XCode, XFault, boolean_singleton, optional_string_argument, singleton,
    string_argument,
};
use std::alloc::Global;

/// `matches`.
pub fn matches<'t>(
    alloc: Global,
    patterns: &Patterns,
    text: &Sequence<'_>,
    pattern: &Sequence<'_>,
    flags: Option<&Sequence<'_>>,
) -> Result<Sequence<'t>, XFault>
    ensures { IsGiven (matches_of patterns.now (values_of text.now) (values_of pattern.now) (option_map (λ items. values_of items.now) flags.entry)) (outcome values_of result) }
{
    let input = optional_string_argument(text)?;
    let sought = string_argument(pattern)?;
    let wanted = flags_in(flags)?;
    let compiled = known(alloc, patterns, sought, wanted)?;
    let is_found = compiled.is_found(alloc, input)?;
    Ok(boolean_singleton(alloc, is_found)?)
}

/// `replace`.
pub fn replace<'t>(
    alloc: Global,
    patterns: &Patterns,
    text: &Sequence<'_>,
    pattern: &Sequence<'_>,
    replacement: &Sequence<'_>,
    flags: Option<&Sequence<'_>>,
) -> Result<Sequence<'t>, XFault>
    ensures { IsGiven (replace_of patterns.now (values_of text.now) (values_of pattern.now) (values_of replacement.now) (option_map (λ items. values_of items.now) flags.entry)) (outcome values_of result) }
{
    let input = optional_string_argument(text)?;
    let sought = string_argument(pattern)?;
    let by = plain(string_argument(replacement)?)?;
    let wanted = flags_in(flags)?;
    let compiled = never_empty(alloc, known(alloc, patterns, sought, wanted)?)?;
    let replaced = compiled.replaced(alloc, by, input)?;
    Ok(singleton(alloc, Item::Str(replaced))?)
}

/// `tokenize`.
pub fn tokenize<'t>(
    alloc: Global,
    patterns: &Patterns,
    text: &Sequence<'_>,
    pattern: &Sequence<'_>,
    flags: Option<&Sequence<'_>>,
) -> Result<Sequence<'t>, XFault>
    ensures { IsGiven (tokenize_of patterns.now (values_of text.now) (values_of pattern.now) (option_map (λ items. values_of items.now) flags.entry)) (outcome values_of result) }
{
    let input = optional_string_argument(text)?;
    let sought = string_argument(pattern)?;
    let wanted = flags_in(flags)?;
    let compiled = never_empty(alloc, known(alloc, patterns, sought, wanted)?)?;
    if input.is_empty() {
        return Ok(Sequence::new(alloc));
    }
    let pieces = compiled.pieces(alloc, input)?;
    Ok(strings(alloc, pieces)?)
}

/// The flags of a call.
fn flags_in(flags: Option<&Sequence<'_>>) -> Result<PatternFlags, XCode>
    ensures { result ≡ flags_in_of (option_map (λ items. values_of items.now) flags.entry) }
{
    match flags {
        None => Ok(PatternFlags::NONE),
        Some(items) => match PatternFlags::of(string_argument(items)?) {
            Some(flags) => Ok(flags),
            None => Err(XCode::XPTY0004),
        },
    }
}

/// The compiled pattern, which is one of these.
fn known<'a>(
    alloc: Global,
    patterns: &'a Patterns,
    pattern: &str,
    flags: PatternFlags,
) -> Result<&'a CompiledPattern, XFault>
    ensures { IsGiven (known_of patterns.now (pattern.now, flags)) (outcome (λ compiled. compiled.now) result) }
{
    match patterns.get(alloc, pattern, flags)? {
        Some(compiled) => Ok(compiled),
        None => Err(XFault::Code(XCode::XPTY0004)),
    }
}

/// The pattern, which is not found in the empty string.
fn never_empty<'a>(
    alloc: Global,
    pattern: &'a CompiledPattern,
) -> Result<&'a CompiledPattern, XFault>
    ensures { IsGiven (never_empty pattern.now) (outcome (λ compiled. compiled.now) result) }
{
    if pattern.is_found(alloc, "")? {
        return Err(XFault::Code(XCode::FORX0003));
    }
    Ok(pattern)
}

/// A replacement, which has no `$` and no `\`.
fn plain(text: &str) -> Result<&str, XCode>
    ensures { seen_as (λ by. by.now) result ≡ plain text.now }
{
    if has_mark(text.as_bytes()) {
        return Err(XCode::XPTY0004);
    }
    Ok(text)
}

/// Whether such a byte is among some.
fn has_mark(bytes: &[u8]) -> bool
    ensures { result ≡ list_any is_mark bytes.now }
{
    bytes.iter().any(|byte| is_mark(*byte))
}

/// Whether a byte means something in what matches are replaced by.
fn is_mark(byte: u8) -> bool
    ensures { result ≡ is_mark byte }
{
    byte == b'$' || byte == b'\\'
}

/// The texts as strings.
fn strings<'t>(alloc: Global, texts: Names) -> Result<Sequence<'t>, NoMemory>
    ensures { IfOk result (λ items. values_of items ≡ map StringValue texts) }
{
    let mut items = Sequence::new(alloc);
    for text in texts.into_vec() {
        items.push(Item::Str(text))?;
    }
    Ok(items)
}
