//! The values of options.
ghost use Rattle.std.specs.Prelude.{◌≡◌, ◌<◌, ◌≤◌, ◌^◌, IfSome, codes};
ghost use Rattle.std.specs.Option.{option_map};
ghost use Rattle.std.specs.Str.{all_ascii_digits};
ghost use Rattle.pj_settings.specs.Job.{Gives, RefusedBy};
ghost use Rattle.pj_settings.specs.Values.{classes_value, format_named, format_value, is_decimal, list_value, marker_value, number_between, number_value, version_value};

use crate::settings::Format;
use crate::usage::{UsageFault, UsageRefused};
use pj_base::{Names, Text};
use std::alloc::Global;

/// The refusal of an option's word.
fn bad_value(alloc: Global, option: &str, word: &str) -> UsageRefused
    ensures { RefusedBy (UsageFault.Value option.now word.now) result }
{
    match (Text::from_str(alloc, option), Text::from_str(alloc, word)) {
        (Ok(option), Ok(word)) => UsageRefused::Fault(UsageFault::Value(option, word)),
        _ => UsageRefused::Memory,
    }
}

/// Whether each byte is a decimal digit.
fn are_digits(bytes: &[u8]) -> bool
    ensures { result ≡ all_ascii_digits bytes.now }
{
    for byte in bytes {
        if !byte.is_ascii_digit() {
            return false;
        }
    }
    true
}

/// Whether a text is a number in decimal digits, without a `0` before others.
fn is_decimal(text: &str) -> bool
    ensures { result ≡ is_decimal text.now }
{
    let bytes = text.as_bytes();
    if !are_digits(bytes) {
        return false;
    }
    match bytes {
        [] => false,
        [_] => true,
        [first, ..] => *first != b'0',
    }
}

/// The number that a text spells, where it lies within bounds.
fn number_between(least: u32, most: u32, text: &str) -> Option<u32>
    requires { most < 2 ^ 31 }
    ensures value { result ≡ number_between least most text.now }
    ensures within { IfSome result (λ n. n ≤ most) }
{
    if !is_decimal(text) {
        return None;
    }
    match text.parse::<u32>() {
        Ok(n) => {
            if least <= n && n <= most {
                Some(n)
            } else {
                None
            }
        }
        Err(_) => None,
    }
}

/// The number of workers, from 0 to 64.
pub fn threads_value(alloc: Global, word: &str) -> Result<u32, UsageRefused>
    ensures { Gives result (number_value (codes "--threads") 0 64 word.now) }
{
    match number_between(0, 64, word) {
        Some(n) => Ok(n),
        None => Err(bad_value(alloc, "--threads", word)),
    }
}

/// The number of a priority, from 1 to 5.
pub fn minimum_value(alloc: Global, word: &str) -> Result<u8, UsageRefused>
    ensures { Gives result (number_value (codes "--minimum-priority") 1 5 word.now) }
{
    match number_between(1, 5, word) {
        Some(n) => Ok(n as u8),
        None => Err(bad_value(alloc, "--minimum-priority", word)),
    }
}

/// The format that a word names.
fn format_named(word: &str) -> Option<Format>
    ensures { result ≡ format_named word.now }
{
    match word {
        "text" => Some(Format::Text),
        "csv" => Some(Format::Csv),
        "json" => Some(Format::Json),
        _ => None,
    }
}

/// The form that the word names.
pub fn format_value(alloc: Global, word: &str) -> Result<Format, UsageRefused>
    ensures { Gives result (format_value word.now) }
{
    match format_named(word) {
        Some(format) => Ok(format),
        None => Err(bad_value(alloc, "--format", word)),
    }
}

/// The items of the word between the marks, which are ASCII.
fn list_value(alloc: Global, mark: char, option: &str, word: &str) -> Result<Names, UsageRefused>
    requires { mark < 128 }
    ensures { Gives result (list_value mark option.now word.now) }
{
    let mut names = Names::new(alloc);
    let mut left = word;
    while let Some((piece, rest)) = left.split_once(mark) {
        if piece.is_empty() {
            return Err(bad_value(alloc, option, word));
        }
        names.push(Text::from_str(alloc, piece)?)?;
        left = rest;
    }
    if left.is_empty() {
        return Err(bad_value(alloc, option, word));
    }
    names.push(Text::from_str(alloc, left)?)?;
    Ok(names)
}

/// The items of the word between its commas.
pub fn items_value(alloc: Global, option: &str, word: &str) -> Result<Names, UsageRefused>
    ensures { Gives result (list_value 44 option.now word.now) }
{
    list_value(alloc, ',', option, word)
}

/// The class folders, split at `:`. Without a word there are none.
pub fn classes_value(alloc: Global, word: Option<&str>) -> Result<Names, UsageRefused>
    ensures { Gives result (classes_value (option_map (λ text. text.now) word.entry)) }
{
    match word {
        Some(word) => list_value(alloc, ':', "--aux-classpath", word),
        None => Ok(Names::new(alloc)),
    }
}

/// The marker, which is not empty.
pub fn marker_value(alloc: Global, word: &str) -> Result<Text, UsageRefused>
    ensures { Gives result (marker_value word.now) }
{
    if word.is_empty() {
        return Err(bad_value(alloc, "--suppress-marker", word));
    }
    Ok(Text::from_str(alloc, word)?)
}

/// That the version is the one that is read.
pub fn version_value(alloc: Global, word: &str) -> Result<(), UsageRefused>
    ensures { Gives result (version_value word.now) }
{
    match word {
        "java-17" => Ok(()),
        _ => Err(bad_value(alloc, "--use-version", word)),
    }
}
