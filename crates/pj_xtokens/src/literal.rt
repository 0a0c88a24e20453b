//! The values of literals.

ghost use Rattle.std.specs.Prelude.{◌≡◌, ◌++◌, false, IfOk, OnOk, option_to_list, string_bytes};
ghost use Rattle.std.specs.Str.{chars, encode_utf8_all};
ghost use Rattle.pj_xtokens.specs.Literals.{number_from, if_it_fits, integer_of, unquoted, characters_of, is_left_out, kept};

use pj_base::{NoMemory, Text};
use std::alloc::Global;

/// The number of the digits, where it is an integer of 64 bits.
fn number(digits: &[u8]) -> Option<i64>
    ensures { result ≡ if_it_fits (number_from 0 digits.now) }
{
    let mut value: u128 = 0;
    let mut left = digits;
    'digits: while let [digit, more @ ..] = left {
        value = value * 10 + digit.saturating_sub(b'0') as u128;
        if value > i64::MAX as u128 {
            return None;
        }
        left = more;
    }
    Some(value as i64)
}

/// The value of a literal of digits, or `None` where it is above the greatest integer (XPath 2.0, 3.1.1).
#[tactic(auto, unfolding(crate::specs::Literals::integer_of))]
pub fn integer_value(digits: &str) -> Option<i64>
    ensures { result ≡ integer_of digits.now }
{
    number(digits.as_bytes())
}

/// Whether the character is a mark that is left out.
fn is_left_out(mark: char, half: bool, c: char) -> bool
    ensures { result ≡ is_left_out mark half c }
{
    c == mark && !half
}

/// The character, if it is not left out.
fn kept(left_out: bool, c: char) -> Option<char>
    ensures { option_to_list result ≡ kept left_out c }
{
    if left_out { None } else { Some(c) }
}

/// Puts the character at the end, if there is one.
fn append(made: &mut String, value: Option<char>) -> Result<(), NoMemory>
    ensures { OnOk result (string_bytes made.new ≡ string_bytes made.old ++ encode_utf8_all (option_to_list value)) }
{
    if let Some(c) = value {
        made.push(c)?;
    }
    Ok(())
}

/// The characters without the marks that are left out.
fn unquoted(alloc: Global, mark: char, content: &[char]) -> Result<Text, NoMemory>
    ensures { IfOk result (λ made. made ≡ encode_utf8_all (unquoted mark false content.now)) }
{
    let mut made = String::new(alloc);
    let mut half = false;
    let mut rest = content;
    'content: while let [c, behind @ ..] = rest {
        let left_out = is_left_out(mark, half, *c);
        append(&mut made, kept(left_out, *c))?;
        half = left_out;
        rest = behind;
    }
    Ok(Text::from_string(made))
}

/// The characters that a literal stands for.
fn characters_of(alloc: Global, literal: &[char]) -> Result<Text, NoMemory>
    ensures { IfOk result (λ made. made ≡ encode_utf8_all (characters_of literal.now)) }
{
    match literal {
        [mark, content @ ..] => unquoted(alloc, *mark, content),
        [] => Ok(Text::new(alloc)),
    }
}

/// The characters of a string literal, without what stands around them and with its doubled quotes made single (XPath 2.0,
/// 3.1.1).
pub fn string_value(alloc: Global, literal: &str) -> Result<Text, NoMemory>
    ensures { IfOk result (λ value. value ≡ encode_utf8_all (characters_of (chars literal.now))) }
{
    let characters: Vec<char> = literal.chars().collect(alloc)?;
    characters_of(alloc, &characters)
}
