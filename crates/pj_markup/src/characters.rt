//! The sets of characters that the grammar names.

ghost use Rattle.std.specs.Prelude.{◌≡◌};
ghost use Rattle.pj_markup.specs.Characters.{is_space, starts_name, continues_name, is_quote, digit, is_scalar, base};
ghost use Rattle.std.specs.Prelude.{IfOk};
ghost use Rattle.std.specs.Str.{encode_utf8_all};

use pj_base::{NoMemory, Text};
use std::alloc::Global;

/// Whether the character is white space: a space, a tab, a line feed or a carriage return.
pub fn is_space(c: char) -> bool
    ensures { result ≡ is_space c }
{
    c == ' ' || c == '\t' || c == '\n' || c == '\r'
}

/// Whether a name can begin with the character.
pub fn starts_name(c: char) -> bool
    ensures { result ≡ starts_name c }
{
    ('A' <= c && c <= 'Z') || ('a' <= c && c <= 'z') || c == '_' || c == ':' || '\u{80}' <= c
}

/// Whether a name can go on with the character.
pub fn continues_name(c: char) -> bool
    ensures { result ≡ continues_name c }
{
    starts_name(c) || ('0' <= c && c <= '9') || c == '-' || c == '.'
}

/// Whether the character can stand around the value of an attribute.
pub fn is_quote(c: char) -> bool
    ensures { result ≡ is_quote c }
{
    c == '"' || c == '\''
}

/// The value of a digit of a decimal or a hexadecimal number.
pub fn digit(hexadecimal: bool, c: char) -> Option<u32>
    ensures { result ≡ digit hexadecimal c }
{
    if '0' <= c && c <= '9' {
        return Some(c as u32 - '0' as u32);
    }
    if hexadecimal && 'a' <= c && c <= 'f' {
        return Some(c as u32 - 87);
    }
    if hexadecimal && 'A' <= c && c <= 'F' {
        return Some(c as u32 - 55);
    }
    None
}

/// The base of decimal or hexadecimal numbers.
pub fn base(hexadecimal: bool) -> u32
    ensures { result ≡ base hexadecimal }
{
    if hexadecimal { 16 } else { 10 }
}

/// Whether a character has this number, which is above 0.
pub fn is_scalar(n: u32) -> bool
    ensures { result ≡ is_scalar n }
{
    1 <= n && n <= 1_114_111 && (n <= 55_295 || 57_344 <= n)
}

/// The text of characters.
pub fn text_of(alloc: Global, characters: &[char]) -> Result<Text, NoMemory>
    ensures { IfOk result (λ text. text ≡ encode_utf8_all characters.now) }
{
    let mut text = Text::new(alloc);
    for c in characters {
        text.push(*c)?;
    }
    Ok(text)
}
