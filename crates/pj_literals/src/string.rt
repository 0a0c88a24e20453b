//! The values of character literals, string literals and text blocks.

ghost use Rattle.std.specs.Prelude.{◌≡◌, IfOk};
ghost use Rattle.std.specs.Str.{chars, encode_utf8_all};
ghost use Rattle.pj_literals.specs.StringValue.{string_value, between_delimiters};

use crate::block::text_block;
use crate::escape::interpreted;
use pj_base::{NoMemory, Text};
use std::alloc::Global;

/// The characters that a character literal, a string literal or a text block stands for (JLS 3.10.4 to 3.10.7): its escapes are interpreted,
/// and a text block has lost its incidental white space. Any other text is read as if it were one: as a text block where three quotes open it,
/// and else without its first and its last character.
pub fn string_value(alloc: Global, text: &str) -> Result<Text, NoMemory>
    ensures value { IfOk result (λ made. made ≡ encode_utf8_all (string_value (chars text.now))) }
{
    let word: Vec<char> = text.chars().collect(alloc)?;
    if word.starts_with(&['"', '"', '"']) {
        let content = text_block(alloc, &word)?;
        interpreted(alloc, &content)
    } else {
        interpreted(alloc, between_delimiters(&word))
    }
}

/// What stands between the delimiters of a character or string literal.
fn between_delimiters<'w>(word: &'w [char]) -> &'w [char]
    ensures { result.now ≡ between_delimiters word.now }
{
    let behind = match word.split_first() {
        Some((_, behind)) => behind,
        None => word,
    };
    match behind.split_last() {
        Some((_, content)) => content,
        None => behind,
    }
}
