//! White space.
ghost use Rattle.std.specs.Prelude.{◌≡◌, ◌++◌, IfOk, OnOk};
ghost use Rattle.std.specs.Char.{encode_utf8};
ghost use Rattle.pj_rule_texts.specs.Values.{is_space, normalized};
ghost use Rattle.pj_rule_texts.specs.Spaces.{put_word_character};

use pj_base::{NoMemory, Text, split_first};
use std::alloc::Global;

/// Whether a character is white space of markup.
fn is_space(c: char) -> bool
    ensures { result ≡ is_space c }
{
    c == ' ' || c == '\t' || c == '\n' || c == '\r'
}

/// Puts a character that is no white space at the end, behind a space where white space stands between it and the text.
fn put(text: &mut Text, is_behind_space: bool, c: char) -> Result<(), NoMemory>
    ensures { OnOk result (text.new ≡ text.old ++ put_word_character text.old is_behind_space c) }
{
    if is_behind_space && !text.is_empty() {
        text.push(' ')?;
    }
    text.push(c)
}

/// The text with each run of white space made one space and its ends trimmed. White space is space, tab, line feed and carriage
/// return.
pub fn normalized(alloc: Global, text: &str) -> Result<Text, NoMemory>
    ensures { IfOk result (λ made. made ≡ normalized text.now) }
{
    let mut made = Text::new(alloc);
    let mut is_behind_space = false;
    let mut rest = text;
    while let Some((c, behind)) = split_first(rest) {
        if is_space(c) {
            is_behind_space = true;
        } else {
            put(&mut made, is_behind_space, c)?;
            is_behind_space = false;
        }
        rest = behind;
    }
    Ok(made)
}
