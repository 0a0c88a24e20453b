//! The fields of a line: a word, and texts in brackets, as `file [src/A.java] [p.q]`.
use pj_base::{NoMemory, Text};
use std::alloc::Global;

/// The word of a line, and its fields from the first one on.
pub fn split_word(line: &str) -> (&str, &str) {
    let (word, fields) = line.split_once(" [").unwrap_or((line, ""));
    (word, fields.strip_suffix("]").unwrap_or(fields))
}

/// The first field, and those behind it.
pub fn split_field(fields: &str) -> (&str, &str) {
    fields.split_once("] [").unwrap_or((fields, ""))
}

/// The character of a number in hexadecimal digits.
fn character_of(digits: &str) -> Option<char> {
    char::from_u32(u32::from_str_radix(digits, 16).ok()?)
}

/// Puts the character whose number stands in front of a brace, or the sign where none does. What is left of the field.
fn put_character<'r>(text: &mut Text, behind: &'r str) -> Result<&'r str, NoMemory> {
    let (digits, rest) = behind.split_once('}').unwrap_or((behind, ""));
    match character_of(digits) {
        Some(character) => {
            text.push(character)?;
            Ok(rest)
        }
        None => {
            text.push_str("\\u{")?;
            Ok(behind)
        }
    }
}

/// The text of a field, in which `\u{HEX}` is the character of a number.
pub fn text_of_field(alloc: Global, field: &str) -> Result<Text, NoMemory> {
    let mut text = Text::new(alloc);
    let mut rest = field;
    for _sign in 0..field.len() {
        let Some((before, behind)) = rest.split_once("\\u{") else {
            break;
        };
        text.push_str(before)?;
        rest = put_character(&mut text, behind)?;
    }
    text.push_str(rest)?;
    Ok(text)
}

/// The number of a field, or 0.
pub fn number_of(field: &str) -> u32 {
    field.parse::<u32>().unwrap_or(0)
}
