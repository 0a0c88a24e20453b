//! Characters that are written by their names: `\{n}`, `\{t}`, `\{r}`, `\{s}` for a space, `\{}` for none, and `\{HEX}` for
//! the character of a number.
use pj_base::NoMemory;
use std::alloc::Global;

/// The character of a name, if it is one.
fn character_named(name: &str) -> Option<char> {
    match name {
        "n" => Some('\n'),
        "t" => Some('\t'),
        "r" => Some('\r'),
        "s" => Some(' '),
        _ => char::from_u32(u32::from_str_radix(name, 16).ok()?),
    }
}

/// Puts the character of a name to the text, or none for the empty name. Whether it is the name of one.
fn put_named(text: &mut String, name: &str) -> Result<bool, NoMemory> {
    if name.is_empty() {
        return Ok(true);
    }
    match character_named(name) {
        Some(character) => {
            text.push(character)?;
            Ok(true)
        }
        None => Ok(false),
    }
}

/// The text that is written with these escapes, or `None` where one is none.
pub fn unescape(alloc: Global, written: &str) -> Result<Option<String>, NoMemory> {
    let mut text = String::new(alloc);
    let mut rest = written;
    for _escape in 0..written.len() {
        let Some((before, behind)) = rest.split_once("\\{") else {
            break;
        };
        let Some((name, behind)) = behind.split_once('}') else {
            return Ok(None);
        };
        text.push_str(before)?;
        if !put_named(&mut text, name)? {
            return Ok(None);
        }
        rest = behind;
    }
    text.push_str(rest)?;
    Ok(Some(text))
}

/// Whether a character is written by its number, since it is seen badly.
fn is_hidden(character: char) -> bool {
    character < ' ' || ('\u{7f}'..='\u{a0}').contains(&character) || character == '\u{feff}'
}

/// Puts a character as it is written inside a text.
fn put_escaped(written: &mut String, alloc: Global, character: char) -> Result<(), NoMemory> {
    match character {
        '\n' => written.push_str("\\{n}")?,
        '\t' => written.push_str("\\{t}")?,
        '\r' => written.push_str("\\{r}")?,
        _ if is_hidden(character) => {
            let number = character as u32;
            let name = format!(in alloc; "{number:x}")?;
            written.push_str("\\{")?;
            written.push_str(name.as_str())?;
            written.push_str("}")?;
        }
        _ => written.push(character)?,
    }
    Ok(())
}

/// The text as a file of rows has it on one line: what is seen badly is written by its name, and so are a space at an end
/// and a brace behind a backslash.
pub fn escape(alloc: Global, text: &str) -> Result<String, NoMemory> {
    let mut written = String::new(alloc);
    if text.is_empty() {
        written.push_str("\\{}")?;
    }
    let mut last = ' ';
    for (at, character) in text.char_indices() {
        let is_at_end = at == 0 || at.saturating_add(1) == text.len();
        if character == ' ' && is_at_end {
            written.push_str("\\{s}")?;
        } else if character == '{' && last == '\\' {
            written.push_str("\\{7b}")?;
        } else {
            put_escaped(&mut written, alloc, character)?;
        }
        last = character;
    }
    Ok(written)
}
