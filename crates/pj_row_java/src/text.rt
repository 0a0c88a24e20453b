//! A text of Java and the name that is looked up in it.
use pj_base::{NoMemory, Text};
use std::alloc::Global;

/// Whether a character stands in a name.
fn is_of_name(c: char) -> bool {
    c.is_alphanumeric() || c == '_' || c == '$'
}

/// The name that a text begins with.
fn first_name(text: &str) -> &str {
    for (offset, c) in text.char_indices() {
        if !is_of_name(c) {
            return text.get(..offset).unwrap_or("");
        }
    }
    text
}

/// The name behind the mark of the place, and the empty one where no place is marked.
pub fn name_at_mark(text: &str) -> &str {
    match text.split_once("/*?*/") {
        Some((_, behind)) => first_name(behind),
        None => "",
    }
}

/// A word, which is written as `""` where it is empty.
pub fn unquoted(word: &str) -> &str {
    if word == "\"\"" { "" } else { word }
}

/// The name in front of a text, with `in` between, and the text. A front with a brace is part of the text.
pub fn named(line: &str) -> (Option<&str>, &str) {
    match line.split_once(" in ") {
        Some((name, text)) if !name.contains('{') => (Some(unquoted(name)), text),
        _ => (None, line),
    }
}

/// How often, what, and what stands behind: `5(x)y` says five times `x`, and then `y`.
fn repeated(piece: &str) -> Option<(u32, &str, &str)> {
    let (number, behind) = piece.split_once('(')?;
    let times = number.parse::<u32>().ok()?;
    let (text, rest) = behind.split_once(')')?;
    Some((times, text, rest))
}

/// Puts a text so many times.
fn put_times(out: &mut Text, text: &str, times: u32) -> Result<(), NoMemory> {
    for _time in 0..times {
        out.push_str(text)?;
    }
    Ok(())
}

/// Puts a piece that stands behind a `%`.
fn put_piece(out: &mut Text, piece: &str) -> Result<(), NoMemory> {
    match repeated(piece) {
        Some((times, text, rest)) => {
            put_times(out, text, times)?;
            out.push_str(rest)
        }
        None => {
            out.push_str("%")?;
            out.push_str(piece)
        }
    }
}

/// A line in which `%5(x)` is written for five times `x`.
pub fn expanded(alloc: Global, line: &str) -> Result<Text, NoMemory> {
    let Some((first, rest)) = line.split_once('%') else {
        return Text::from_str(alloc, line);
    };
    let mut out = Text::from_str(alloc, first)?;
    for piece in rest.split('%') {
        put_piece(&mut out, piece)?;
    }
    Ok(out)
}
