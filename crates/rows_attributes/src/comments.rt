//! Comments that suppress findings. Given is a file, with the marker in the section's setting `marker`; or given are a marker
//! and, behind `in`, a file. Found are the lines that are marked.

ghost use Rattle.std.specs.List.Sorted.{IsNonDecreasing};

use crate::files::source_of;
use crate::put::{put, put_word};
use pj_base::{NoMemory, Text};
use pj_lex::{Lexer, Tokens};
use pj_rows::{Row, Section, Table};
use pj_source::Source;
use pj_suppress::{Lines, is_marked, marks};
use std::alloc::Global;
use std::fmt::Write;

/// The rows of comments that suppress.
pub struct Comments;

/// The tokens of a source, up to the first fault.
fn tokens_of<'s>(alloc: Global, source: &'s Source) -> Result<Tokens<'s>, NoMemory> {
    let mut lexer = Lexer::over(source.text());
    let mut found = Tokens::new(alloc);
    for _ in 0..1000 {
        match lexer.next_token() {
            Some(Ok(token)) => found.push(token)?,
            _ => break,
        }
    }
    Ok(found)
}

/// Puts the number of a line.
fn put_line(out: &mut String, line: u32) -> Result<(), NoMemory> {
    put_word(out, "")?;
    write!(out, "{line}")?;
    Ok(())
}

/// Whether each of the first lines is told to be marked just where it is.
fn are_told(lines: &Lines) -> bool
    requires { IsNonDecreasing lines.now }
{
    for line in 0..6 {
        if is_marked(lines, line) != lines.as_slice().contains(&line) {
            return false;
        }
    }
    true
}

/// Puts lines.
fn put_lines(out: &mut String, lines: &Lines) -> Result<(), NoMemory>
    requires { IsNonDecreasing lines.now }
{
    if !are_told(lines) {
        return put(out, "! a line is told wrongly");
    }
    for line in lines.as_slice() {
        put_line(out, *line)?;
    }
    Ok(())
}

/// Puts the lines of a source that are marked.
fn put_marks(
    out: &mut String,
    alloc: Global,
    source: &Source,
    marker: &str,
) -> Result<(), NoMemory> {
    let marker = Text::from_str(alloc, marker)?;
    let tokens = tokens_of(alloc, source)?;
    let lines = marks(alloc, source, &tokens, &marker)?;
    put_lines(out, &lines)
}

/// Puts the lines of a text that are marked.
fn put_marks_of(out: &mut String, alloc: Global, text: &str, marker: &str) -> Result<(), NoMemory> {
    match source_of(alloc, text) {
        Some(source) => put_marks(out, alloc, &source, marker),
        None => put(out, "! no text"),
    }
}

/// Puts the lines that are marked as a row asks.
fn put_asked(
    out: &mut String,
    alloc: Global,
    section: &Section,
    given: &str,
) -> Result<(), NoMemory> {
    if let Some(marker) = section.setting("marker") {
        return put_marks_of(out, alloc, given, marker);
    }
    let (marker, text) = given.split_once(" in ").unwrap_or((given, ""));
    put_marks_of(out, alloc, text, marker)
}

impl Table for Comments {
    fn has_setting(&self, name: &str) -> bool {
        name == "marker"
    }

    fn answer(&self, alloc: Global, section: &Section, row: &Row) -> Result<String, NoMemory> {
        let mut found = String::new(alloc);
        put_asked(&mut found, alloc, section, row.given.as_str())?;
        Ok(found)
    }
}
