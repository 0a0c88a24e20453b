//! The texts of files. Given is a file, and found are its text between quotes and the line and column of each of its bytes and
//! of its end. By the setting `bytes` each character stands for the byte of its number; by the setting `untranslated` the
//! places alone are found, of the text as it is.
use crate::source::{put, put_between};
use pj_base::NoMemory;
use pj_rows::{Row, Section, Table};
use pj_source::{Source, SourceFault};
use pj_tree::{LineMap, Place};
use std::alloc::Global;
use std::fmt::Write;

/// The rows of texts.
pub struct Texts;

/// Puts a place.
fn put_place(out: &mut String, place: Place) -> Result<(), NoMemory> {
    put_between(out, " ")?;
    write!(out, "{}:{}", place.line, place.column)?;
    Ok(())
}

/// Puts the text, and the place of each of its offsets, the end included.
fn put_source(out: &mut String, source: &Source) -> Result<(), NoMemory> {
    let text = source.text();
    put(out, "\"")?;
    put(out, text)?;
    put(out, "\"")?;
    for offset in 0..text.len() as u32 + 1 {
        put_place(out, source.place(offset))?;
    }
    Ok(())
}

/// Puts why bytes are no source.
fn put_fault(out: &mut String, fault: SourceFault) -> Result<(), NoMemory> {
    match fault {
        SourceFault::NotUtf8(offset) => write!(out, "! not UTF-8 at {offset}")?,
        SourceFault::Escape(place) => write!(out, "! escape at {}:{}", place.line, place.column)?,
        SourceFault::Memory => put(out, "! memory")?,
    }
    Ok(())
}

/// Puts what is read of a file of these bytes.
fn put_file(out: &mut String, alloc: Global, bytes: &[u8]) -> Result<(), NoMemory> {
    if bytes.len() > 1_000_000 {
        return put(out, "! too long");
    }
    match Source::read(alloc, bytes) {
        Ok(source) => put_source(out, &source),
        Err(fault) => put_fault(out, fault),
    }
}

/// Puts what is read of a file whose bytes are the numbers of these characters.
fn put_file_of_bytes(out: &mut String, alloc: Global, given: &str) -> Result<(), NoMemory> {
    let mut bytes = Vec::new(alloc);
    for character in given.chars() {
        bytes.push(u8::try_from(character as u32).unwrap_or(0))?;
    }
    put_file(out, alloc, bytes.as_slice())
}

/// Puts the places of a text as it is.
fn put_places(out: &mut String, alloc: Global, text: &str) -> Result<(), NoMemory> {
    if text.len() > 1_000_000 {
        return put(out, "! too long");
    }
    let map = LineMap::new(alloc, text)?;
    for offset in 0..text.len() + 1 {
        put_place(out, map.place(offset as u32))?;
    }
    Ok(())
}

/// Puts what a section asks of a text.
fn put_asked(
    out: &mut String,
    alloc: Global,
    section: &Section,
    given: &str,
) -> Result<(), NoMemory> {
    if section.has("untranslated") {
        put_places(out, alloc, given)
    } else if section.has("bytes") {
        put_file_of_bytes(out, alloc, given)
    } else {
        put_file(out, alloc, given.as_bytes())
    }
}

impl Table for Texts {
    fn has_setting(&self, name: &str) -> bool {
        name == "bytes" || name == "untranslated"
    }

    fn answer(&self, alloc: Global, section: &Section, row: &Row) -> Result<String, NoMemory> {
        let mut found = String::new(alloc);
        put_asked(&mut found, alloc, section, row.given.as_str())?;
        Ok(found)
    }
}
