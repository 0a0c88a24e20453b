//! Java texts, and what is asked of them.

ghost use Rattle.std.specs.Prelude.{◌≡◌, length, Ok};
ghost use Rattle.pj_parse.specs.Parses.{Parses, file_parsed};
ghost use Rattle.pj_parse.specs.PoolText.{IsPoolOf};

use crate::attributes::put_attributes_at;
use crate::declarations::{put_declared, put_place};
use crate::modifiers::put_modifiers_at;
use crate::nodes::Asked;
use crate::put::put;
use crate::suppression::put_suppressed;
use pj_attrs::{Facts, tokens_are_in_order};
use pj_base::NoMemory;
use pj_parse::{Parsed, parse};
use pj_source::Source;
use pj_symbols::Symbols;
use pj_xvalue::Attributes;
use std::alloc::Global;

/// What is asked of a text.
#[derive(Clone, Copy)]
pub enum Question<'q> {
    /// The attributes of a node.
    Attributes(Asked<'q>),
    /// The modifiers of a node.
    Modifiers(Asked<'q>),
    /// The declarations, and the place of an offset.
    Declared(u32),
    /// Whether findings of the rule `R` at the first node of a text are suppressed.
    Suppressed(&'q str),
}

/// Puts what is asked of a file.
fn put_answer<A: Attributes>(
    out: &mut String,
    alloc: Global,
    parsed: &Parsed<'_>,
    symbols: &Symbols,
    facts: &A,
    question: Question<'_>,
) -> Result<(), NoMemory>
    requires nodes { A.nodes facts.now ≡ length parsed.now.tree.nodes }
{
    match question {
        Question::Attributes(asked) => put_attributes_at(out, &parsed.tree, facts, asked),
        Question::Modifiers(asked) => put_modifiers_at(out, parsed, asked),
        Question::Declared(_) => put_declared(out, symbols),
        Question::Suppressed(text) => put_suppressed(out, alloc, &parsed.tree, facts, text),
    }
}

/// Puts what is asked of a file, and of an offset its place.
fn put_of_file(
    out: &mut String,
    alloc: Global,
    source: &Source,
    parsed: &Parsed<'_>,
    question: Question<'_>,
) -> Result<(), NoMemory>
    requires parses { Parses source.now.text (Ok (file_parsed parsed.now)) }
    requires text { parsed.now.tree.text ≡ source.now.text }
    requires pool { IsPoolOf parsed.now.tree parsed.now.pool }
{
    tokens_are_in_order(source.text(), parsed);
    let symbols = Symbols::of(alloc, &parsed.tree)?;
    let facts = Facts::new(source, parsed, &symbols);
    put_answer(out, alloc, parsed, &symbols, &facts, question)?;
    if let Question::Declared(offset) = question {
        if parsed.tree.len() > 0 && offset as usize <= source.text().len() {
            return put_place(out, &facts, offset);
        }
    }
    Ok(())
}

/// Puts what is asked of a source.
fn put_of_source(
    out: &mut String,
    alloc: Global,
    source: &Source,
    question: Question<'_>,
) -> Result<(), NoMemory> {
    match parse(alloc, source) {
        Ok(parsed) => put_of_file(out, alloc, source, &parsed, question),
        Err(_) => put(out, "! no tree"),
    }
}

/// The source of a text, if it is one.
pub fn source_of(alloc: Global, text: &str) -> Option<Source> {
    if text.len() > 1_000_000 {
        return None;
    }
    match Source::read(alloc, text.as_bytes()) {
        Ok(source) => Some(source),
        Err(_) => None,
    }
}

/// Puts what is asked of a text.
pub fn put_of_text(
    out: &mut String,
    alloc: Global,
    text: &str,
    question: Question<'_>,
) -> Result<(), NoMemory> {
    match source_of(alloc, text) {
        Some(source) => put_of_source(out, alloc, &source, question),
        None => put(out, "! no text"),
    }
}
