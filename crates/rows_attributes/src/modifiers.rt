//! Modifiers. Given is a node of the text of the section, and found are the written modifiers and, behind a bar, those that
//! hold.
use crate::files::{Question, put_of_text};
use crate::nodes::{Asked, asked_of, node_at, text_of};
use crate::put::{put, put_word};
use pj_attrs::{effective_modifiers, explicit_modifiers};
use pj_base::NoMemory;
use pj_parse::Parsed;
use pj_rows::{Row, Section, Table};
use pj_xvalue::{Modifier, Modifiers};
use std::alloc::Global;
use std::fmt::Write;

/// The rows of modifiers.
pub struct ModifiersOfNodes;

/// The modifiers, in the order of their names.
static MODIFIERS: [Modifier; 14] = [
    Modifier::Abstract,
    Modifier::Default,
    Modifier::Final,
    Modifier::Native,
    Modifier::NonSealed,
    Modifier::Private,
    Modifier::Protected,
    Modifier::Public,
    Modifier::Sealed,
    Modifier::Static,
    Modifier::Strictfp,
    Modifier::Synchronized,
    Modifier::Transient,
    Modifier::Volatile,
];

/// Puts a modifier.
fn put_modifier(out: &mut String, modifier: Modifier) -> Result<(), NoMemory> {
    put_word(out, "")?;
    write!(out, "{modifier:?}")?;
    Ok(())
}

/// Puts the modifiers of a set, in their order.
fn put_set(out: &mut String, set: Modifiers) -> Result<(), NoMemory> {
    for modifier in &MODIFIERS {
        if set.contains(*modifier) {
            put_modifier(out, *modifier)?;
        }
    }
    Ok(())
}

/// Puts two sets of modifiers, with a bar between them.
pub fn put_sets(
    out: &mut String,
    written: Modifiers,
    effective: Modifiers,
) -> Result<(), NoMemory> {
    put_set(out, written)?;
    put_word(out, "|")?;
    put_set(out, effective)
}

/// Puts the modifiers of the node that is asked about.
pub fn put_modifiers_at(
    out: &mut String,
    parsed: &Parsed<'_>,
    asked: Asked<'_>,
) -> Result<(), NoMemory> {
    match node_at(&parsed.tree, asked) {
        Some(n) => {
            let written = explicit_modifiers(parsed, n);
            put_sets(out, written, effective_modifiers(parsed, n))
        }
        None => put(out, "! no such node"),
    }
}

/// Puts the modifiers that a row asks for.
fn put_asked(
    out: &mut String,
    alloc: Global,
    section: &Section,
    given: &str,
) -> Result<(), NoMemory> {
    let text = text_of(alloc, section, given)?;
    let question = Question::Modifiers(asked_of(section, given));
    put_of_text(out, alloc, text.as_str(), question)
}

impl Table for ModifiersOfNodes {
    fn has_setting(&self, name: &str) -> bool {
        name == "text"
    }

    fn answer(&self, alloc: Global, section: &Section, row: &Row) -> Result<String, NoMemory> {
        let mut found = String::new(alloc);
        put_asked(&mut found, alloc, section, row.given.as_str())?;
        Ok(found)
    }
}
