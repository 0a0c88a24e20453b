//! The declarations of files. Given are an offset and, behind `in`, a text. Found are the package, the classes and the
//! variables, and behind a comma the place of the offset and the modifiers of the root.

ghost use Rattle.std.specs.Prelude.{◌<◌, ◌≤◌};

use crate::files::{Question, put_of_text};
use crate::modifiers::put_sets;
use crate::put::{put, put_word};
use pj_base::NoMemory;
use pj_rows::{Row, Section, Table};
use pj_symbols::{Class, Symbols, Variable};
use pj_tree::Node;
use pj_xvalue::Attributes;
use std::alloc::Global;
use std::fmt::Write;

/// The rows of declarations.
pub struct Declarations;

/// Puts the number and the name of a class.
fn put_class(out: &mut String, class: &Class) -> Result<(), NoMemory> {
    put_word(out, "")?;
    write!(out, "{} {}", class.node.0, class.name.as_str())?;
    Ok(())
}

/// Puts the number, the kind and the name of a variable.
fn put_variable(out: &mut String, variable: &Variable) -> Result<(), NoMemory> {
    put_word(out, "")?;
    write!(out, "{} {:?}", variable.node.0, variable.kind)?;
    put_word(out, variable.name.as_str())
}

/// Puts what a file declares: its package, its classes and its variables.
pub fn put_declared(out: &mut String, symbols: &Symbols) -> Result<(), NoMemory> {
    put(out, symbols.package_name())?;
    for class in symbols.classes().as_slice() {
        put_class(out, class)?;
    }
    for variable in symbols.variables().as_slice() {
        put_variable(out, variable)?;
    }
    Ok(())
}

/// Puts the line and column of an offset into the text of a file, and the modifiers of its root.
pub fn put_place<A: Attributes>(out: &mut String, facts: &A, offset: u32) -> Result<(), NoMemory>
    requires some { 0 < A.nodes facts.now }
    requires inside { offset ≤ A.text_length facts.now }
{
    let place = facts.place(offset);
    let written = facts.modifiers(Node(0), false);
    let effective = facts.modifiers(Node(0), true);
    write!(out, ", {}:{}", place.line, place.column)?;
    put_sets(out, written, effective)
}

/// Puts the declarations that a row asks for.
fn put_asked(out: &mut String, alloc: Global, given: &str) -> Result<(), NoMemory> {
    let (offset, text) = given.split_once(" in ").unwrap_or(("", given));
    match offset.parse::<u32>() {
        Ok(offset) => put_of_text(out, alloc, text, Question::Declared(offset)),
        Err(_) => put(out, "! no offset"),
    }
}

impl Table for Declarations {
    fn answer(&self, alloc: Global, _section: &Section, row: &Row) -> Result<String, NoMemory> {
        let mut found = String::new(alloc);
        put_asked(&mut found, alloc, row.given.as_str())?;
        Ok(found)
    }
}
