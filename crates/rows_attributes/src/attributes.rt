//! The attributes of nodes. Given is a node of the text of the section, or a piece of code in the section's frame, of which the
//! first node of a kind is asked about. Found is each attribute: a boolean one by its name if it is true, and by nothing if it
//! is false; any other one with its value, or with `-` if it has none.

ghost use Rattle.std.specs.Prelude.{◌≡◌, ◌<◌, length};

use crate::files::{Question, put_of_text};
use crate::nodes::{Asked, asked_of, node_at, text_of};
use crate::put::{put, put_word};
use pj_base::NoMemory;
use pj_rows::{Row, Section, Table};
use pj_tree::{Node, SyntaxTree};
use pj_xvalue::{Attributes, Value};
use std::alloc::Global;
use std::fmt::Write;

/// The rows of attributes.
pub struct AttributesOfNodes;

/// Puts the name and the text of a string attribute.
fn put_string(out: &mut String, name: &str, text: &str) -> Result<(), NoMemory> {
    put_word(out, name)?;
    put(out, "=")?;
    put(out, text)
}

/// Puts the name and the number of an integer attribute.
fn put_number(out: &mut String, name: &str, number: i64) -> Result<(), NoMemory> {
    put_word(out, name)?;
    write!(out, "={number}")?;
    Ok(())
}

/// Puts an attribute.
fn put_attribute(out: &mut String, name: &str, value: Option<Value<'_>>) -> Result<(), NoMemory> {
    match value {
        None => put_string(out, name, "-"),
        Some(Value::Str(text)) => put_string(out, name, text),
        Some(Value::Int(number)) => put_number(out, name, number),
        Some(Value::Bool(true)) => put_word(out, name),
        Some(Value::Bool(false)) => Ok(()),
    }
}

/// Puts the attributes of a node, in order.
fn put_attributes<A: Attributes>(out: &mut String, facts: &A, n: Node) -> Result<(), NoMemory>
    requires { n.0 < A.nodes facts.now }
{
    for name in facts.names(n) {
        put_attribute(out, name, facts.attribute(n, name))?;
    }
    Ok(())
}

/// Puts the attributes of the node that is asked about.
pub fn put_attributes_at<A: Attributes>(
    out: &mut String,
    tree: &SyntaxTree<'_>,
    facts: &A,
    asked: Asked<'_>,
) -> Result<(), NoMemory>
    requires { A.nodes facts.now ≡ length tree.now.nodes }
{
    match node_at(tree, asked) {
        Some(n) => put_attributes(out, facts, n),
        None => put(out, "! no such node"),
    }
}

/// Puts the attributes that a row asks for.
fn put_asked(
    out: &mut String,
    alloc: Global,
    section: &Section,
    given: &str,
) -> Result<(), NoMemory> {
    let text = text_of(alloc, section, given)?;
    let question = Question::Attributes(asked_of(section, given));
    put_of_text(out, alloc, text.as_str(), question)
}

impl Table for AttributesOfNodes {
    fn has_setting(&self, name: &str) -> bool {
        name == "text" || name == "frame" || name == "node"
    }

    fn answer(&self, alloc: Global, section: &Section, row: &Row) -> Result<String, NoMemory> {
        let mut found = String::new(alloc);
        put_asked(&mut found, alloc, section, row.given.as_str())?;
        Ok(found)
    }
}
