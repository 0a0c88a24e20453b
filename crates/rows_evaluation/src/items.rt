//! What is found, as a text.

use crate::facts::attribute_name;
use pj_base::NoMemory;
use pj_xvalue::{Item, Sequence, XFault};
use std::fmt::Write;

/// Puts a text.
pub fn put(out: &mut String, text: &str) -> Result<(), NoMemory> {
    out.push_str(text)?;
    Ok(())
}

/// Puts an item: a node by its number, an attribute with its name, the document as `/`, a string in single quotes.
fn put_item(out: &mut String, item: &Item<'_>) -> Result<(), NoMemory> {
    match item {
        Item::Document => out.push_str("/")?,
        Item::Node(n) => write!(out, "n{}", n.0)?,
        Item::Attribute(n, place) => write!(out, "n{}@{}", n.0, attribute_name(*place))?,
        Item::Str(part) => write!(out, "'{}'", part.as_str())?,
        Item::Borrowed(part) => write!(out, "'{}'", part)?,
        Item::Int(value) => write!(out, "{}", value)?,
        Item::Bool(value) => write!(out, "{}", value)?,
    }
    Ok(())
}

/// Puts an item behind those that there are.
fn put_next(out: &mut String, item: &Item<'_>) -> Result<(), NoMemory> {
    if !out.is_empty() {
        put(out, ", ")?;
    }
    put_item(out, item)
}

/// Puts the items with `, ` between them, and `()` for none.
pub fn put_items(out: &mut String, items: &[Item<'_>]) -> Result<(), NoMemory> {
    if items.is_empty() {
        return put(out, "()");
    }
    for item in items {
        put_next(out, item)?;
    }
    Ok(())
}

/// Puts an error.
fn put_error(out: &mut String, fault: &XFault) -> Result<(), NoMemory> {
    match fault {
        XFault::Code(code) => write!(out, "! {code:?}")?,
        XFault::Ask(asked) => write!(out, "! {asked:?}")?,
    }
    Ok(())
}

/// Puts what is given: the items, or the code of the error.
pub fn put_given(out: &mut String, given: &Result<Sequence<'_>, XFault>) -> Result<(), NoMemory> {
    match given {
        Ok(items) => put_items(out, items.as_slice()),
        Err(fault) => put_error(out, fault),
    }
}
