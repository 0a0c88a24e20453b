//! Values and faults as texts.
use pj_base::NoMemory;
use pj_names::AskFault;
use pj_rows::{put, put_between};
use pj_xvalue::{Item, Sequence, XCode, XFault};
use std::alloc::Global;
use std::fmt::Write;

/// The name of a code.
fn code_name(code: XCode) -> &'static str {
    match code {
        XCode::FORG0006 => "! FORG0006",
        XCode::XPTY0004 => "! XPTY0004",
        XCode::XPTY0018 => "! XPTY0018",
        XCode::XPTY0019 => "! XPTY0019",
        XCode::XPTY0020 => "! XPTY0020",
        XCode::FOAR0001 => "! FOAR0001",
        XCode::FOAR0002 => "! FOAR0002",
        XCode::FOTY0012 => "! FOTY0012",
        XCode::FORX0003 => "! FORX0003",
    }
}

/// Puts an item at the end: a string in quotes, an integer, a boolean, or the word `node`.
fn put_item(out: &mut String, item: &Item<'_>) -> Result<(), NoMemory> {
    match item {
        Item::Str(text) => put(out, &["'", text.as_str(), "'"]),
        Item::Borrowed(text) => put(out, &["'", *text, "'"]),
        Item::Int(value) => {
            write!(out, "{}", *value)?;
            Ok(())
        }
        Item::Bool(true) => put(out, &["true"]),
        Item::Bool(false) => put(out, &["false"]),
        _ => put(out, &["node"]),
    }
}

/// Puts a sequence at the end, and `()` for the empty one.
pub fn put_items(out: &mut String, items: &Sequence<'_>) -> Result<(), NoMemory> {
    if items.is_empty() {
        return put(out, &["()"]);
    }
    for item in items.as_slice() {
        put_between(out, " ")?;
        put_item(out, item)?;
    }
    Ok(())
}

/// A fault as a text.
pub fn fault_text(fault: XFault) -> &'static str {
    match fault {
        XFault::Code(code) => code_name(code),
        XFault::Ask(AskFault::Failed) => "! failed",
        XFault::Ask(AskFault::Memory) => "! memory",
    }
}

/// A text of its own.
pub fn text_of(alloc: Global, text: &str) -> Result<String, NoMemory> {
    Ok(String::from_str(alloc, text)?)
}
