//! The table of messages.

use pj_base::{NoMemory, Text};
use pj_rows::{Row, Section, Table};
use pj_xparse::XSyntax;
use std::alloc::{AllocError, Global};
use std::fmt::Write;

/// Answers a fault of a text with its message.
pub struct Messages;

/// The number that a text has, 0 where it has none.
fn number(text: &str) -> u32 {
    text.parse().unwrap_or(0)
}

/// The fault of a function's name and its offset.
fn unknown_function(alloc: Global, behind: &str) -> Result<XSyntax, NoMemory> {
    let (name, offset) = behind.split_once(' ').unwrap_or((behind, ""));
    let name = Text::from_str(alloc, name)?;
    Ok(XSyntax::UnknownFunction(name, number(offset)))
}

/// The fault of a variable's name.
fn unknown_variable(alloc: Global, name: &str) -> Result<XSyntax, NoMemory> {
    Ok(XSyntax::UnknownVariable(Text::from_str(alloc, name)?))
}

/// The fault that is written so, `None` where none is.
fn fault_of(alloc: Global, written: &str) -> Result<Option<XSyntax>, NoMemory> {
    let (word, behind) = written.split_once(' ').unwrap_or((written, ""));
    Ok(match word {
        "Token" => Some(XSyntax::Token(number(behind))),
        "Expected" => Some(XSyntax::Expected(number(behind))),
        "UnknownFunction" => Some(unknown_function(alloc, behind)?),
        "UnknownVariable" => Some(unknown_variable(alloc, behind)?),
        "Outside" => Some(XSyntax::Outside(number(behind))),
        "Deep" => Some(XSyntax::Deep(number(behind))),
        "Memory" => Some(XSyntax::Memory),
        _ => None,
    })
}

/// Puts the message of a fault.
fn put_message(out: &mut String, fault: Option<&XSyntax>) -> Result<(), AllocError> {
    match fault {
        Some(fault) => write!(out, "{fault}"),
        None => out.push_str("! no fault"),
    }
}

impl Table for Messages {
    fn answer(&self, alloc: Global, _section: &Section, row: &Row) -> Result<String, NoMemory> {
        let fault = fault_of(alloc, row.given.as_str())?;
        let mut out = String::new(alloc);
        put_message(&mut out, fault.as_ref())?;
        Ok(out)
    }
}
