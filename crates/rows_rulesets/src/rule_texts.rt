//! Messages, priorities, references, and values of properties.
use crate::brackets::{bracketed, inside, pair, unread};
use crate::elements::{change, definition, is_usable};
use pj_base::NoMemory;
use pj_rows::{Row, Section, Table};
use pj_rule_texts::{
    Reference, beside, is_from_elsewhere, normalized, priority_of, reference_of, typed_value,
};
use std::alloc::Global;

/// The table of `rule_texts.rows`.
pub struct RuleTextsTable;

/// A message with its white space made plain.
fn message(alloc: Global, text: &str) -> Result<String, NoMemory> {
    let made = normalized(alloc, text)?;
    bracketed(alloc, made.as_str())
}

/// The number of a priority.
fn priority(alloc: Global, text: &str) -> Result<String, NoMemory> {
    match priority_of(alloc, text)? {
        Some(number) => Ok(number.to_string(alloc)?),
        None => Ok(String::from_str(alloc, "! no priority")?),
    }
}

/// What a reference means.
fn reference(alloc: Global, text: &str) -> Result<String, NoMemory> {
    match reference_of(text) {
        Some(Reference::WholeFile(file)) => Ok(format!(in alloc; "all of [{file}]")?),
        Some(Reference::OneRule(file, rule)) => Ok(format!(in alloc; "[{rule}] of [{file}]")?),
        None => Ok(String::from_str(alloc, "! no reference")?),
    }
}

/// The word for what holds or does not.
pub fn yes_or_no(alloc: Global, holds: bool) -> Result<String, NoMemory> {
    Ok(String::from_str(alloc, if holds { "yes" } else { "no" })?)
}

/// The path of a file in the folder of another one.
fn path_beside(alloc: Global, path: &str, file: &str) -> Result<String, NoMemory> {
    let made = beside(alloc, path, file)?;
    bracketed(alloc, made.as_str())
}

/// The items of a value of a type, each in brackets.
fn value(alloc: Global, kind: &str, text: &str) -> Result<String, NoMemory> {
    let mut out = String::new(alloc);
    match typed_value(alloc, kind, text)? {
        None => out.push_str("! no value")?,
        Some(items) if items.as_slice().is_empty() => out.push_str("no items")?,
        Some(items) => {
            for item in items.as_slice() {
                out.push('[')?;
                item.push_text(&mut out)?;
                out.push(']')?;
            }
        }
    }
    Ok(out)
}

/// What is found for a text.
fn of_text(alloc: Global, asks: &str, text: &str) -> Result<String, NoMemory> {
    match asks {
        "message" => message(alloc, text),
        "priority" => priority(alloc, text),
        "reference" => reference(alloc, text),
        _ => yes_or_no(alloc, is_from_elsewhere(text)),
    }
}

/// What is found for two texts.
fn of_pair(alloc: Global, asks: &str, first: &str, second: &str) -> Result<String, NoMemory> {
    if asks == "beside" {
        path_beside(alloc, first, second)
    } else {
        value(alloc, first, second)
    }
}

/// What is found for an element.
fn of_element(
    alloc: Global,
    asks: &str,
    section: &Section,
    element: &str,
) -> Result<String, NoMemory> {
    match asks {
        "usable" => is_usable(alloc, element),
        "definition" => definition(alloc, element),
        _ => change(alloc, section.setting("rule").unwrap_or(""), element),
    }
}

impl Table for RuleTextsTable {
    fn has_setting(&self, name: &str) -> bool {
        name == "asks" || name == "rule"
    }

    fn answer(&self, alloc: Global, section: &Section, row: &Row) -> Result<String, NoMemory> {
        let given = row.given.as_str();
        match section.setting("asks").unwrap_or("") {
            asks @ ("message" | "priority" | "reference" | "elsewhere") => match inside(given) {
                Some(text) => of_text(alloc, asks, text),
                None => unread(alloc),
            },
            asks @ ("beside" | "value") => match pair(given) {
                Some((first, second)) => of_pair(alloc, asks, first, second),
                None => unread(alloc),
            },
            asks @ ("usable" | "definition" | "change") => of_element(alloc, asks, section, given),
            _ => unread(alloc),
        }
    }
}
