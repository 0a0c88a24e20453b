//! Texts of markup with their elements, or with the first place at which they are none.
use crate::brackets::put_bracketed;
use pj_base::NoMemory;
use pj_markup::{Element, Markup, MarkupFault, read};
use pj_row_folders::repeated;
use pj_rows::{Row, Section, Table};
use std::alloc::Global;

/// The table of `markup.rows`.
pub struct MarkupTable;

/// The attributes that are told of an element.
const ATTRIBUTES: [&str; 4] = ["a", "b", "n:a", "\u{e9}"];

/// Puts the numbers of children in parentheses, where there are some.
fn put_children(out: &mut String, children: &[Element]) -> Result<(), NoMemory> {
    let mut sign = " (";
    for child in children {
        out.push_str(sign)?;
        out.push_str(child.number.to_string(*out.allocator())?.as_str())?;
        sign = " ";
    }
    if !children.is_empty() {
        out.push(')')?;
    }
    Ok(())
}

/// Puts an attribute, where the element has it.
fn put_attribute(
    out: &mut String,
    markup: &Markup,
    element: Element,
    name: &str,
) -> Result<(), NoMemory> {
    if let Some(value) = markup.attribute(element, name)? {
        out.push(' ')?;
        out.push_str(name)?;
        out.push('=')?;
        put_bracketed(out, value.as_str())?;
    }
    Ok(())
}

/// Puts the text of an element, where it has some.
fn put_text(out: &mut String, markup: &Markup, element: Element) -> Result<(), NoMemory> {
    let text = markup.text(element)?;
    if !text.is_empty() {
        out.push(' ')?;
        put_bracketed(out, text.as_str())?;
    }
    Ok(())
}

/// Puts an element: its name, its offset, its children, its attributes and its text.
fn put_element(
    out: &mut String,
    alloc: Global,
    markup: &Markup,
    element: Element,
) -> Result<(), NoMemory> {
    out.push_str(markup.name(element))?;
    out.push('@')?;
    out.push_str(markup.offset(element).to_string(alloc)?.as_str())?;
    put_children(out, markup.children(element))?;
    for name in &ATTRIBUTES {
        put_attribute(out, markup, element, name)?;
    }
    put_text(out, markup, element)
}

/// All elements, in the order in which they end.
fn elements(alloc: Global, markup: &Markup) -> Result<String, NoMemory> {
    let mut out = String::new(alloc);
    for number in 0..=markup.root().number {
        if number > 0 {
            out.push_str(" | ")?;
        }
        put_element(&mut out, alloc, markup, Element { number })?;
    }
    Ok(out)
}

/// The place of a fault.
fn refusal(alloc: Global, fault: MarkupFault) -> Result<String, NoMemory> {
    match fault {
        MarkupFault::At(at) => Ok(format!(in alloc; "! At {at}")?),
        MarkupFault::Deep(depth, at) => Ok(format!(in alloc; "! Deep {depth} {at}")?),
        MarkupFault::Memory => Err(NoMemory),
    }
}

/// How many children the root has.
fn children(alloc: Global, markup: &Markup) -> Result<String, NoMemory> {
    let count = markup.children(markup.root()).len();
    Ok(format!(in alloc; "{count}")?)
}

/// What is asked of markup: its elements, how many children its root has, or that it has no fault.
fn of_markup(alloc: Global, markup: &Markup, asks: &str) -> Result<String, NoMemory> {
    match asks {
        "fault" => Ok(String::from_str(alloc, "none")?),
        "children" => children(alloc, markup),
        _ => elements(alloc, markup),
    }
}

/// What is asked of a text, or the place of its fault.
fn answer(alloc: Global, text: &str, asks: &str) -> Result<String, NoMemory> {
    if text.len() > 1_000_000 {
        return Ok(String::from_str(alloc, "! the text is too long")?);
    }
    match read(alloc, text) {
        Ok(markup) => of_markup(alloc, &markup, asks),
        Err(fault) => refusal(alloc, fault),
    }
}

impl Table for MarkupTable {
    fn has_setting(&self, name: &str) -> bool {
        name == "asks"
    }

    fn answer(&self, alloc: Global, section: &Section, row: &Row) -> Result<String, NoMemory> {
        let text = repeated(alloc, row.given.as_str())?;
        answer(
            alloc,
            text.as_str(),
            section.setting("asks").unwrap_or("elements"),
        )
    }
}
