//! Why rulesets do not load, in lines that say where the fault stands.

use crate::expression::{faulty_expression, offset_of};
use crate::fault::Fault;
use crate::line::{Line, line_at, write_marked};
use pj_base::Text;
use pj_outside::{Reading, Tree};
use pj_rule_texts::read_ruleset;
use pj_rules::{RuleFault, RuleWhat};
use std::alloc::Global;
use std::io;
use std::io::Write;

/// The most bytes that a ruleset may have.
const MOST_BYTES: u64 = 1_048_576;

/// What is at fault, in words.
fn write_what<W: Write>(out: &mut W, what: &RuleWhat) -> io::Result<()> {
    match what {
        RuleWhat::Markup(_) => out.write_all(b"invalid markup, or the root is not `ruleset`"),
        RuleWhat::NoName(_) => out.write_all(b"a rule without a name"),
        RuleWhat::NoXPath(rule) => write!(out, "rule {rule} has no property `xpath`"),
        RuleWhat::XPath(rule, fault) => write!(out, "rule {rule}: invalid expression: {fault}"),
        RuleWhat::BadPriority(rule) => write!(out, "rule {rule}: a priority is 1 to 5"),
        RuleWhat::BadProperty(rule) => write!(out, "rule {rule}: invalid property"),
        RuleWhat::MissingRef(reference) => {
            write!(out, "reference {reference}: no such file or rule")
        }
        RuleWhat::RefCycle(reference) => {
            write!(out, "reference {reference}: the file refers to itself")
        }
        RuleWhat::SameName(rule) => write!(out, "two rules of the name {rule}"),
        RuleWhat::PatternRefused(of) => write!(out, "{of}: invalid regular expression"),
        RuleWhat::TooLong => out.write_all(b"more than 1,048,576 bytes"),
    }
}

/// Writes the line of a rule's expression in which a fault stands, with a mark under its place, where the file writes it.
fn write_expression<T: Tree, W: Write>(
    alloc: Global,
    files: &mut T,
    out: &mut W,
    path: &str,
    rule: &str,
    offset: u32,
) -> Result<(), Fault> {
    let ruleset = match read_ruleset(alloc, files, path) {
        Ok(Some(ruleset)) => ruleset,
        Ok(None) | Err(_) => return Ok(()),
    };
    if let Some(text) = faulty_expression(alloc, &ruleset, rule, offset)? {
        out.write_all(b"\n")?;
        write_marked(out, line_at(text, offset as usize))?;
    }
    Ok(())
}

/// Writes the line of a text at an offset with its number and a mark, where the text is UTF-8.
fn write_text_line<W: Write>(out: &mut W, bytes: &[u8], offset: u32) -> io::Result<()> {
    match str::from_utf8(bytes) {
        Ok(text) => {
            let line: Line<'_> = line_at(text, offset as usize);
            write!(
                out,
                ", at {}:{}\n",
                line.number,
                line.before.saturating_add(1)
            )?;
            write_marked(out, line)
        }
        Err(_) => write!(out, ", at byte {offset}"),
    }
}

/// Writes the line of a file at an offset, with a mark under its place.
fn write_file_line<T: Tree, W: Write>(
    files: &mut T,
    out: &mut W,
    path: &str,
    offset: u32,
) -> io::Result<()> {
    match files.read(path, MOST_BYTES) {
        Ok(Reading::Whole(bytes)) => write_text_line(out, bytes.as_slice(), offset),
        Ok(_) | Err(_) => Ok(()),
    }
}

/// Writes where a fault stands, as far as it has a place.
fn write_place<T: Tree, W: Write>(
    alloc: Global,
    files: &mut T,
    out: &mut W,
    path: &str,
    what: &RuleWhat,
) -> Result<(), Fault> {
    match what {
        RuleWhat::Markup(offset) | RuleWhat::NoName(offset) => {
            write_file_line(files, out, path, *offset)?;
            Ok(())
        }
        RuleWhat::XPath(rule, fault) => match offset_of(fault) {
            Some(offset) => write_expression(alloc, files, out, path, rule.as_str(), offset),
            None => Ok(()),
        },
        _ => Ok(()),
    }
}

/// The fault of rulesets in lines: the file, what is at fault, and the line in which it stands, with a mark under its place.
pub fn refusal_of<T: Tree>(
    alloc: Global,
    files: &mut T,
    fault: &RuleFault,
) -> Result<Fault, Fault> {
    let mut lines: Vec<u8> = Vec::new(alloc);
    let path = fault.path.as_str();
    write!(lines, "{path}: ")?;
    write_what(&mut lines, &fault.what)?;
    write_place(alloc, files, &mut lines, path, &fault.what)?;
    match String::from_utf8(lines) {
        Ok(lines) => Ok(Fault::Rules(lines)),
        Err(_) => Err(Fault::NotRead),
    }
}
