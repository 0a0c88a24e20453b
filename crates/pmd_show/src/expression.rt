//! The expression in which a fault stands, as a ruleset file writes it.

use pj_base::{Names, NoMemory, Text, is_same_text};
use pj_rule_texts::{Part, Piece, WrittenProperty, WrittenRule, WrittenRuleset};
use pj_xparse::{XSyntax, parse};
use std::alloc::Global;

/// The offset into an expression at which a fault stands, where it stands at one.
pub fn offset_of(fault: &XSyntax) -> Option<u32> {
    match fault {
        XSyntax::Token(offset)
        | XSyntax::Expected(offset)
        | XSyntax::UnknownFunction(_, offset)
        | XSyntax::Outside(offset) => Some(*offset),
        XSyntax::UnknownVariable(_) | XSyntax::Deep(_) | XSyntax::Memory => None,
    }
}

/// Whether a text is there, and is this one.
fn is_named(name: &Option<Text>, wanted: &str) -> bool {
    match name {
        Some(name) => is_same_text(name.as_str(), wanted),
        None => false,
    }
}

/// Whether a reference is one to a rule of this name, as `FILE.xml/NAME`.
fn is_reference_to(reference: &Option<Text>, wanted: &str) -> bool {
    match reference {
        Some(reference) => match reference.as_str().rsplit_once('/') {
            Some((_, name)) => is_same_text(name, wanted),
            None => false,
        },
        None => false,
    }
}

/// The name of a property.
fn name_of(alloc: Global, property: &WrittenProperty) -> Result<Text, NoMemory> {
    match &property.name {
        Some(name) => Text::from_str(alloc, name.as_str()),
        None => Ok(Text::new(alloc)),
    }
}

/// The names of the properties that a rule writes.
fn property_names(alloc: Global, rule: &WrittenRule) -> Result<Names, NoMemory> {
    let mut names = Names::new(alloc);
    for piece in rule.pieces.as_slice() {
        if let Piece::Property(property) = piece {
            names.push(name_of(alloc, property)?)?;
        }
    }
    Ok(names)
}

/// The expression that a property writes, if it is one of the two that write one.
fn expression_of(property: &WrittenProperty) -> Option<&str> {
    let is_expression = is_named(&property.name, "xpath")
        || is_named(&property.name, "violationSuppressXPath");
    match &property.value {
        Some(value) if is_expression => Some(value.as_str()),
        _ => None,
    }
}

/// Whether the first fault of a text as an expression stands at this offset.
fn has_fault_at(
    alloc: Global,
    text: &str,
    variables: &Names,
    offset: u32,
) -> Result<bool, NoMemory> {
    match parse(alloc, text, variables) {
        Ok(_) => Ok(false),
        Err(XSyntax::Memory) => Err(NoMemory),
        Err(fault) => Ok(offset_of(&fault) == Some(offset)),
    }
}

/// The first expression of a rule that has its fault at this offset.
fn faulty_in<'r>(
    alloc: Global,
    rule: &'r WrittenRule,
    offset: u32,
) -> Result<Option<&'r str>, NoMemory> {
    let variables = property_names(alloc, rule)?;
    for piece in rule.pieces.as_slice() {
        if let Piece::Property(property) = piece {
            if let Some(text) = expression_of(property) {
                if has_fault_at(alloc, text, &variables, offset)? {
                    return Ok(Some(text));
                }
            }
        }
    }
    Ok(None)
}

/// The first expression with its fault at this offset that the file writes for a rule of this name, or over one that it refers to.
pub fn faulty_expression<'r>(
    alloc: Global,
    ruleset: &'r WrittenRuleset,
    name: &str,
    offset: u32,
) -> Result<Option<&'r str>, NoMemory> {
    for part in ruleset.parts.as_slice() {
        if let Part::Rule(rule) = part {
            if is_named(&rule.name, name) || is_reference_to(&rule.reference, name) {
                let found = faulty_in(alloc, rule, offset)?;
                if found.is_some() {
                    return Ok(found);
                }
            }
        }
    }
    Ok(None)
}
