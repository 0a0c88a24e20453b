//! Refusals of loads in words.
use crate::put::put_number;
use pj_base::NoMemory;
use pj_rows::put;
use pj_rules::{RuleFault, RuleRefused, RuleWhat};
use std::alloc::Global;
use std::fmt::Write;

/// The name of a cause.
fn word_of(what: &RuleWhat) -> &'static str {
    match what {
        RuleWhat::Markup(_) => "Markup",
        RuleWhat::NoName(_) => "NoName",
        RuleWhat::NoXPath(_) => "NoXPath",
        RuleWhat::XPath(_, _) => "XPath",
        RuleWhat::BadPriority(_) => "BadPriority",
        RuleWhat::BadProperty(_) => "BadProperty",
        RuleWhat::MissingRef(_) => "MissingRef",
        RuleWhat::RefCycle(_) => "RefCycle",
        RuleWhat::SameName(_) => "SameName",
        RuleWhat::PatternRefused(_) => "PatternRefused",
        RuleWhat::TooLong => "TooLong",
    }
}

/// Puts what a cause tells.
fn put_what(out: &mut String, what: &RuleWhat) -> Result<(), NoMemory> {
    match what {
        RuleWhat::Markup(offset) | RuleWhat::NoName(offset) => {
            write!(out, " {offset}")?;
        }
        RuleWhat::XPath(name, fault) => {
            write!(out, " {name}: {fault}")?;
        }
        RuleWhat::NoXPath(text)
        | RuleWhat::BadPriority(text)
        | RuleWhat::BadProperty(text)
        | RuleWhat::MissingRef(text)
        | RuleWhat::RefCycle(text)
        | RuleWhat::SameName(text)
        | RuleWhat::PatternRefused(text) => put(out, &[" ", text.as_str()])?,
        RuleWhat::TooLong => (),
    }
    Ok(())
}

/// Puts the place and the cause of a fault.
fn put_fault(out: &mut String, fault: &RuleFault) -> Result<(), NoMemory> {
    put(out, &[fault.path.as_str(), " "])?;
    put(out, &[word_of(&fault.what)])?;
    put_what(out, &fault.what)
}

/// Puts a refusal.
fn put_refusal(out: &mut String, refused: &RuleRefused) -> Result<(), NoMemory> {
    match refused {
        RuleRefused::Rule(fault) => put_fault(out, fault),
        RuleRefused::TooManyRules(count) => {
            put(out, &["TooManyRules "])?;
            put_number(out, *count)
        }
        RuleRefused::Failed => put(out, &["Failed"]),
        RuleRefused::Memory => put(out, &["Memory"]),
    }
}

/// The place and the cause of a refusal.
pub fn refusal(alloc: Global, refused: &RuleRefused) -> Result<String, NoMemory> {
    let mut out = String::from_str(alloc, "! ")?;
    put_refusal(&mut out, refused)?;
    Ok(out)
}
