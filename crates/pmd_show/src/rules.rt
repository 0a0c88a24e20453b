//! The rules of rulesets, with their expressions.

use crate::fault::Fault;
use crate::refusal::refusal_of;
use pj_base::{Names, Text};
use pj_names::ConfigError;
use pj_outside::Tree;
use pj_rule_sets::Rule;
use pj_rules::{RuleRefused, RuleSet, load};
use std::alloc::Global;
use std::io;
use std::io::Write;

/// The highest number of a priority: all rules are loaded.
const LOWEST_PRIORITY: u8 = 5;

/// Writes a text of several lines, each set in, but those that have only blanks.
fn write_lines<W: Write>(out: &mut W, text: &str) -> io::Result<()> {
    for line in text.split('\n') {
        if !line.trim().is_empty() {
            write!(out, "    {line}\n")?;
        }
    }
    Ok(())
}

/// Writes a rule: its name, priority, message, expression and other properties.
fn write_rule<W: Write>(out: &mut W, rule: &Rule) -> io::Result<()> {
    let row = &rule.row;
    write!(
        out,
        "{} (priority {}): {}\n",
        row.name, row.priority, row.message
    )?;
    write_lines(out, rule.xpath.as_str())?;
    for property in rule.properties.as_slice() {
        write!(out, "  {} = {}\n", property.name, property.value)?;
    }
    Ok(())
}

/// Writes why a rule, or a reference to rules, cannot be used.
fn write_unusable<W: Write>(out: &mut W, error: &ConfigError) -> io::Result<()> {
    write!(out, "{}: not used: {}\n", error.rule, error.message)
}

/// Writes the rules of a set, in order, and then what cannot be used.
fn write_set<W: Write>(out: &mut W, set: &RuleSet) -> io::Result<()> {
    for rule in set.rules().as_slice() {
        write_rule(out, rule)?;
    }
    for error in set.unusable().as_slice() {
        write_unusable(out, error)?;
    }
    Ok(())
}

/// Shows the rules of the rulesets of these paths, or why they do not load.
pub fn show_rules<T: Tree, W: Write>(
    alloc: Global,
    files: &mut T,
    out: &mut W,
    paths: &Names,
) -> Result<(), Fault> {
    let marker = Text::from_str(alloc, "NOPMD")?;
    match load(alloc, files, paths, LOWEST_PRIORITY, &marker) {
        Ok(set) => {
            write_set(out, &set)?;
            Ok(())
        }
        Err(RuleRefused::Rule(fault)) => Err(refusal_of(alloc, files, &fault)?),
        Err(RuleRefused::TooManyRules(_)) => Err(Fault::TooManyRules),
        Err(RuleRefused::Failed) => Err(Fault::NotRead),
        Err(RuleRefused::Memory) => Err(Fault::Memory),
    }
}
