//! What rules come to in a file, with the rows of the file.
use crate::fields::number_of;
use pj_base::{NoMemory, Text};
use pj_findings::{RuleRun, RuleRuns, file_rows};
use pj_names::ClassNames;
use pj_reports::{FileError, FileRows, Head, Ruled, Spot, Spots};
use pj_rows::{Row, Section, Table, put};
use pj_tree::Place;
use std::alloc::Global;
use std::fmt::Write;

/// The table of what rules come to.
pub struct Results;

/// The table of files without a tree.
pub struct Faults;

/// The finding at a node.
fn spot_at(node: u32) -> Spot {
    let line = node.saturating_add(1);
    Spot {
        node,
        begin: Place { line, column: 2 },
        end: Place { line, column: 3 },
        reason: None,
    }
}

/// Findings at the nodes of these numbers.
fn spots_of(alloc: Global, numbers: &str) -> Result<Spots, NoMemory> {
    let mut spots = Spots::new(alloc);
    for number in numbers.split_whitespace() {
        spots.push(spot_at(number_of(number)))?;
    }
    Ok(spots)
}

/// What a rule comes to: findings at nodes, or a message behind `!`.
fn ruled_of(alloc: Global, written: &str) -> Result<Ruled, NoMemory> {
    match written.strip_prefix("!") {
        Some(message) => Ok(Ruled::Message(Text::from_str(alloc, message)?)),
        None => Ok(Ruled::Spots(spots_of(alloc, written)?)),
    }
}

/// What rules come to, each in brackets.
fn runs_of(alloc: Global, given: &str) -> Result<RuleRuns, NoMemory> {
    let mut runs = RuleRuns::new(alloc);
    for written in given.split(']') {
        if let Some(inside) = written.trim_start_matches(' ').strip_prefix("[") {
            runs.push(RuleRun {
                rows: ruled_of(alloc, inside)?,
                names: ClassNames::new(alloc),
            })?;
        }
    }
    Ok(runs)
}

/// Puts an error: its rule, or `-`, and its message.
fn put_error(out: &mut String, error: &FileError) -> Result<(), NoMemory> {
    match error.rule {
        Some(rule) => write!(out, " {rule}=")?,
        None => put(out, &[" -="])?,
    }
    put(out, &[error.message.as_str()])
}

/// Puts the errors.
fn put_errors(out: &mut String, rows: &FileRows) -> Result<(), NoMemory> {
    for error in rows.errors.as_slice() {
        put_error(out, error)?;
    }
    Ok(())
}

/// Puts each finding as its node and its rule.
fn put_findings(out: &mut String, rows: &FileRows) -> Result<(), NoMemory> {
    for finding in rows.findings.as_slice() {
        let (node, rule) = (finding.node, finding.rule);
        write!(out, " {node}/{rule}")?;
    }
    Ok(())
}

/// The package in brackets, the findings, and the errors.
fn rows_shown(alloc: Global, rows: &FileRows) -> Result<String, NoMemory> {
    let package = rows.package.as_str();
    let mut out = format!(in alloc; "[{package}]")?;
    put_findings(&mut out, rows)?;
    put_errors(&mut out, rows)?;
    Ok(out)
}

impl Table for Results {
    fn answer(&self, alloc: Global, _section: &Section, row: &Row) -> Result<String, NoMemory> {
        let runs = runs_of(alloc, row.given.as_str())?;
        let rows = file_rows(alloc, Head::Package(Text::from_str(alloc, "p.q")?), &runs)?;
        rows_shown(alloc, &rows)
    }
}

impl Table for Faults {
    fn answer(&self, alloc: Global, _section: &Section, row: &Row) -> Result<String, NoMemory> {
        let message = Text::from_str(alloc, row.given.as_str())?;
        let rows = file_rows(alloc, Head::Message(message), &RuleRuns::new(alloc))?;
        rows_shown(alloc, &rows)
    }
}
