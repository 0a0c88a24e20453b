//! The rows of a file.
ghost use Rattle.std.specs.Prelude.{◌≡◌, ◌++◌, map, IfOk, OnOk};
ghost use Rattle.pj_findings.specs.Merged.{by_node, error_by, errors_from, finding_of, findings_from, found_by, merge, merged, only_error};

use crate::run::{RuleRun, RuleRuns};
use pj_base::{Copied, NoMemory, Text};
use pj_reports::{FileError, FileErrors, FileRows, Finding, Findings, Head, Ruled, Spot};
use std::alloc::Global;

/// The row of a finding of the rule of a number.
fn finding_of(rule: u32, found: &Spot) -> Finding
    ensures { result ≡ finding_of rule found.now }
{
    Finding {
        rule,
        node: found.node,
        begin: found.begin,
        end: found.end,
        reason: found.reason,
    }
}

/// Puts the findings of a rule behind those of others.
fn put_found(findings: &mut Vec<Finding>, rule: u32, found: &[Spot]) -> Result<(), NoMemory>
    ensures { OnOk result (findings.new.items ≡ findings.old.items ++ map (finding_of rule) found.now) }
{
    for one in found {
        findings.push(finding_of(rule, one))?;
    }
    Ok(())
}

/// The same of what a rule comes to, where it finds nodes.
fn put_findings(findings: &mut Vec<Finding>, rule: u32, came_to: &Ruled) -> Result<(), NoMemory>
    ensures { OnOk result (findings.new.items ≡ findings.old.items ++ map (finding_of rule) (found_by came_to.now)) }
{
    match came_to {
        Ruled::Spots(found) => put_found(findings, rule, found.as_slice()),
        Ruled::Message(_) => Ok(()),
    }
}

/// Puts the error of a rule behind those of others, where it has one.
fn put_error(errors: &mut Vec<FileError>, rule: u32, came_to: &Ruled) -> Result<(), NoMemory>
    ensures { OnOk result (errors.new.items ≡ errors.old.items ++ error_by rule came_to.now) }
{
    match came_to {
        Ruled::Spots(_) => {}
        Ruled::Message(message) => errors.push(FileError {
            rule: Some(rule),
            message: message.copied()?,
        })?,
    }
    Ok(())
}

/// The number of a rule by its place; past 32 bits it wants memory.
fn rule_number(place: usize) -> Result<u32, NoMemory>
    ensures { IfOk result (λ number. number ≡ place) }
{
    match u32::try_from(place) {
        Ok(number) => Ok(number),
        Err(_) => Err(NoMemory),
    }
}

/// The findings of the rules, one rule after the other.
fn all_findings(alloc: Global, runs: &[RuleRun]) -> Result<Vec<Finding>, NoMemory>
    ensures { IfOk result (λ findings. findings.items ≡ findings_from 0 (map (λ run. run.rows) runs.now)) }
{
    let mut findings = Vec::new(alloc);
    for (i, run) in runs.iter().enumerate() {
        put_findings(&mut findings, rule_number(i)?, &run.rows)?;
    }
    Ok(findings)
}

/// The errors of the rules, in their order.
fn all_errors(alloc: Global, runs: &[RuleRun]) -> Result<Vec<FileError>, NoMemory>
    ensures { IfOk result (λ errors. errors.items ≡ errors_from 0 (map (λ run. run.rows) runs.now)) }
{
    let mut errors = Vec::new(alloc);
    for (i, run) in runs.iter().enumerate() {
        put_error(&mut errors, rule_number(i)?, &run.rows)?;
    }
    Ok(errors)
}

/// Findings in the order of their nodes. Those of one node stay in their order.
fn in_node_order(findings: Vec<Finding>) -> Result<Vec<Finding>, NoMemory>
    ensures { IfOk result (λ ordered. ordered.items ≡ by_node findings.items) }
{
    let mut ordered = findings;
    ordered.sort_by_key(|finding| finding.node)?;
    Ok(ordered)
}

/// The rows of a file with a tree, of the package of this name.
fn rows_of_rules(alloc: Global, name: Text, runs: &[RuleRun]) -> Result<FileRows, NoMemory>
    ensures { IfOk result (λ rows. rows ≡ merged name (map (λ run. run.rows) runs.now)) }
{
    let findings = in_node_order(all_findings(alloc, runs)?)?;
    let errors = all_errors(alloc, runs)?;
    Ok(FileRows {
        package: name,
        findings: Findings::from_vec(findings),
        errors: FileErrors::from_vec(errors),
    })
}

/// The rows of a file without a tree: the one error that says why.
fn error_rows(alloc: Global, message: Text) -> Result<FileRows, NoMemory>
    ensures { IfOk result (λ rows. rows ≡ only_error message) }
{
    let mut errors = FileErrors::new(alloc);
    errors.push(FileError {
        rule: None,
        message,
    })?;
    Ok(FileRows {
        package: Text::new(alloc),
        findings: Findings::new(alloc),
        errors,
    })
}

/// The rows of a file with this head in which the rules came to this, in the order of their numbers, which count from 0: the findings in
/// the order of the node, then of the rule, and the errors in the order of the rules. A file without a tree has one error, whatever the
/// rules came to.
pub fn file_rows(alloc: Global, head: Head, runs: &RuleRuns) -> Result<FileRows, NoMemory>
    ensures { IfOk result (λ rows. rows ≡ merge head (map (λ run. run.rows) runs.now)) }
{
    match head {
        Head::Package(name) => rows_of_rules(alloc, name, runs.as_slice()),
        Head::Message(message) => error_rows(alloc, message),
    }
}
