//! What the rows of a file say of each rule.
ghost use Rattle.std.specs.Prelude.{◌≡◌, [], IfOk, OnOk, replicate, set};
ghost use Rattle.pj_reports.specs.declared.ruled.Ruled.TheVariants.{Spots};
ghost use Rattle.pj_carry.specs.Rows.{rows_by_rule, spot_of};
ghost use Rattle.pj_carrying.specs.ByRule.{is_message, row_at, with_error, with_errors, with_finding, with_findings, with_message, with_spot};

use pj_base::{Copied, NoMemory, Text};
use pj_reports::{FileError, FileRows, Finding, Ruled, Spot, Spots};
use std::alloc::Global;

/// The node of a finding.
fn spot_of(finding: &Finding) -> Spot
    ensures { result ≡ spot_of finding.now }
{
    Spot {
        node: finding.node,
        begin: finding.begin,
        end: finding.end,
        reason: finding.reason,
    }
}

/// Puts a node behind those of a rule, unless it has a message.
fn put_spot(rows: &mut Ruled, spot: Spot) -> Result<(), NoMemory>
    ensures { OnOk result (rows.new ≡ with_spot rows.old spot) }
{
    match rows {
        Ruled::Spots(spots) => spots.push(spot)?,
        Ruled::Message(_) => {}
    }
    Ok(())
}

/// Whether a rule has a message.
fn is_message(rows: &Ruled) -> bool
    ensures { result ≡ is_message rows.now }
{
    match rows {
        Ruled::Spots(_) => false,
        Ruled::Message(_) => true,
    }
}

/// Puts a message in the place of a rule's nodes, unless it has one.
fn put_message(rows: &mut Ruled, message: &Text) -> Result<(), NoMemory>
    ensures { OnOk result (rows.new ≡ with_message rows.old message.now) }
{
    if !is_message(rows) {
        *rows = Ruled::Message(message.copied()?);
    }
    Ok(())
}

/// No nodes, for each of so many rules.
fn without_rows(alloc: Global, count: usize) -> Result<Vec<Ruled>, NoMemory>
    ensures { IfOk result (λ all. all.items ≡ replicate count (Spots [])) }
{
    let mut all = Vec::new(alloc);
    for _ in 0..count {
        all.push(Ruled::Spots(Spots::new(alloc)))?;
    }
    Ok(all)
}

/// Puts a node to the rule of a number, if there is one.
fn put_spot_at(all: &mut Vec<Ruled>, rule: usize, spot: Spot) -> Result<(), NoMemory>
    ensures { OnOk result (all.new.items ≡ set all.old.items rule (with_spot (row_at all.old.items rule) spot)) }
{
    if rule >= all.len() {
        return Ok(());
    }
    let row = &mut all[rule];
    put_spot(row, spot)?;
    Ok(())
}

/// Puts a finding to its rule, if it is one of these.
fn put_finding(all: &mut Vec<Ruled>, finding: &Finding) -> Result<(), NoMemory>
    ensures { OnOk result (all.new.items ≡ with_finding all.old.items finding.now) }
{
    put_spot_at(all, finding.rule as usize, spot_of(finding))
}

/// Puts findings to their rules.
fn put_findings(all: &mut Vec<Ruled>, findings: &[Finding]) -> Result<(), NoMemory>
    ensures { OnOk result (all.new.items ≡ with_findings all.old.items findings.now) }
{
    for finding in findings {
        put_finding(all, finding)?;
    }
    Ok(())
}

/// Puts a message to the rule of a number, if there is one.
fn put_message_at(all: &mut Vec<Ruled>, rule: usize, message: &Text) -> Result<(), NoMemory>
    ensures { OnOk result (all.new.items ≡ set all.old.items rule (with_message (row_at all.old.items rule) message.now)) }
{
    if rule >= all.len() {
        return Ok(());
    }
    let row = &mut all[rule];
    put_message(row, message)?;
    Ok(())
}

/// Puts an error to its rule, if it has one and it is one of these.
fn put_error(all: &mut Vec<Ruled>, error: &FileError) -> Result<(), NoMemory>
    ensures { OnOk result (all.new.items ≡ with_error all.old.items error.now) }
{
    match error.rule {
        None => Ok(()),
        Some(rule) => put_message_at(all, rule as usize, &error.message),
    }
}

/// Puts errors to their rules.
fn put_errors(all: &mut Vec<Ruled>, errors: &[FileError]) -> Result<(), NoMemory>
    ensures { OnOk result (all.new.items ≡ with_errors all.old.items errors.now) }
{
    for error in errors {
        put_error(all, error)?;
    }
    Ok(())
}

/// What the rows of a file say of each of so many rules, in one walk along them.
pub(crate) fn rows_by_rule(
    alloc: Global,
    count: usize,
    rows: &FileRows,
) -> Result<Vec<Ruled>, NoMemory>
    ensures { IfOk result (λ all. all.items ≡ rows_by_rule count rows.now) }
{
    let findings = rows.findings.as_slice();
    let errors = rows.errors.as_slice();
    let mut all = without_rows(alloc, count)?;
    put_findings(&mut all, findings)?;
    put_errors(&mut all, errors)?;
    Ok(all)
}
