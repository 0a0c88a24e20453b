//! Which rows a file may have in format 1.
ghost use Rattle.std.specs.Prelude.{◌≡◌, [], IfOk, None, OnOk};
ghost use Rattle.std.specs.List.{list_any};
ghost use Rattle.std.specs.Option.{option_copied};
ghost use Rattle.pj_cache_format.specs.FormatTwo.{has};
ghost use Rattle.pj_carry.specs.Form.{are_errors_from, are_findings_from, are_of_rules, is_finding_behind, is_rule_behind, lone_message, message_of, some_in_both, with_error_rule, with_error_rules};

use pj_base::{NoMemory, Text};
use pj_reports::{FileError, FileRows, Finding};
use std::alloc::Global;
use std::collections::BTreeSet;

/// The message of an error without a rule that stands alone, if they are one.
fn message_of(errors: &[FileError]) -> Option<&Text>
    ensures { option_copied result ≡ message_of errors.now }
{
    if errors.len() != 1 {
        return None;
    }
    let place = 0;
    let error = &errors[place];
    match error.rule {
        Some(_) => None,
        None => Some(&error.message),
    }
}

/// The message of a file without a tree, if these are its rows: one error without a rule, and nothing else.
pub(crate) fn lone_message(rows: &FileRows) -> Option<&Text>
    ensures { option_copied result ≡ lone_message rows.now }
{
    if !rows.package.is_empty() || !rows.findings.is_empty() {
        return None;
    }
    message_of(rows.errors.as_slice())
}

/// The node and the rule of a finding.
type Found = (u32, u32);

/// Whether a finding stands behind another one, if there is one: by its node, and at one node by its rule.
fn is_finding_behind(before: Option<Found>, finding: &Finding) -> bool
    ensures { result ≡ is_finding_behind before finding.now }
{
    match before {
        Some((node, rule)) => {
            node < finding.node || (node == finding.node && rule < finding.rule)
        }
        None => true,
    }
}

/// Whether findings ascend strictly by node, and at one node by rule.
fn are_findings(findings: &[Finding]) -> bool
    ensures { result ≡ are_findings_from None findings.now }
{
    let mut before = None;
    for finding in findings {
        if !is_finding_behind(before, finding) {
            return false;
        }
        before = Some((finding.node, finding.rule));
    }
    true
}

/// Whether a rule stands behind another one, if there is one.
fn is_rule_behind(before: Option<u32>, rule: Option<u32>) -> bool
    ensures { result ≡ is_rule_behind before rule }
{
    match (before, rule) {
        (_, None) => false,
        (None, Some(_)) => true,
        (Some(before), Some(rule)) => before < rule,
    }
}

/// Whether errors are those of rules, and ascend strictly by them.
fn are_errors(errors: &[FileError]) -> bool
    ensures { result ≡ are_errors_from None errors.now }
{
    let mut before = None;
    for error in errors {
        if !is_rule_behind(before, error.rule) {
            return false;
        }
        before = error.rule;
    }
    true
}

/// Puts the rule of an error to others, if it has one.
fn note_rule(held: &mut BTreeSet<u32>, rule: Option<u32>) -> Result<(), NoMemory>
    ensures { OnOk result (held.new.keys ≡ with_error_rule held.old.keys rule) }
{
    if let Some(rule) = rule {
        held.insert(rule)?;
    }
    Ok(())
}

/// The rules of errors.
fn error_rules(alloc: Global, errors: &[FileError]) -> Result<BTreeSet<u32>, NoMemory>
    ensures { IfOk result (λ held. held.keys ≡ with_error_rules [] errors.now) }
{
    let mut held = BTreeSet::new(alloc);
    for error in errors {
        note_rule(&mut held, error.rule)?;
    }
    Ok(held)
}

/// Whether a rule is among some.
fn has_rule(held: &BTreeSet<u32>, rule: u32) -> bool
    ensures { result ≡ has held.now.keys rule }
{
    held.contains(&rule)
}

/// Whether a finding is one of some rules.
fn has_finding_of(held: &BTreeSet<u32>, findings: &[Finding]) -> bool
    ensures { result ≡ list_any (λ f. has held.now.keys f.rule) findings.now }
{
    for finding in findings {
        if has_rule(held, finding.rule) {
            return true;
        }
    }
    false
}

/// Whether a rule has both a finding and an error.
fn some_in_both(alloc: Global, rows: &FileRows) -> Result<bool, NoMemory>
    ensures { IfOk result (λ both. both ≡ some_in_both rows.now) }
{
    let held = error_rules(alloc, rows.errors.as_slice())?;
    Ok(has_finding_of(&held, rows.findings.as_slice()))
}

/// Whether these are the rows of rules: findings that ascend by node and then rule, errors that ascend by rule, and no rule in both.
pub(crate) fn are_of_rules(alloc: Global, rows: &FileRows) -> Result<bool, NoMemory>
    ensures { IfOk result (λ of_rules. of_rules ≡ are_of_rules rows.now) }
{
    if !are_findings(rows.findings.as_slice()) || !are_errors(rows.errors.as_slice()) {
        return Ok(false);
    }
    Ok(!some_in_both(alloc, rows)?)
}
