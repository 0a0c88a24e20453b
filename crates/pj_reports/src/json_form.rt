//! The report as JSON.
ghost use Rattle.std.specs.Prelude.{◌≡◌, ◌++◌, Some, map, filter, IfOk, OnOk, string_bytes};
ghost use Rattle.std.specs.List.{list_any};
ghost use Rattle.serde_json.specs.View.{view};
ghost use Rattle.pj_reports.specs.ReportText.{json_report, reason_word};
ghost use Rattle.pj_reports.specs.Shown.{errors, errors_of};
ghost use Rattle.pj_reports.specs.Borrowed.{rule_seen};
ghost use Rattle.pj_reports.specs.JsonData.{config_error_data, file_data, files_data, path_error_data, report_data, report_of, shows, violation_data, violation_of};

use crate::report::Report;
use crate::rows::{FileRows, Finding, Reason};
use crate::shown::{RuleShown, rule_shown};
use pj_base::{Bytes, NoMemory, Text};
use pj_names::{ConfigError, RuleRowList};
use serde_json::{Value, json};
use std::alloc::{AllocError, Global};
use std::convert::AsStr;

/// The word for a reason.
fn reason_word(reason: Reason) -> &'static str
    ensures { result.now ≡ reason_word reason }
{
    match reason {
        Reason::Annotation => "annotation",
        Reason::Comment => "comment",
        Reason::Regex => "regex",
        Reason::XPath => "xpath",
    }
}

/// A finding that is reported.
fn reported_value(
    alloc: Global,
    rule: &RuleShown<'_>,
    finding: &Finding,
) -> Result<Value, AllocError>
    ensures { finding.now.reason ≡ None → IfOk result (λ v. view v ≡ violation_of (rule_seen rule.now) finding.now) }
{
    let begin_column = u64::from(finding.begin.column);
    let begin_line = u64::from(finding.begin.line);
    let end_column = u64::from(finding.end.column);
    let end_line = u64::from(finding.end.line);
    let priority = u64::from(rule.priority);
    let (message, name, rule_set) = (rule.message, rule.name, rule.rule_set);
    json!(in alloc; {"begincolumn": begin_column, "beginline": begin_line, "description": message, "endcolumn": end_column, "endline": end_line, "priority": priority, "rule": name, "ruleset": rule_set})
}

/// A finding that is suppressed for a reason.
fn suppressed_value(
    alloc: Global,
    rule: &RuleShown<'_>,
    finding: &Finding,
    reason: Reason,
) -> Result<Value, AllocError>
    ensures { finding.now.reason ≡ Some reason → IfOk result (λ v. view v ≡ violation_of (rule_seen rule.now) finding.now) }
{
    let begin_column = u64::from(finding.begin.column);
    let begin_line = u64::from(finding.begin.line);
    let end_column = u64::from(finding.end.column);
    let end_line = u64::from(finding.end.line);
    let priority = u64::from(rule.priority);
    let (message, name, rule_set) = (rule.message, rule.name, rule.rule_set);
    let word = reason_word(reason);
    json!(in alloc; {"begincolumn": begin_column, "beginline": begin_line, "description": message, "endcolumn": end_column, "endline": end_line, "priority": priority, "rule": name, "ruleset": rule_set, "suppressiontype": word})
}

/// A finding with its rule.
fn violation_value(
    alloc: Global,
    rules: &RuleRowList,
    finding: &Finding,
) -> Result<Value, AllocError>
    ensures { IfOk result (λ v. view v ≡ violation_data rules.now finding.now) }
{
    let rule = rule_shown(rules, finding.rule);
    match finding.reason {
        Some(reason) => suppressed_value(alloc, &rule, finding, reason),
        None => reported_value(alloc, &rule, finding),
    }
}

/// Whether the list of the suppressed, or the other, shows a finding.
fn is_shown(suppressed: bool, finding: &Finding) -> bool
    ensures { result ≡ shows suppressed finding.now }
{
    if suppressed {
        finding.reason.is_some()
    } else {
        finding.reason.is_none()
    }
}

/// The findings of a file that are suppressed, or those that are not.
fn violation_values(
    alloc: Global,
    rules: &RuleRowList,
    suppressed: bool,
    findings: &[Finding],
) -> Result<Vec<Value>, AllocError>
    ensures { IfOk result (λ v. map view v.items ≡ map (violation_data rules.now) (filter (shows suppressed) findings.now)) }
{
    let mut values = Vec::new(alloc);
    for finding in findings {
        if is_shown(suppressed, finding) {
            values.push(violation_value(alloc, rules, finding)?)?;
        }
    }
    Ok(values)
}

/// A file with its findings that are reported, or suppressed.
fn file_value(
    alloc: Global,
    rules: &RuleRowList,
    suppressed: bool,
    path: &Text,
    rows: &FileRows,
) -> Result<Value, AllocError>
    ensures { IfOk result (λ v. view v ≡ file_data rules.now (shows suppressed) (path.now, rows.now)) }
{
    let violations = Value::Array(violation_values(
        alloc,
        rules,
        suppressed,
        rows.findings.as_slice(),
    )?);
    let path = path.as_str();
    json!(in alloc; {"filename": path, "violations": violations})
}

/// Whether a file has a finding that is reported, or suppressed.
fn has_some(suppressed: bool, findings: &[Finding]) -> bool
    ensures { result ≡ list_any (shows suppressed) findings.now }
{
    findings.iter().any(|finding| is_shown(suppressed, finding))
}

/// The files that have some such finding.
fn file_values(
    alloc: Global,
    rules: &RuleRowList,
    suppressed: bool,
    files: &[(Text, FileRows)],
) -> Result<Vec<Value>, AllocError>
    ensures { IfOk result (λ v. map view v.items ≡ files_data rules.now (shows suppressed) files.now) }
{
    let mut values = Vec::new(alloc);
    for (path, rows) in files {
        if has_some(suppressed, rows.findings.as_slice()) {
            values.push(file_value(alloc, rules, suppressed, path, rows)?)?;
        }
    }
    Ok(values)
}

/// An error in a file.
fn path_error_value(alloc: Global, path: &Text, message: &Text) -> Result<Value, AllocError>
    ensures { IfOk result (λ v. view v ≡ path_error_data (record { path = path.now; message = message.now })) }
{
    let (path, message) = (path.as_str(), message.as_str());
    json!(in alloc; {"filename": path, "message": message})
}

/// Puts the errors in a file at the end.
fn put_file_errors(
    values: &mut Vec<Value>,
    alloc: Global,
    path: &Text,
    rows: &FileRows,
) -> Result<(), NoMemory>
    ensures { OnOk result (map view values.new.items ≡ map view values.old.items ++ map path_error_data (errors_of path.now rows.now)) }
{
    for error in rows.errors.as_slice() {
        values.push(path_error_value(alloc, path, &error.message)?)?;
    }
    Ok(())
}

/// The errors in files.
fn path_error_values(alloc: Global, files: &[(Text, FileRows)]) -> Result<Vec<Value>, NoMemory>
    ensures { IfOk result (λ v. map view v.items ≡ map path_error_data (errors files.now)) }
{
    let mut values = Vec::new(alloc);
    for (path, rows) in files {
        put_file_errors(&mut values, alloc, path, rows)?;
    }
    Ok(values)
}

/// An error in a rule.
fn config_error_value(alloc: Global, error: &ConfigError) -> Result<Value, AllocError>
    ensures { IfOk result (λ v. view v ≡ config_error_data error.now) }
{
    let (message, rule) = (error.message.as_str(), error.rule.as_str());
    json!(in alloc; {"message": message, "rule": rule})
}

/// The errors in rules.
fn config_error_values(alloc: Global, errors: &[ConfigError]) -> Result<Vec<Value>, AllocError>
    ensures { IfOk result (λ v. map view v.items ≡ map config_error_data errors.now) }
{
    let mut values = Vec::new(alloc);
    for error in errors {
        values.push(config_error_value(alloc, error)?)?;
    }
    Ok(values)
}

/// The report, of its four lists.
fn report_object(
    alloc: Global,
    config_errors: Vec<Value>,
    reported: Vec<Value>,
    errors: Vec<Value>,
    suppressed: Vec<Value>,
) -> Result<Value, AllocError>
    ensures { IfOk result (λ v. view v ≡ report_of (map view config_errors.items) (map view reported.items) (map view errors.items) (map view suppressed.items)) }
{
    let config_errors = Value::Array(config_errors);
    let reported = Value::Array(reported);
    let errors = Value::Array(errors);
    let suppressed = Value::Array(suppressed);
    json!(in alloc; {"configurationErrors": config_errors, "files": reported, "formatVersion": 0u64, "processingErrors": errors, "suppressedViolations": suppressed})
}

/// The report.
fn report_value(alloc: Global, report: &Report) -> Result<Value, NoMemory>
    ensures { IfOk result (λ v. view v ≡ report_data report.now) }
{
    let files = report.files.as_slice();
    let config_errors = config_error_values(alloc, report.errors.as_slice())?;
    let reported = file_values(alloc, &report.rules, false, files)?;
    let errors = path_error_values(alloc, files)?;
    let suppressed = file_values(alloc, &report.rules, true, files)?;
    Ok(report_object(alloc, config_errors, reported, errors, suppressed)?)
}

/// The report as one JSON object without spaces, its keys in sorted order, and a line feed.
pub fn json_of(alloc: Global, report: &Report) -> Result<Bytes, NoMemory>
    ensures { IfOk result (λ bytes. bytes ≡ json_report report.now) }
{
    let value = report_value(alloc, report)?;
    let mut text = value.to_string(alloc)?;
    text.push_str("\n")?;
    Ok(Bytes::from_vec(text.into_bytes()))
}
