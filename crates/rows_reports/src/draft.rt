//! Reports as their rows are written, a line each.
use crate::fields::{number_of, split_field, split_word, text_of_field};
use pj_base::{Copied, NoMemory};
use pj_names::{ConfigError, ConfigErrors, RuleRow, RuleRowList};
use pj_reports::{FileError, FileErrors, FileRows, Finding, Findings, PathRows, Reason, Report};
use pj_tree::Place;
use std::alloc::Global;

/// A rule: its name, its message, its priority and its ruleset.
fn rule_of(alloc: Global, fields: &str) -> Result<RuleRow, NoMemory> {
    let (name, fields) = split_field(fields);
    let (message, fields) = split_field(fields);
    let (priority, rule_set) = split_field(fields);
    Ok(RuleRow {
        name: text_of_field(alloc, name)?,
        message: text_of_field(alloc, message)?,
        priority: priority.parse::<u8>().unwrap_or(0),
        rule_set: text_of_field(alloc, rule_set)?,
    })
}

/// A configuration error: the rule and the message.
fn config_error_of(alloc: Global, fields: &str) -> Result<ConfigError, NoMemory> {
    let (rule, message) = split_field(fields);
    Ok(ConfigError {
        rule: text_of_field(alloc, rule)?,
        message: text_of_field(alloc, message)?,
    })
}

/// The place that is written as `3:5`.
fn place_of(written: &str) -> Place {
    let (line, column) = written.split_once(':').unwrap_or((written, ""));
    Place {
        line: number_of(line),
        column: number_of(column),
    }
}

/// The reason of this word, if it is one.
fn reason_of(word: &str) -> Option<Reason> {
    match word {
        "annotation" => Some(Reason::Annotation),
        "comment" => Some(Reason::Comment),
        "regex" => Some(Reason::Regex),
        "xpath" => Some(Reason::XPath),
        _ => None,
    }
}

/// A finding: the number of its rule, where it begins and ends, and why it is suppressed.
fn finding_of(fields: &str) -> Finding {
    let (rule, fields) = split_field(fields);
    let (stretch, reason) = split_field(fields);
    let (begin, end) = stretch.split_once('-').unwrap_or((stretch, ""));
    Finding {
        rule: number_of(rule),
        node: 7,
        begin: place_of(begin),
        end: place_of(end),
        reason: reason_of(reason),
    }
}

/// An error of a file: the number of a rule, or `-`, and a message.
fn error_of(alloc: Global, fields: &str) -> Result<FileError, NoMemory> {
    let (rule, message) = split_field(fields);
    let message = text_of_field(alloc, message)?;
    Ok(FileError {
        rule: rule.parse::<u32>().ok(),
        message,
    })
}

/// The rules of a row.
fn rules_of(alloc: Global, given: &str) -> Result<RuleRowList, NoMemory> {
    let mut rules = RuleRowList::new(alloc);
    for line in given.split('\n') {
        if let ("rule", fields) = split_word(line) {
            rules.push(rule_of(alloc, fields)?)?;
        }
    }
    rules.copied()
}

/// The configuration errors of a row.
fn config_errors_of(alloc: Global, given: &str) -> Result<ConfigErrors, NoMemory> {
    let mut errors = ConfigErrors::new(alloc);
    for line in given.split('\n') {
        if let ("config", fields) = split_word(line) {
            errors.push(config_error_of(alloc, fields)?)?;
        }
    }
    errors.copied()
}

/// The findings that stand below the line of a file.
fn findings_of(alloc: Global, below: &str) -> Result<Findings, NoMemory> {
    let mut findings = Findings::new(alloc);
    for line in below.split('\n') {
        if let ("finding", fields) = split_word(line) {
            findings.push(finding_of(fields))?;
        }
    }
    Ok(findings)
}

/// The errors that stand below the line of a file.
fn file_errors_of(alloc: Global, below: &str) -> Result<FileErrors, NoMemory> {
    let mut errors = FileErrors::new(alloc);
    for line in below.split('\n') {
        if let ("error", fields) = split_word(line) {
            errors.push(error_of(alloc, fields)?)?;
        }
    }
    Ok(errors)
}

/// The rows of a file of this package, with the findings and errors that stand below its line.
fn file_rows_of(alloc: Global, package: &str, below: &str) -> Result<FileRows, NoMemory> {
    let rows = FileRows {
        package: text_of_field(alloc, package)?,
        findings: findings_of(alloc, below)?,
        errors: file_errors_of(alloc, below)?,
    };
    rows.copied()
}

/// Puts a file: its path and its package, and below these its findings and errors.
fn put_file(alloc: Global, files: &mut PathRows, written: &str) -> Result<(), NoMemory> {
    let (line, below) = written.split_once('\n').unwrap_or((written, ""));
    let (path, package) = split_field(line.strip_suffix("]").unwrap_or(line));
    let path = text_of_field(alloc, path)?;
    files.push((path, file_rows_of(alloc, package, below)?))
}

/// What stands behind the begin of the first line of a file.
fn first_file(given: &str) -> Option<&str> {
    match given.strip_prefix("file [") {
        Some(written) => Some(written),
        None => Some(given.split_once("\nfile [")?.1),
    }
}

/// The files of a row.
fn files_of(alloc: Global, given: &str) -> Result<PathRows, NoMemory> {
    let mut files = PathRows::new(alloc);
    if let Some(written) = first_file(given) {
        for file in written.split("\nfile [") {
            put_file(alloc, &mut files, file)?;
        }
    }
    Ok(files)
}

/// The report of a row, of copies of its rows.
pub fn report_of(alloc: Global, given: &str) -> Result<Report, NoMemory> {
    let rules = rules_of(alloc, given)?;
    let files = files_of(alloc, given)?;
    let errors = config_errors_of(alloc, given)?;
    Ok(Report {
        rules,
        files,
        errors,
    })
}
