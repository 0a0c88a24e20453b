//! The report as text.
ghost use Rattle.std.specs.Prelude.{◌≡◌, ◌++◌, flat_map, IfOk, OnOk};
ghost use Rattle.pj_reports.specs.ReportText.{fault_line, problem_line, text_report};
ghost use Rattle.pj_reports.specs.Shown.{errors, errors_of};
ghost use Rattle.pj_reports.specs.Borrowed.{problem_seen};

use crate::report::Report;
use crate::rows::FileRows;
use crate::shown::{Problem, problems, rule_shown};
use pj_base::{Bytes, NoMemory, Text};
use pj_names::{ConfigError, RuleRowList};
use std::alloc::Global;

/// Puts texts at the end, one after the other.
fn put_texts(text: &mut Text, pieces: &[&str]) -> Result<(), NoMemory>
    ensures { OnOk result (text.new ≡ text.old ++ flat_map (λ piece. piece.now) pieces.now) }
{
    for piece in pieces {
        text.push_str(piece)?;
    }
    Ok(())
}

/// Puts the line of a problem at the end.
fn put_problem(
    alloc: Global,
    text: &mut Text,
    rules: &RuleRowList,
    problem: &Problem<'_>,
) -> Result<(), NoMemory>
    ensures { OnOk result (text.new ≡ text.old ++ problem_line rules.now (problem_seen problem.now)) }
{
    let rule = rule_shown(rules, problem.finding.rule);
    let line = problem.finding.begin.line.to_string(alloc)?;
    let pieces: [&str; 8] = [
        problem.path.as_str(),
        ":",
        line.as_str(),
        ":\t",
        rule.name,
        ":\t",
        rule.message,
        "\n",
    ];
    put_texts(text, pieces.as_slice())
}

/// Puts the line of an error at the end.
fn put_fault(text: &mut Text, subject: &Text, message: &Text) -> Result<(), NoMemory>
    ensures { OnOk result (text.new ≡ text.old ++ fault_line subject.now message.now) }
{
    let pieces: [&str; 4] = [subject.as_str(), "\t-\t", message.as_str(), "\n"];
    put_texts(text, pieces.as_slice())
}

/// Puts the lines of problems at the end.
fn put_problems(
    alloc: Global,
    text: &mut Text,
    rules: &RuleRowList,
    problems: &[Problem<'_>],
) -> Result<(), NoMemory>
    ensures { OnOk result (text.new ≡ text.old ++ flat_map (λ p. problem_line rules.now (problem_seen p)) problems.now) }
{
    for problem in problems {
        put_problem(alloc, text, rules, problem)?;
    }
    Ok(())
}

/// Puts the lines of the errors in a file at the end.
fn put_file_errors(text: &mut Text, path: &Text, rows: &FileRows) -> Result<(), NoMemory>
    ensures { OnOk result (text.new ≡ text.old ++ flat_map (λ error. fault_line error.path error.message) (errors_of path.now rows.now)) }
{
    for error in rows.errors.as_slice() {
        put_fault(text, path, &error.message)?;
    }
    Ok(())
}

/// Puts the lines of the errors in files at the end.
fn put_errors(text: &mut Text, files: &[(Text, FileRows)]) -> Result<(), NoMemory>
    ensures { OnOk result (text.new ≡ text.old ++ flat_map (λ error. fault_line error.path error.message) (errors files.now)) }
{
    for (path, rows) in files {
        put_file_errors(text, path, rows)?;
    }
    Ok(())
}

/// Puts the lines of the errors in rules at the end.
fn put_config_errors(text: &mut Text, errors: &[ConfigError]) -> Result<(), NoMemory>
    ensures { OnOk result (text.new ≡ text.old ++ flat_map (λ error. fault_line error.rule error.message) errors.now) }
{
    for error in errors {
        put_fault(text, &error.rule, &error.message)?;
    }
    Ok(())
}

/// The report as text: a line for each finding that nothing suppresses, then one for each error of a file, then one
/// for each configuration error. Nothing is escaped.
pub fn text_of(alloc: Global, report: &Report) -> Result<Bytes, NoMemory>
    ensures { IfOk result (λ bytes. bytes ≡ text_report report.now) }
{
    let files = report.files.as_slice();
    let errors = report.errors.as_slice();
    let shown = problems(alloc, files)?;
    let mut text = Text::new(alloc);
    put_problems(alloc, &mut text, &report.rules, shown.as_slice())?;
    put_errors(&mut text, files)?;
    put_config_errors(&mut text, errors)?;
    Ok(Bytes::from_vec(text.into_string().into_bytes()))
}
