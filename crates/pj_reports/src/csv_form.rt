//! The report as CSV.
ghost use Rattle.std.specs.Prelude.{◌≡◌, ◌++◌, ◌∷◌, ◌<◌, [], ℕ, List, IfOk, OnOk, OnErr, length, map, string_bytes};
ghost use Rattle.pj_reports.specs.ReportText.{csv_header, csv_report, csv_row, problem_fields};
ghost use Rattle.pj_reports.specs.CsvWriter.{HasRows};
ghost use Rattle.pj_reports.specs.Borrowed.{problem_seen};

use crate::report::Report;
use crate::shown::{Problem, problems, rule_shown};
use csv::{QuoteStyle, Writer, WriterBuilder};
use pj_base::{Bytes, NoMemory};
use pj_names::RuleRowList;
use std::alloc::Global;
use std::convert::AsStr;

/// A writer that has written nothing, and quotes every field.
fn new_writer(alloc: Global) -> Writer<Vec<u8>>
    ensures { HasRows result [] }
{
    WriterBuilder::new()
        .quote_style(QuoteStyle::Always)
        .from_writer(Vec::new(alloc))
}

/// Writes a row.
fn put_row(writer: &mut Writer<Vec<u8>>, fields: &[&[u8]]) -> Result<(), NoMemory>
    requires { 0 < length fields.now }
    ensures { (text : List ℕ) → HasRows writer.old text
        → OnOk result (HasRows writer.new (text ++ csv_row (map (λ f. f.now) fields.now))) }
{
    match writer.write_fields(fields) {
        Ok(()) => Ok(()),
        Err(_) => Err(NoMemory),
    }
}

/// Writes the row of titles.
fn put_header(writer: &mut Writer<Vec<u8>>) -> Result<(), NoMemory>
    ensures { (text : List ℕ) → HasRows writer.old text → OnOk result (HasRows writer.new (text ++ csv_row csv_header)) }
{
    let header: [&[u8]; 8] = [
        b"Problem",
        b"Package",
        b"File",
        b"Priority",
        b"Line",
        b"Description",
        b"Rule set",
        b"Rule",
    ];
    put_row(writer, header.as_slice())
}

/// Writes the row of a problem of a number.
fn put_problem(
    alloc: Global,
    writer: &mut Writer<Vec<u8>>,
    rules: &RuleRowList,
    number: u64,
    problem: &Problem<'_>,
) -> Result<(), NoMemory>
    ensures { (text : List ℕ) → HasRows writer.old text
        → OnOk result (HasRows writer.new (text ++ csv_row (problem_fields rules.now number (problem_seen problem.now)))) }
{
    let rule = rule_shown(rules, problem.finding.rule);
    let number = number.to_string(alloc)?;
    let priority = rule.priority.to_string(alloc)?;
    let line = problem.finding.begin.line.to_string(alloc)?;
    let row: [&[u8]; 8] = [
        number.as_bytes(),
        problem.package.as_str().as_bytes(),
        problem.path.as_str().as_bytes(),
        priority.as_bytes(),
        line.as_bytes(),
        rule.message.as_bytes(),
        rule.rule_set.as_bytes(),
        rule.name.as_bytes(),
    ];
    put_row(writer, row.as_slice())
}

/// What was written.
fn written(writer: Writer<Vec<u8>>) -> Result<Bytes, NoMemory>
    ensures { (text : List ℕ) → HasRows writer text → IfOk result (λ bytes. bytes ≡ text) }
{
    match writer.into_inner() {
        Ok(bytes) => Ok(Bytes::from_vec(bytes)),
        Err(_) => Err(NoMemory),
    }
}

/// The report as CSV: a header, and a row for each finding that nothing suppresses, numbered from 1. Errors do not
/// stand in it.
pub fn csv_of(alloc: Global, report: &Report) -> Result<Bytes, NoMemory>
    ensures { IfOk result (λ bytes. bytes ≡ csv_report report.now) }
{
    let shown = problems(alloc, report.files.as_slice())?;
    let mut writer = new_writer(alloc);
    put_header(&mut writer)?;
    for (i, problem) in shown.iter().enumerate() {
        put_problem(alloc, &mut writer, &report.rules, i as u64 + 1, problem)?;
    }
    written(writer)
}
