//! The three texts of reports.
use crate::draft::report_of;
use pj_base::{Bytes, NoMemory};
use pj_reports::{Report, csv_of, json_of, text_of};
use pj_rows::{Row, Section, Table, put, put_between};
use std::alloc::Global;

/// The tables of reports.
pub struct Reports;

/// The first line of a report in CSV.
const HEADER: &str =
    "\"Problem\",\"Package\",\"File\",\"Priority\",\"Line\",\"Description\",\"Rule set\",\"Rule\"\n";

/// The text of bytes.
fn text_in(bytes: &Bytes) -> &str {
    str::from_utf8(bytes.as_slice()).unwrap_or("no text")
}

/// Puts a part of the answer below its name, without the end of its last line; nothing where it is empty.
fn put_part(out: &mut String, name: &str, part: &str) -> Result<(), NoMemory> {
    if part.is_empty() {
        return Ok(());
    }
    put_between(out, "\n")?;
    put(out, &[name, ":\n", part.strip_suffix("\n").unwrap_or(part)])
}

/// Puts the lines of a report, each of which ends.
fn put_lines(out: &mut String, name: &str, lines: &str) -> Result<(), NoMemory> {
    put_part(out, name, lines)?;
    if lines.is_empty() || lines.ends_with('\n') {
        return Ok(());
    }
    put(out, &[" (with no end of the line)"])
}

/// Puts the rows of a report in CSV, behind the header.
fn put_csv(out: &mut String, csv: &str) -> Result<(), NoMemory> {
    match csv.strip_prefix(HEADER) {
        Some(rows) => put_lines(out, "csv", rows),
        None => put_lines(out, "csv without its header", csv),
    }
}

/// What stands in the lists of a report in JSON.
#[derive(Clone, Copy)]
struct Lists<'j> {
    config_errors: &'j str,
    files: &'j str,
    errors: &'j str,
    suppressed: &'j str,
}

/// The lists of a report in JSON, if it has their form.
fn lists_of(json: &str) -> Option<Lists<'_>> {
    let rest = json.strip_prefix("{\"configurationErrors\":[")?;
    let (config_errors, rest) = rest.split_once("],\"files\":[")?;
    let (files, rest) = rest.split_once("],\"formatVersion\":0,\"processingErrors\":[")?;
    let (errors, rest) = rest.split_once("],\"suppressedViolations\":[")?;
    let suppressed = rest.strip_suffix("]}\n")?;
    Some(Lists {
        config_errors,
        files,
        errors,
        suppressed,
    })
}

/// Puts the lists of a report in JSON.
fn put_json(out: &mut String, json: &str) -> Result<(), NoMemory> {
    let Some(lists) = lists_of(json) else {
        return put_part(out, "json of another form", json);
    };
    put_part(out, "configurationErrors", lists.config_errors)?;
    put_part(out, "files", lists.files)?;
    put_part(out, "processingErrors", lists.errors)?;
    put_part(out, "suppressedViolations", lists.suppressed)
}

/// Puts a report in the three forms.
fn put_report(out: &mut String, alloc: Global, report: &Report) -> Result<(), NoMemory> {
    put_lines(out, "text", text_in(&text_of(alloc, report)?))?;
    put_csv(out, text_in(&csv_of(alloc, report)?))?;
    put_json(out, text_in(&json_of(alloc, report)?))
}

impl Table for Reports {
    fn answer(&self, alloc: Global, _section: &Section, row: &Row) -> Result<String, NoMemory> {
        let report = report_of(alloc, row.given.as_str())?;
        let mut out = String::new(alloc);
        put_report(&mut out, alloc, &report)?;
        Ok(out)
    }
}
