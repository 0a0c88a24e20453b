//! Which rows the texts show, and what of a rule.
ghost use Rattle.std.specs.Prelude.{◌≡◌, ◌++◌, ◌==◌, map, OnOk, IfOk};
ghost use Rattle.pj_reports.specs.Shown.{is_reported, problems, problems_of, row_of};
ghost use Rattle.pj_reports.specs.Borrowed.{problem_seen, rule_seen};

use crate::rows::{FileRows, Finding};
use pj_base::{NoMemory, Text};
use pj_names::RuleRowList;
use std::alloc::Global;
use std::convert::AsStr;

/// What the texts show of a rule.
#[derive(Drop)]
pub struct RuleShown<'a> {
    pub name: &'a str,
    pub message: &'a str,
    pub priority: u8,
    pub rule_set: &'a str,
}

/// A finding that is reported, with its file.
#[derive(Drop)]
pub struct Problem<'a> {
    pub path: &'a Text,
    pub package: &'a Text,
    pub finding: &'a Finding,
}

/// The row of a rule number, and for a number without one the empty row of priority 5.
pub fn rule_shown<'a>(rules: &'a RuleRowList, number: u32) -> RuleShown<'a>
    ensures { rule_seen result ≡ row_of rules.entry.now number }
{
    match rules.get(number as usize) {
        Some(row) => {
            RuleShown {
                name: row.name.as_str(),
                message: row.message.as_str(),
                priority: row.priority,
                rule_set: row.rule_set.as_str(),
            }
        }
        None => {
            RuleShown {
                name: "",
                message: "",
                priority: 5,
                rule_set: "",
            }
        }
    }
}

/// Puts the findings in a file that are reported at the end.
fn put_problems<'a>(
    problems: &mut Vec<Problem<'a>>,
    path: &'a Text,
    rows: &'a FileRows,
) -> Result<(), NoMemory>
    ensures { OnOk result (map problem_seen problems.new.items ≡ map problem_seen problems.old.items ++ problems_of path.entry.now rows.entry.now) }
{
    for finding in rows.findings.as_slice() {
        if finding.reason.is_none() {
            problems.push(Problem {
                path,
                package: &rows.package,
                finding,
            })?;
        }
    }
    Ok(())
}

/// The findings of the files that are reported, in their order.
pub fn problems<'a>(
    alloc: Global,
    files: &'a [(Text, FileRows)],
) -> Result<Vec<Problem<'a>>, NoMemory>
    ensures { IfOk result (λ found. map problem_seen found.items ≡ problems files.entry.now) }
{
    let mut found = Vec::new(alloc);
    for (path, rows) in files {
        put_problems(&mut found, path, rows)?;
    }
    Ok(found)
}
