//! The rows of reports and findings: the three texts of a report, the rows of what rules come to in a file, and the nodes of items.
#![tactic(auto)]

mod draft;
mod fields;
mod nodes;
mod reports;
mod results;

use nodes::{Messages, Nodes};
use pj_rows::Run;
use reports::Reports;
use results::{Faults, Results};
use std::process::ExitCode;

/// The files of reports.
static REPORTS: [&str; 4] = [
    "reports.rows",
    "report_files.rows",
    "report_errors.rows",
    "report_characters.rows",
];

fn main(rt: HostRuntime) -> ExitCode {
    let mut run = Run::new(rt);
    for file in REPORTS {
        run.table(file, &Reports);
    }
    run.table("results.rows", &Results);
    run.table("faults.rows", &Faults);
    run.table("nodes.rows", &Nodes);
    run.table("messages.rows", &Messages);
    run.end()
}
