//! The rows of loading: folders of rulesets, with the rules that a load gives, or why it gives none.
#![tactic(auto)]

mod active;
mod kept;
mod large;
mod loaded;
mod loading;
mod put;
mod refusal;
mod shown;

use large::Large;
use loading::Loading;
use pj_rows::Run;
use std::process::ExitCode;

/// The files of loads of folders.
static LOADS: [&str; 6] = [
    "rules.rows",
    "references.rows",
    "properties.rows",
    "refusals.rows",
    "active.rows",
    "calls.rows",
];

fn main(rt: HostRuntime) -> ExitCode {
    let mut run = Run::new(rt);
    for file in LOADS {
        run.table(file, &Loading);
    }
    run.table("large.rows", &Large);
    run.end()
}
