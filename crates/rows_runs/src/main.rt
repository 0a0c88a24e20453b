//! The rows of whole runs, each a folder, a command line and what comes; of runs one after the other with a cache; and of the settings, the sources and the notes of a run.
#![tactic(auto)]

mod calls;
mod classes;
mod damages;
mod kept;
mod notes;
mod outcome;
mod place;
mod put;
mod ran;
mod runs;
mod sequences;
mod settings;
mod sources;

use damages::Damages;
use notes::Notes;
use pj_rows::Run;
use runs::Runs;
use sequences::Sequences;
use settings::SettingsTable;
use sources::Sources;
use std::process::ExitCode;

/// The files of whole runs.
static RUNS: [&str; 12] = [
    "queries.rows",
    "rulesets.rows",
    "paths.rows",
    "formats.rows",
    "findings.rows",
    "refusals.rows",
    "calls.rows",
    "classes.rows",
    "functions.rows",
    "function_calls.rows",
    "signatures.rows",
    "work.rows",
];

fn main(rt: HostRuntime) -> ExitCode {
    let mut run = Run::new(rt);
    for file in RUNS {
        run.table(file, &Runs);
    }
    run.table("caches.rows", &Sequences);
    run.table("damages.rows", &Damages);
    run.table("settings.rows", &SettingsTable);
    run.table("notes.rows", &Notes);
    run.table("sources.rows", &Sources);
    run.end()
}
