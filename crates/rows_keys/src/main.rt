//! The rows of keys: rulesets, with the keys of their rules, or that of all of them.
#![tactic(auto)]

mod keys;
mod shown;

use keys::KeyTable;
use pj_rows::Run;
use std::process::ExitCode;

fn main(rt: HostRuntime) -> ExitCode {
    let mut run = Run::new(rt);
    run.table("keys.rows", &KeyTable);
    run.end()
}
