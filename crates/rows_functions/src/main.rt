//! The rows of PMD's functions in rules.
#![tactic(auto)]

mod functions;
mod shown;
mod signature_patterns;

use functions::Functions;
use pj_rows::Run;
use signature_patterns::SignaturePatterns;
use std::process::ExitCode;

fn main(rt: HostRuntime) -> ExitCode {
    let Ok(functions) = Functions::new(rt.alloc()) else {
        return ExitCode::from(1);
    };
    let mut run = Run::new(rt);
    run.table("signature_patterns.rows", &SignaturePatterns);
    run.table("node_functions.rows", &functions);
    run.table("type_functions.rows", &functions);
    run.end()
}
