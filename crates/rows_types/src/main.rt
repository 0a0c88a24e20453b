//! The rows of types: what the type of a node is, which method or constructor is chosen for a call, and which classes are asked for that.
#![tactic(auto)]

mod calls;
mod file;

use file::Types;
use pj_row_java::Java;
use pj_rows::Run;
use std::process::ExitCode;

/// The file of each table of types.
static TABLES: [&str; 3] = ["operators.rows", "names.rows", "declarations.rows"];

fn main(rt: HostRuntime) -> ExitCode {
    let Ok(java) = Java::new(rt.alloc()) else {
        return ExitCode::from(1);
    };
    let mut run = Run::new(rt);
    for file in TABLES {
        let table = Types {
            java: &java,
            is_of_calls: false,
        };
        run.table(file, &table);
    }
    let calls = Types {
        java: &java,
        is_of_calls: true,
    };
    run.table("calls.rows", &calls);
    run.end()
}
