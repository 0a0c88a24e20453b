//! The rows of declarations: what names mean as far as the file tells, and what declarations write.
#![tactic(auto)]

mod declared;
mod file;
mod question;
mod spelled;
mod written;

use file::Declared;
use pj_row_java::Java;
use pj_rows::Run;
use std::process::ExitCode;

fn main(rt: HostRuntime) -> ExitCode {
    let Ok(java) = Java::new(rt.alloc()) else {
        return ExitCode::from(1);
    };
    let table = Declared { java: &java };
    let mut run = Run::new(rt);
    run.table("declarations.rows", &table);
    run.table("written.rows", &table);
    run.end()
}
