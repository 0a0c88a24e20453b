//! The rows of names: what names mean in a Java file, what the oracle of the file answers, and which classes are asked for that.
#![tactic(auto)]

mod file;
mod file_oracle;
mod imports;
mod inherited;
mod node_types;
mod question;
mod type_names;
mod variables;

use file::Names;
use pj_row_java::Java;
use pj_rows::Run;
use std::process::ExitCode;

/// The file of each table, and what is asked where a section of it does not say it.
static TABLES: [(&str, &str); 7] = [
    ("imports.rows", "class outside"),
    ("inherited.rows", "inherited member"),
    ("type_names.rows", "type of name"),
    ("file_oracle.rows", "answer"),
    ("variables.rows", "variable"),
    ("scopes.rows", "variable over the file"),
    ("node_types.rows", "type of node"),
];

fn main(rt: HostRuntime) -> ExitCode {
    let Ok(java) = Java::new(rt.alloc()) else {
        return ExitCode::from(1);
    };
    let mut run = Run::new(rt);
    for (file, find) in TABLES {
        run.table(file, &Names { java: &java, find });
    }
    run.end()
}
