//! The rows of class files, signatures, supertypes, members and the choice among methods.
#![tactic(auto)]

mod class_files;
mod classes;
mod java_types;
mod members;
mod overloads;
mod row_fault;
mod shown;
mod signatures;
mod supertypes;

use class_files::ClassFiles;
use members::MembersOfClasses;
use overloads::Overloads;
use pj_rows::Run;
use signatures::Signatures;
use std::process::ExitCode;
use std::{fs, io};
use supertypes::Supertypes;

fn main(rt: HostRuntime) -> io::Result<ExitCode> {
    let classes = fs::read_to_string(&rt, "overload_classes.txt")?;
    let mut run = Run::new(rt);
    run.table("signatures.rows", &Signatures);
    run.table("class_files.rows", &ClassFiles);
    run.table("supertypes.rows", &Supertypes);
    run.table("members.rows", &MembersOfClasses);
    run.table("overloads.rows", &Overloads { classes });
    Ok(run.end())
}
