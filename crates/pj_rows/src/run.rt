//! The running of tables over the files of the current folder.
use crate::report::report_on;
use crate::table::Table;
use std::process::ExitCode;
use std::rt::Files;
use std::{fs, io};

/// A run of tables: which files were looked at, and whether all held so far.
#[derive(Drop)]
pub struct Run<R: Files + Print + AllocGlobal + Clone + Drop> {
    rt: R,
    files: Vec<String>,
    holds: bool,
}

impl<R: Files + Print + AllocGlobal + Clone + Drop> Run<R> {
    /// A run that has looked at no file.
    pub fn new(rt: R) -> Run<R> {
        let alloc = rt.alloc();
        Run {
            rt,
            files: Vec::new(alloc),
            holds: true,
        }
    }

    /// Reads a file of the current folder, and prints what is told of it.
    pub fn table<T: Table>(&mut self, file: &str, table: &T) {
        let holds = run_table(&self.rt, file, table);
        self.take(file, holds);
    }

    /// Keeps the name of a file and what came of it.
    fn take(&mut self, file: &str, holds: io::Result<bool>) {
        let name = String::from_str(self.rt.alloc(), file);
        if let Ok(name) = name {
            let _ = self.files.push(name);
        }
        match holds {
            Ok(holds) => self.holds = self.holds && holds,
            Err(_) => {
                self.holds = false;
                let _ = println!(self.rt; "{file}: cannot be read");
            }
        }
    }

    /// Ends the run: prints each file of rows of the current folder that no table looked at. The status is 0 where all held,
    /// and 1 otherwise.
    pub fn end(self) -> ExitCode {
        let others = print_others(&self.rt, self.files.as_slice());
        let is_well = self.holds && matches!(others, Ok(0));
        ExitCode::from(if is_well { 0 } else { 1 })
    }
}

/// Reads a file of the current folder, prints what is told of it, and gives whether all of its rows hold.
fn run_table<R: Files + Print + AllocGlobal, T: Table>(
    rt: &R,
    file: &str,
    table: &T,
) -> io::Result<bool> {
    let alloc = rt.alloc();
    let text = fs::read_to_string(rt, file)?;
    match report_on(alloc, file, text.as_str(), table) {
        Ok(told) => {
            rt.print(told.text.as_str())?;
            Ok(told.holds)
        }
        Err(_) => {
            println!(rt; "{file}: out of memory")?;
            Ok(false)
        }
    }
}

/// Whether a name is among these.
fn is_among(names: &[String], sought: &str) -> bool {
    names.iter().any(|name| name.as_str() == sought)
}

/// Prints each file of rows of the current folder that is not among these. How many there are.
fn print_others<R: Files + Print + AllocGlobal + Clone + Drop>(
    rt: &R,
    names: &[String],
) -> io::Result<u32> {
    let mut count = 0u32;
    for entry in fs::read_dir(rt, ".")? {
        let entry = entry?;
        let name = format!(in rt.alloc(); "{}", entry.file_name())?;
        if name.as_str().ends_with(".rows") && !is_among(names, name.as_str()) {
            count = count.saturating_add(1);
            println!(rt; "{name}: no table looks at it")?;
        }
    }
    Ok(count)
}
