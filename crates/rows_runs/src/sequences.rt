//! Runs one after the other over one keeper, with what is changed between them.
use crate::place::Place;
use pj_base::NoMemory;
use pj_rows::{Row, Section, Table, put};
use std::alloc::Global;

/// The table of runs one after the other.
pub struct Sequences;

/// What comes of the runs of a row: each begins with its command, and the changes before the next one stand below it.
fn put_runs(
    out: &mut String,
    alloc: Global,
    section: &Section,
    given: &str,
) -> Result<(), NoMemory> {
    let (first, rest) = match given.strip_prefix("$ ") {
        Some(rest) => ("", rest),
        None => given.split_once("\n$ ").unwrap_or((given, "")),
    };
    let mut place = Place::new(alloc, section, true)?;
    place.change_all(alloc, first)?;
    place.note_cache()?;
    for (number, step) in rest.split("\n$ ").enumerate() {
        if number > 0 {
            put(out, &["\n"])?;
        }
        let (command, changes) = step.split_once('\n').unwrap_or((step, ""));
        let ran = place.run(alloc, section, command)?;
        place.put_run(alloc, out, command, &ran)?;
        place.change_all(alloc, changes)?;
    }
    Ok(())
}

impl Table for Sequences {
    fn has_setting(&self, name: &str) -> bool {
        matches!(name, "file" | "fails")
    }

    fn answer(&self, alloc: Global, section: &Section, row: &Row) -> Result<String, NoMemory> {
        let mut out = String::new(alloc);
        put_runs(&mut out, alloc, section, row.given.as_str())?;
        Ok(out)
    }
}
