//! The text that a row gives.

use pj_base::NoMemory;
use pj_rows::{Row, Section};
use std::alloc::Global;

/// Puts a part so many times.
fn put_times(text: &mut String, part: &str, times: u32) -> Result<(), NoMemory> {
    for _ in 0..times {
        text.push_str(part)?;
    }
    Ok(())
}

/// The text of parts with `~` between them, of which each second one is put so many times.
fn repeated(alloc: Global, written: &str, times: u32) -> Result<String, NoMemory> {
    let mut text = String::new(alloc);
    let mut is_repeated = false;
    for part in written.split('~') {
        put_times(&mut text, part, if is_repeated { times } else { 1 })?;
        is_repeated = !is_repeated;
    }
    Ok(text)
}

/// Whether a section may have a setting of this name for its texts.
pub fn is_setting(name: &str) -> bool {
    name == "times"
}

/// The text that a row gives: what stands after each other `~` is there as often as the setting `times` of its section says.
pub fn text_of(alloc: Global, section: &Section, row: &Row) -> Result<String, NoMemory> {
    let written = row.given.as_str();
    match section.setting("times") {
        Some(times) => repeated(alloc, written, times.parse().unwrap_or(0)),
        None => Ok(String::from_str(alloc, written)?),
    }
}
