//! What is put behind an answer.
use pj_base::{Names, NoMemory};
use pj_outside::MemSink;
use pj_rows::put;

/// Puts each name behind a blank.
pub fn put_names(out: &mut String, names: &Names) -> Result<(), NoMemory> {
    for name in names.as_slice() {
        put(out, &[" ", name.as_str()])?;
    }
    Ok(())
}

/// The text that a sink got.
pub fn text_in(sink: &MemSink) -> &str {
    str::from_utf8(sink.bytes().as_slice()).unwrap_or("no text")
}

/// Puts lines without the end of the last one; where it has none, that is told.
pub fn put_lines(out: &mut String, lines: &str) -> Result<(), NoMemory> {
    match lines.strip_suffix("\n") {
        Some(ended) => put(out, &[ended]),
        None => put(out, &[lines, " (with no end of the line)"]),
    }
}
