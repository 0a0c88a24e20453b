//! Sources of texts, and what is put behind an answer.
use pj_base::NoMemory;
use pj_source::Source;
use std::alloc::Global;

/// The source of a text, if it is one.
pub fn source_of(alloc: Global, text: &str) -> Option<Source> {
    if text.len() > 1_000_000 {
        return None;
    }
    match Source::read(alloc, text.as_bytes()) {
        Ok(source) => Some(source),
        Err(_) => None,
    }
}

/// Puts a text behind what there is.
pub fn put(out: &mut String, text: &str) -> Result<(), NoMemory> {
    out.push_str(text)?;
    Ok(())
}

/// Puts a sign behind what there is, if there is something.
pub fn put_between(out: &mut String, sign: &str) -> Result<(), NoMemory> {
    if out.is_empty() {
        Ok(())
    } else {
        put(out, sign)
    }
}
