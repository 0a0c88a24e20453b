//! What is put behind an answer.
use pj_base::NoMemory;

/// Puts pieces behind what there is.
pub fn put(out: &mut String, pieces: &[&str]) -> Result<(), NoMemory> {
    for piece in pieces {
        out.push_str(piece)?;
    }
    Ok(())
}

/// Puts a sign behind what there is, if there is something.
pub fn put_between(out: &mut String, sign: &str) -> Result<(), NoMemory> {
    if out.is_empty() {
        return Ok(());
    }
    put(out, &[sign])
}
