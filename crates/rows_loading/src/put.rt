//! What is put behind an answer.
use pj_base::NoMemory;
use std::alloc::Global;
use std::fmt::Write;

/// Puts a number.
pub fn put_number(out: &mut String, number: u32) -> Result<(), NoMemory> {
    write!(out, "{number}")?;
    Ok(())
}

/// The answer, or `nothing` where it is empty.
pub fn or_nothing(alloc: Global, out: String) -> Result<String, NoMemory> {
    if out.is_empty() {
        return Ok(String::from_str(alloc, "nothing")?);
    }
    Ok(out)
}
