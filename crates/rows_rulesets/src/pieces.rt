//! Texts that are put together of pieces.
use pj_base::NoMemory;
use pj_rows::put;
use std::alloc::Global;

/// A text of these pieces.
pub fn joined(alloc: Global, pieces: &[&str]) -> Result<String, NoMemory> {
    let mut out = String::new(alloc);
    put(&mut out, pieces)?;
    Ok(out)
}
