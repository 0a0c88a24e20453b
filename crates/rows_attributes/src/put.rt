//! Putting of texts behind an answer.
use pj_base::NoMemory;

/// Puts a text behind what there is.
pub fn put(out: &mut String, text: &str) -> Result<(), NoMemory> {
    out.push_str(text)?;
    Ok(())
}

/// Puts a word behind what there is, with a space between.
pub fn put_word(out: &mut String, word: &str) -> Result<(), NoMemory> {
    if !out.is_empty() {
        put(out, " ")?;
    }
    put(out, word)
}
