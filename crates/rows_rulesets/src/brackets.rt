//! Texts in brackets, so that blanks at their ends are seen.
use pj_base::NoMemory;
use std::alloc::Global;

/// Puts a text in brackets.
pub fn put_bracketed(out: &mut String, text: &str) -> Result<(), NoMemory> {
    out.push('[')?;
    out.push_str(text)?;
    out.push(']')?;
    Ok(())
}

/// A text in brackets.
pub fn bracketed(alloc: Global, text: &str) -> Result<String, NoMemory> {
    let mut out = String::new(alloc);
    put_bracketed(&mut out, text)?;
    Ok(out)
}

/// What stands in brackets.
pub fn inside(given: &str) -> Option<&str> {
    given.strip_prefix("[")?.strip_suffix("]")
}

/// What stands in two pairs of brackets with a blank between them.
pub fn pair(given: &str) -> Option<(&str, &str)> {
    inside(given)?.split_once("] [")
}

/// The answer for what is given in another form.
pub fn unread(alloc: Global) -> Result<String, NoMemory> {
    Ok(String::from_str(alloc, "! this is not in the form of its section")?)
}
