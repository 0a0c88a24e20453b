//! Keys as rows show them.
use pj_base::NoMemory;
use std::fmt::Write;

/// The number of bytes that four bytes tell, the highest first.
fn number_of(bytes: &[u8]) -> Option<usize> {
    match bytes {
        [a, b, c, d] => Some(u32::from_be_bytes([*a, *b, *c, *d]) as usize),
        _ => None,
    }
}

/// The first text of bytes, behind its number of bytes, and what follows.
fn split_text(bytes: &[u8]) -> Option<(&[u8], &[u8])> {
    let (front, behind) = bytes.split_at_checked(4)?;
    let count = number_of(front)?;
    behind.split_at_checked(count)
}

/// Puts a text in brackets. Texts in rows are ASCII.
fn put_text(out: &mut String, text: &[u8]) -> Result<(), NoMemory> {
    out.push_str(" [")?;
    for byte in text {
        out.push(char::from(*byte))?;
    }
    out.push_str("]")?;
    Ok(())
}

/// Puts the texts of a key, each in brackets, behind the number of its bytes; or a `!` where the rest is no text.
pub fn put_key(out: &mut String, key: &[u8]) -> Result<(), NoMemory> {
    let count = key.len();
    write!(out, "{count}:")?;
    let mut rest = key;
    for _ in 0..key.len() {
        if rest.is_empty() {
            return Ok(());
        }
        match split_text(rest) {
            Some((text, behind)) => {
                put_text(out, text)?;
                rest = behind;
            }
            None => {
                out.push_str(" !")?;
                return Ok(());
            }
        }
    }
    Ok(())
}
