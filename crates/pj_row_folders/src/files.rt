//! Files in memory.
use crate::repetition::repeated;
use pj_base::{Bytes, NoMemory, Text};
use pj_outside::Files;
use std::alloc::Global;

/// The byte of the two digits at the front of a text, and what stands behind them.
fn byte_at(text: &str) -> Option<(u8, &str)> {
    let (digits, behind) = text.split_at_checked(2)?;
    let byte = u8::from_str_radix(digits, 16).ok()?;
    Some((byte, behind))
}

/// Puts the byte that stands behind a sign, or the sign where none does. What is left of the text.
fn put_byte<'t>(bytes: &mut Vec<u8>, behind: &'t str) -> Result<&'t str, NoMemory> {
    match byte_at(behind) {
        Some((byte, rest)) => {
            bytes.push(byte)?;
            Ok(rest)
        }
        None => {
            bytes.extend_from_slice(b"\\x")?;
            Ok(behind)
        }
    }
}

/// The bytes of a text, with those that are written as `\xff`.
fn bytes_written(alloc: Global, text: &str) -> Result<Vec<u8>, NoMemory> {
    let mut bytes = Vec::new(alloc);
    let mut rest = text;
    for _sign in 0..text.len() {
        let Some((before, behind)) = rest.split_once("\\x") else {
            break;
        };
        bytes.extend_from_slice(before.as_bytes())?;
        rest = put_byte(&mut bytes, behind)?;
    }
    bytes.extend_from_slice(rest.as_bytes())?;
    Ok(bytes)
}

/// The bytes that are written with pieces that stand more than once.
fn bytes_of(alloc: Global, text: &str) -> Result<Vec<u8>, NoMemory> {
    let text = repeated(alloc, text)?;
    bytes_written(alloc, text.as_str())
}

/// Puts a file of these bytes.
fn put_bytes(files: &mut Files, path: Text, bytes: Vec<u8>) -> Result<(), NoMemory> {
    files.push((path, Bytes::from_vec(bytes)))
}

/// Puts a file of this text.
pub fn put_file(alloc: Global, files: &mut Files, path: &str, text: &str) -> Result<(), NoMemory> {
    let bytes = bytes_of(alloc, text)?;
    put_bytes(files, Text::from_str(alloc, path)?, bytes)
}
