//! Bytes as rows give them: hexadecimal digits, and characters between quotes.
use crate::row_fault::RowFault;
use std::alloc::Global;

/// Puts the bytes of hexadecimal digits.
fn put_digits(bytes: &mut Vec<u8>, digits: &str) -> Result<(), RowFault> {
    let mut high = None;
    for digit in digits.chars() {
        let digit = match digit.to_digit(16) {
            Some(digit) => u8::try_from(digit).unwrap_or(0),
            None => return Err(RowFault::Unread("no hexadecimal digit")),
        };
        high = match high {
            None => Some(digit),
            Some(high) => {
                let high: u8 = high;
                bytes.push(high.saturating_mul(16).saturating_add(digit))?;
                None
            }
        };
    }
    if high.is_some() {
        return Err(RowFault::Unread("a digit too many"));
    }
    Ok(())
}

/// Puts the bytes of a word: characters between quotes, or hexadecimal digits.
fn put_word(bytes: &mut Vec<u8>, word: &str) -> Result<(), RowFault> {
    match word.strip_prefix("'") {
        Some(characters) => {
            let characters = characters.strip_suffix("'").unwrap_or(characters);
            bytes.extend_from_slice(characters.as_bytes())?;
            Ok(())
        }
        None => put_digits(bytes, word),
    }
}

/// The bytes of words.
pub fn bytes_of(alloc: Global, words: &str) -> Result<Vec<u8>, RowFault> {
    let mut bytes = Vec::new(alloc);
    for word in words.split_whitespace() {
        put_word(&mut bytes, word)?;
    }
    Ok(bytes)
}

/// The first and the last number of a range, as `3 to 5` or `3`.
pub fn range_of(range: &str) -> Result<(usize, usize), RowFault> {
    let (first, last) = range.split_once(" to ").unwrap_or((range, range));
    match (first.parse::<usize>(), last.parse::<usize>()) {
        (Ok(first), Ok(last)) => Ok((first, last)),
        _ => Err(RowFault::Unread("no numbers")),
    }
}
