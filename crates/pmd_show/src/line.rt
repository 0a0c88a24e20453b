//! The line of a text in which an offset stands, with a mark under it.

use std::io;
use std::io::Write;

/// A line of a text, and a place in it.
#[derive(Clone, Copy)]
pub struct Line<'t> {
    /// The number of the line, from 1.
    pub number: u64,
    /// How many characters stand before the place.
    pub before: u64,
    /// The text of the line.
    pub text: &'t str,
}

/// How many characters of a text begin before an offset in bytes.
fn characters_before(text: &str, offset: usize) -> u64 {
    let mut count: u64 = 0;
    for (at, _) in text.char_indices() {
        if at >= offset {
            return count;
        }
        count = count.saturating_add(1);
    }
    count
}

/// The line in which the offset stands, in bytes from 0. An offset past the text stands at its end.
pub fn line_at(text: &str, offset: usize) -> Line<'_> {
    let mut found = Line {
        number: 1,
        before: 0,
        text: "",
    };
    let mut begin: usize = 0;
    let mut number: u64 = 0;
    for line in text.split('\n') {
        number = number.saturating_add(1);
        found = Line {
            number,
            before: characters_before(line, offset.saturating_sub(begin)),
            text: line,
        };
        begin = begin.saturating_add(line.len()).saturating_add(1);
        if offset < begin {
            return found;
        }
    }
    found
}

/// Writes the line, set in, and under it a mark at its place. A tab stays one, so that the mark stands under its character.
pub fn write_marked<W: Write>(out: &mut W, line: Line<'_>) -> io::Result<()> {
    write!(out, "    {}\n    ", line.text)?;
    let mut left = line.before;
    for character in line.text.chars() {
        if left == 0 {
            break;
        }
        left = left.saturating_sub(1);
        out.write_all(if character == '\t' { b"\t" } else { b" " })?;
    }
    out.write_all(b"^")
}
