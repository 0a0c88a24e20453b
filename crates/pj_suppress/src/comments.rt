//! The lines with a comment that suppresses findings.
ghost use Rattle.std.specs.Prelude.{◌≡◌, ◌==◌, ℕ, IfOk};
ghost use Rattle.std.specs.List.{list_any};
ghost use Rattle.std.specs.List.Sorted.{IsNonDecreasing};
ghost use Rattle.pj_suppress.specs.Marks.{is_comment, is_mark, is_marked, line_of};

use crate::words::contains;
use pj_base::{ListOf, NoMemory, Text};
use pj_lex::{Token, TokenKind, Tokens};
use pj_source::Source;
use std::alloc::Global;

/// Lines of a file, from 1, in ascending order.
pub type Lines = ListOf<u32>;

/// Whether a token is a comment.
fn is_comment(kind: TokenKind) -> bool
    ensures { result ≡ is_comment kind }
{
    kind == TokenKind::Comment
}

/// Whether a token is a comment to the end of its line, and the marker stands in it.
fn is_mark(marker: &str, token: &Token<'_>) -> bool
    ensures { result ≡ is_mark marker.now token.now }
{
    let text = token.text.as_bytes();
    is_comment(token.kind) && text.starts_with(b"//") && contains(text, marker.as_bytes())
}

/// The line on which the token begins, in the file as it is; of a token that stands past the end, the first line.
fn line_of(source: &Source, token: &Token<'_>) -> u32
    ensures { result ≡ line_of source.now token.now }
{
    let end = source.text().len();
    if token.span.from as usize <= end {
        source.place(token.span.from).line
    } else {
        1
    }
}

/// The lines on which a `//` comment that contains the marker begins. The comment's text is the translated one, its two
/// slashes included, and the line is that of the file as it is.
pub fn marks(
    alloc: Global,
    source: &Source,
    tokens: &Tokens<'_>,
    marker: &Text,
) -> Result<Lines, NoMemory>
    ensures lines { IfOk result (λ lines. (line : ℕ) → list_any (λ other. other == line) lines ≡ is_marked source.now tokens.now marker.now line) }
    ensures ascending { IfOk result IsNonDecreasing }
{
    let mut lines = Vec::new(alloc);
    for token in tokens.as_slice() {
        if is_mark(marker.as_str(), token) {
            lines.push(line_of(source, token))?;
        }
    }
    lines.sort()?;
    Ok(Lines::from_vec(lines))
}

/// Whether the line is one of them, by bisection.
pub fn is_marked(lines: &Lines, line: u32) -> bool
    requires ascending { IsNonDecreasing lines.now }
    ensures { result ≡ list_any (λ other. other == line) lines.now }
{
    lines.as_slice().binary_search(&line).is_ok()
}
