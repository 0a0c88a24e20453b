//! Text blocks (JLS 3.10.6).

ghost use Rattle.std.specs.Prelude.{◌≡◌, ◌≤◌, length, IfOk};
ghost use Rattle.pj_literals.specs.TextBlock.{is_white_space, indentation_of, common_indentation, stripped, content_lines, text_block, least_of};

use crate::lines::Lines;
use pj_base::NoMemory;
use std::alloc::Global;

/// The content of a text block with its line terminators normalized and its incidental white space removed.
pub fn text_block(alloc: Global, word: &[char]) -> Result<Vec<char>, NoMemory>
    requires { 3 ≤ length word.now }
    ensures { IfOk result (λ made. made.items ≡ text_block word.now) }
{
    let indentation = common_indentation(content_lines(word));
    let mut lines = content_lines(word);
    let mut made = Vec::new(alloc);
    let Some(first) = lines.next_line() else {
        return Ok(made);
    };
    made.extend_from_slice(stripped(first, indentation))?;
    while let Some(line) = lines.next_line() {
        made.push('\n')?;
        made.extend_from_slice(stripped(line, indentation))?;
    }
    Ok(made)
}

/// The lines between the delimiters.
fn content_lines<'t>(word: &'t [char]) -> Lines<'t>
    requires { 3 ≤ length word.now }
    ensures { result ≡ content_lines word.now }
{
    let mut lines = Lines::of(&word[..word.len() - 3]);
    let _opening = lines.next_line();
    lines
}

/// The indentation that all significant lines have.
fn common_indentation(lines: Lines<'_>) -> usize
    ensures { result ≡ common_indentation lines.entry }
{
    let mut lines = lines;
    let mut least: Option<usize> = None;
    while let Some(line) = lines.next_line() {
        let indentation = indentation(line);
        if indentation < line.len() || lines.is_empty() {
            least = Some(least_of(least, indentation));
        }
    }
    least.unwrap_or(0)
}

/// The least of a number and of one before it, if there is one.
fn least_of(before: Option<usize>, n: usize) -> usize
    ensures { result ≡ least_of before n }
{
    match before {
        Some(m) => m.min(n),
        None => n,
    }
}

/// How many white space characters a line begins with.
fn indentation(line: &[char]) -> usize
    ensures value { result ≡ indentation_of line.now }
{
    for (i, c) in line.iter().enumerate() {
        if !is_white_space(*c) {
            return i;
        }
    }
    line.len()
}

/// A line without this much indentation and without the white space at its end.
fn stripped<'t>(line: &'t [char], indentation: usize) -> &'t [char]
    ensures { result.now ≡ stripped indentation line.now }
{
    let mut left = &line[indentation.min(line.len())..];
    while let Some((last, front)) = left.split_last() {
        if !is_white_space(*last) {
            break;
        }
        left = front;
    }
    left
}

/// White space, as `Character.isWhitespace` has it.
fn is_white_space(c: char) -> bool
    ensures { result ≡ is_white_space c }
{
    matches!(
        c,
        '\t'..='\r'
            | '\x1c'..=' '
            | '\u{1680}'
            | '\u{2000}'..='\u{2006}'
            | '\u{2008}'..='\u{200a}'
            | '\u{2028}'..='\u{2029}'
            | '\u{205f}'
            | '\u{3000}'
    )
}
