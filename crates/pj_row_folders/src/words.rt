//! Words of a command line.
use pj_base::{NoMemory, Text, Words};
use std::alloc::Global;

/// The first word of a line, and what stands behind it. A word in single quotes has blanks, or has nothing.
fn first_word(line: &str) -> Option<(&str, &str)> {
    let line = line.trim_start_matches(' ');
    if line.is_empty() {
        return None;
    }
    match line.strip_prefix("'") {
        Some(quoted) => quoted.split_once('\''),
        None => Some(line.split_once(' ').unwrap_or((line, ""))),
    }
}

/// The words of a line.
pub fn words_of(alloc: Global, line: &str) -> Result<Words, NoMemory> {
    let mut words = Words::new(alloc);
    let mut rest = line;
    for _word in 0..line.len() {
        let Some((word, behind)) = first_word(rest) else {
            break;
        };
        words.push(Text::from_str(alloc, word)?)?;
        rest = behind;
    }
    Ok(words)
}
