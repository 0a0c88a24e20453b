//! Pieces of a text that are written once with how often they stand, as `{64 <a>}`.
use pj_base::NoMemory;
use std::alloc::Global;

/// How often a piece stands, the piece, and what stands behind it, where the text begins with these.
fn repetition(text: &str) -> Option<(u32, &str, &str)> {
    let (inside, behind) = text.split_once('}')?;
    let (times, piece) = inside.split_once(' ')?;
    let times = times.parse::<u32>().ok()?;
    Some((times, piece, behind))
}

/// Puts a piece so many times.
fn put_times(out: &mut String, piece: &str, times: u32) -> Result<(), NoMemory> {
    for _time in 0..times {
        out.push_str(piece)?;
    }
    Ok(())
}

/// Puts what stands behind a brace as often as it says, or the brace alone where it says nothing. What is left of the text.
fn put_braced<'t>(out: &mut String, behind: &'t str) -> Result<&'t str, NoMemory> {
    match repetition(behind) {
        None => {
            out.push('{')?;
            Ok(behind)
        }
        Some((times, piece, rest)) => {
            put_times(out, piece, times)?;
            Ok(rest)
        }
    }
}

/// The text with its pieces as often as they stand.
pub fn repeated(alloc: Global, text: &str) -> Result<String, NoMemory> {
    let mut out = String::new(alloc);
    let mut rest = text;
    for _brace in 0..text.len() {
        let Some((before, behind)) = rest.split_once('{') else {
            break;
        };
        out.push_str(before)?;
        rest = put_braced(&mut out, behind)?;
    }
    out.push_str(rest)?;
    Ok(out)
}
