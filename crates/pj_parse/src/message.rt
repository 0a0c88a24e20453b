//! What is said of a file that has no tree.
ghost use Rattle.std.specs.Prelude.{◌≡◌, IfOk, string_bytes};
ghost use Rattle.pj_parse.specs.Messages.{fault_message};

use crate::file_fault::FileFault;
use pj_base::{NoMemory, Text};
use pj_tree::Place;
use std::alloc::{AllocError, Global};

/// The message of a file that is not UTF-8.
fn unread_text(alloc: Global, offset: u32) -> Result<String, AllocError>
    ensures { IfOk result (λ text. string_bytes text ≡ fault_message (FileFault.NotUtf8 offset)) }
{
    format!(in alloc; "not UTF-8 at byte {offset}")
}

/// The message of a file with a bad Unicode escape.
fn escape_text(alloc: Global, place: Place) -> Result<String, AllocError>
    ensures { IfOk result (λ text. string_bytes text ≡ fault_message (FileFault.Escape place)) }
{
    let (line, column) = (place.line, place.column);
    format!(in alloc; "bad unicode escape at {line}:{column}")
}

/// The message of a file with a lexical fault.
fn lexical_text(alloc: Global, kind: u8, place: Place) -> Result<String, AllocError>
    ensures { IfOk result (λ text. string_bytes text ≡ fault_message (FileFault.Lexical kind place)) }
{
    let (line, column) = (place.line, place.column);
    format!(in alloc; "lexical fault {kind} at {line}:{column}")
}

/// The message of a file with this fault. Offsets count from 0, lines and columns from 1.
pub fn fault_message(alloc: Global, fault: FileFault) -> Result<Text, NoMemory>
    ensures { IfOk result (λ message. message ≡ fault_message fault) }
{
    match fault {
        FileFault::NotUtf8(offset) => {
            let text = unread_text(alloc, offset)?;
            return Ok(Text::from_string(text));
        }
        FileFault::Escape(place) => {
            let text = escape_text(alloc, place)?;
            return Ok(Text::from_string(text));
        }
        FileFault::Lexical(kind, place) => {
            let text = lexical_text(alloc, kind, place)?;
            return Ok(Text::from_string(text));
        }
        FileFault::TooManyTokens(_) => return Text::from_str(alloc, "too many tokens"),
        FileFault::Syntax => return Text::from_str(alloc, "syntax fault"),
        FileFault::TooDeep(_) => return Text::from_str(alloc, "too deep"),
        FileFault::TooManyNodes(_) => return Text::from_str(alloc, "too many nodes"),
    }
}
