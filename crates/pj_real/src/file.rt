//! Reading of one file of the system, and what failed calls are told as.
ghost use Rattle.std.specs.Prelude.{◌≡◌, ◌≤◌, length, IfOk, IfSome};
ghost use Rattle.pj_outside.specs.Faults.{Rises};
ghost use Rattle.pj_outside.specs.Files.{IsAtMost};

use pj_base::Bytes;
use pj_outside::{Reading, Refused};
use std::alloc::Global;
use std::io::Read;
use std::rt::Files;
use std::{fs, io};

/// How many bytes are read at once.
const PIECE: usize = 65_536;

/// The bytes of an opened file, or `None` where they are more than `most`.
fn read_whole<F: Read>(alloc: Global, file: &mut F, most: u64) -> io::Result<Option<Vec<u8>>>
    ensures { IfOk result (λ found. IfSome found (λ bytes. length bytes.items ≤ most)) }
{
    let mut bytes = Vec::new(alloc);
    let mut piece = vec![in alloc; 0u8; PIECE]?;
    'pieces: for _ in 0..u64::MAX {
        let count = file.read(piece.as_mut_slice())?;
        if count == 0 {
            return Ok(Some(bytes));
        }
        bytes.extend_from_slice(&piece[..count])?;
        if bytes.len() as u64 > most {
            return Ok(None);
        }
    }
    Ok(None)
}

/// What a call found, or `None` where what it was to look at is not there. Nothing is below a file.
pub fn if_there<T: Drop>(found: io::Result<T>) -> io::Result<Option<T>> {
    match found {
        Ok(found) => Ok(Some(found)),
        Err(error) => match error.kind() {
            io::ErrorKind::NotFound | io::ErrorKind::NotADirectory => Ok(None),
            _ => Err(error),
        },
    }
}

/// What the file at the path has, where it is at most `most` bytes.
pub fn read_at<R: Files + AllocGlobal>(rt: &R, path: &str, most: u64) -> io::Result<Reading>
    ensures within { IfOk result (IsAtMost most) }
{
    let mut file = match if_there(fs::open(rt, path))? {
        Some(file) => file,
        None => return Ok(Reading::Absent),
    };
    match read_whole(rt.alloc(), &mut file, most)? {
        Some(bytes) => Ok(Reading::Whole(Bytes::from_vec(bytes))),
        None => Ok(Reading::Longer),
    }
}

/// Whether a call failed for want of memory, which is no fault.
pub fn is_memory(error: &io::Error) -> bool {
    matches!(error.kind(), io::ErrorKind::OutOfMemory)
}

/// Counts a fault.
pub fn fault(faults: &mut u64) -> Refused
    ensures rises { Rises faults.old faults.new }
    ensures failed { result ≡ Refused.Failed }
{
    *faults = faults.saturating_add(1);
    Refused::Failed
}
