//! Files in memory.
ghost use Rattle.std.specs.Prelude.{◌≡◌, IfOk};
ghost use Rattle.std.specs.Option.{option_copied};
ghost use Rattle.pj_outside.specs.Files.{bytes_at, reading_of};
ghost use Rattle.pj_outside.specs.Doors.{class_file_of};

use crate::refused::Reading;
use pj_base::{Bytes, Copied, ListOf, NoMemory, Text};
use std::alloc::{AllocError, Global};

/// Pairs of a path and bytes. Where two have one path, the bytes of the first count.
pub type Files = ListOf<(Text, Bytes)>;

/// The bytes of the first file of the path.
pub(crate) fn find_bytes<'f>(files: &'f Files, path: &[u8]) -> Option<&'f Bytes>
    ensures { option_copied result ≡ bytes_at files.now path.now }
{
    for (file_path, bytes) in files.as_slice() {
        if file_path.as_str().as_bytes() == path {
            return Some(bytes);
        }
    }
    None
}

/// What reading at most `most` of these bytes gives.
pub(crate) fn read_bytes(bytes: Option<&Bytes>, most: u64) -> Result<Reading, NoMemory>
    ensures { IfOk result (λ reading. reading ≡ reading_of most (option_copied bytes.entry)) }
{
    match bytes {
        None => Ok(Reading::Absent),
        Some(bytes) => {
            if bytes.len() as u64 > most {
                Ok(Reading::Longer)
            } else {
                Ok(Reading::Whole(bytes.copied()?))
            }
        }
    }
}

/// The path of a class's file in its folder, by its bytes.
pub(crate) fn class_file_path(alloc: Global, name: &[u8]) -> Result<Vec<u8>, AllocError>
    ensures { IfOk result (λ path. path.items ≡ class_file_of name.now) }
{
    let mut path = Vec::new(alloc);
    for byte in name {
        path.push(if *byte == b'.' { b'/' } else { *byte })?;
    }
    path.extend_from_slice(b".class")?;
    Ok(path)
}
