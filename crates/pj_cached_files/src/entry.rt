//! What a run leaves of a file.
ghost use Rattle.std.specs.Prelude.{◌≡◌, IfOk};

use pj_base::{Bytes, Copied, NoMemory, Numbers, Text};
use pj_cache::{Entry, Results};
use pj_reports::Head;
use std::alloc::Global;

/// What a run leaves of a file.
#[derive(Debug, Drop)]
pub struct LeftFile {
    /// The entry of the file in the cache that is left.
    pub entry: Entry,
    /// Whether the file is used again as it is: nothing of it was analysed.
    pub is_reused: bool,
    /// The numbers, from 0, of the rules that were evaluated on the file, ascending; none where it is used again as it is, or has no tree.
    pub ran: Numbers,
}

/// An equal head.
pub fn copied_head(head: &Head) -> Result<Head, NoMemory>
    ensures { IfOk result (λ copy. copy ≡ head.now) }
{
    Ok(match head {
        Head::Package(name) => Head::Package(name.copied()?),
        Head::Message(message) => Head::Message(message.copied()?),
    })
}

/// An entry of a path with these bytes.
pub fn entry_with(
    path: &Text,
    bytes: &Bytes,
    head: Head,
    results: Results,
) -> Result<Entry, NoMemory>
    ensures { IfOk result (λ entry. entry ≡ record { path = path.now; bytes = bytes.now; head = head; results = results }) }
{
    Ok(Entry {
        path: path.copied()?,
        bytes: bytes.copied()?,
        head,
        results,
    })
}
