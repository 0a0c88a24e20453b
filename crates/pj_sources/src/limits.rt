//! Limits.
ghost use Rattle.std.specs.Prelude.{◌≡◌, ◌<◌, ◌≤◌, length, MatchResult};
ghost use Rattle.pj_sources.specs.Limits.{most_files};

use pj_base::{Names, Text};

/// How many files a run may have.
pub const MOST_FILES: usize = 100_000;

/// How many bytes a file may have.
pub const MOST_FILE_BYTES: u64 = 1_048_576;

/// How many bytes all files of a run may have together.
pub const MOST_ALL_BYTES: u64 = 536_870_912;

/// What there is too much of among the sources.
#[derive(Debug, PartialEq, Eq, Drop)]
pub enum SourceLimit {
    /// More than 100,000 files.
    Files,
    /// More than 1,048,576 bytes in the file of this path.
    FileBytes(Text),
    /// More than 536,870,912 bytes in the files up to one of them.
    AllBytes,
}

/// Refuses, by `Files`, exactly where there are more than 100,000 paths.
pub fn test_files(paths: &Names) -> Result<(), SourceLimit>
    ensures { MatchResult result (λ _. length paths.now ≤ most_files) (λ kind. (kind ≡ SourceLimit.Files) × (most_files < length paths.now)) }
{
    if paths.len() > MOST_FILES {
        Err(SourceLimit::Files)
    } else {
        Ok(())
    }
}
