//! Reading the sources.
ghost use Rattle.std.specs.Prelude.{◌≡◌, ◌≢◌, ◌≤◌, ◌+◌, ◌++◌, ◌∷◌, [], OnOk, Err, IfOk, IfErr, IfSome, MatchResult, length};
ghost use Rattle.pj_outside.specs.Files.{Files, read_at, IsAtMost};
ghost use Rattle.pj_sources.specs.Faults.{CountsReadFaults};
ghost use Rattle.pj_sources.specs.Limits.{most_file_bytes, most_all_bytes};
ghost use Rattle.pj_sources.specs.Reading.{AreRead, AreWithin, IsFileRead, SaysNotRead, SaysNoFile, IsOfPaths, IsOfPath, IsMissing, IsTooLong};

use crate::limits::{MOST_ALL_BYTES, MOST_FILE_BYTES, SourceLimit};
use crate::refused::ReadRefused;
use pj_base::{Bytes, Copied, Names, NoMemory, Text};
use pj_outside::{Files, Reading, Refused, Tree};
use std::alloc::Global;

/// That there is no file of the path, or want of memory for a copy of the path.
fn missing(path: &Text) -> ReadRefused
    ensures { IsMissing path.now result }
{
    match path.copied() {
        Ok(path) => ReadRefused::Missing(path),
        Err(_) => ReadRefused::Memory,
    }
}

/// That the file of the path is too long, or want of memory for a copy of the path.
fn too_long(path: &Text) -> ReadRefused
    ensures { IsTooLong path.now result }
{
    match path.copied() {
        Ok(path) => ReadRefused::Limit(SourceLimit::FileBytes(path)),
        Err(_) => ReadRefused::Memory,
    }
}

/// The bytes of the file of a path of which this was read, behind files of so many bytes together.
fn whole_bytes(path: &Text, before: u64, reading: Reading) -> Result<Bytes, ReadRefused>
    requires before { before ≤ most_all_bytes }
    requires within { IsAtMost most_file_bytes reading }
    ensures read { (files : Files) → reading ≡ read_at files path.now most_file_bytes → MatchResult result (IsFileRead files path.now) (SaysNoFile files before path.now) }
    ensures short { IfOk result (λ bytes. length bytes ≤ most_file_bytes) }
    ensures together { IfOk result (λ bytes. before + length bytes ≤ most_all_bytes) }
    ensures named { IfErr result (IsOfPath path.now) }
    ensures failed { result ≢ Err ReadRefused.Failed }
{
    match reading {
        Reading::Absent => Err(missing(path)),
        Reading::Longer => Err(too_long(path)),
        Reading::Whole(bytes) => {
            if bytes.len() as u64 > MOST_ALL_BYTES - before {
                Err(ReadRefused::Limit(SourceLimit::AllBytes))
            } else {
                Ok(bytes)
            }
        }
    }
}

/// Reads the file of a path, behind files of so many bytes together.
fn read_file<T: Tree>(tree: &mut T, path: &Text, before: u64) -> Result<Bytes, ReadRefused>
    requires { before ≤ most_all_bytes }
    ensures read { IfSome (T.holds tree.old) (λ files. MatchResult result (IsFileRead files path.now) (SaysNoFile files before path.now)) }
    ensures short { IfOk result (λ bytes. length bytes ≤ most_file_bytes) }
    ensures together { IfOk result (λ bytes. before + length bytes ≤ most_all_bytes) }
    ensures named { IfErr result (IsOfPath path.now) }
    ensures same_files { T.holds tree.new ≡ T.holds tree.old }
    ensures counts_faults { CountsReadFaults (T.faults tree.old) (T.faults tree.new) result }
    ensures steady { T.never_fails tree.old → T.never_fails tree.new × (result ≢ Err ReadRefused.Failed) }
{
    match tree.read(path.as_str(), MOST_FILE_BYTES) {
        Err(Refused::Failed) => Err(ReadRefused::Failed),
        Err(Refused::Memory) => Err(ReadRefused::Memory),
        Ok(reading) => whole_bytes(path, before, reading),
    }
}

/// Puts a file at the end.
fn push_file(read: &mut Files, path: &Text, bytes: Bytes) -> Result<(), NoMemory>
    ensures { OnOk result (read.new ≡ read.old ++ (path.now, bytes) ∷ []) }
{
    let path = path.copied()?;
    read.push((path, bytes))
}

/// Reads the files of the paths in their order, each with its path.
///
/// The first path that is refused is the answer: `Missing` exactly where there is no file of it, `Limit` of `FileBytes`
/// exactly where its file has more than 1,048,576 bytes, else of `AllBytes` exactly where it and those before it have more
/// than 536,870,912 together.
pub fn read_sources<T: Tree>(
    alloc: Global,
    tree: &mut T,
    paths: &Names,
) -> Result<Files, ReadRefused>
    ensures read { IfSome (T.holds tree.old) (λ files. MatchResult result (AreRead files paths.now) (SaysNotRead files paths.now)) }
    ensures within { IfOk result (AreWithin paths.now) }
    ensures named { IfErr result (IsOfPaths paths.now) }
    ensures same_files { T.holds tree.new ≡ T.holds tree.old }
    ensures counts_faults { CountsReadFaults (T.faults tree.old) (T.faults tree.new) result }
    ensures steady { T.never_fails tree.old → T.never_fails tree.new × (result ≢ Err ReadRefused.Failed) }
{
    let mut read = Files::new(alloc);
    let mut together: u64 = 0;
    for path in paths.as_slice() {
        let bytes = read_file(tree, path, together)?;
        together += bytes.len() as u64;
        push_file(&mut read, path, bytes)?;
    }
    Ok(read)
}
