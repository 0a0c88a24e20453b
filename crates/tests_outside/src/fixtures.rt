//! Names, files and plans in memory, made of rows, and what a reading is.
use pj_base::{Bytes, NoMemory, Numbers, Text};
use pj_names::ClassName;
use pj_outside::{Files, Reading, Refused};
use std::alloc::Global;
use std::test::Fail;

/// Fails with the name of a row where what it says does not hold.
pub fn expect(holds: bool, row: &'static str) -> Result<(), Fail> {
    if holds { Ok(()) } else { Err(Fail::new(row)) }
}

/// A text of its own.
pub fn text(alloc: Global, text: &str) -> Result<Text, NoMemory> {
    Text::from_str(alloc, text)
}

/// The name of a class.
pub fn name(alloc: Global, text: &str) -> Result<ClassName, Fail> {
    Ok(ClassName::of(alloc, text)?.ok_or("no class name")?)
}

/// A list of numbers.
pub fn numbers(alloc: Global, numbers: &[u32]) -> Result<Numbers, NoMemory> {
    Ok(Numbers::from_vec(Vec::from_slice(alloc, numbers)?))
}

/// A path and the bytes of its file.
pub type File = (&'static str, &'static [u8]);

/// A file in memory.
fn file(alloc: Global, (path, bytes): File) -> Result<(Text, Bytes), NoMemory> {
    let bytes = Bytes::from_vec(Vec::from_slice(alloc, bytes)?);
    Ok((text(alloc, path)?, bytes))
}

/// Files in memory.
pub fn files(alloc: Global, all: &[File]) -> Result<Files, NoMemory> {
    let mut files = Files::new(alloc);
    for one in all {
        files.push(file(alloc, *one)?)?;
    }
    Ok(files)
}

/// What a reading is to answer.
#[derive(Clone, Copy)]
pub enum Read {
    /// There is no such file.
    Absent,
    /// It has more bytes than were asked for.
    Longer,
    /// All its bytes.
    Whole(&'static [u8]),
    /// The call fails.
    Failed,
}

/// Whether a reading answered this.
pub fn is_read(answer: &Result<Reading, Refused>, wanted: Read) -> bool {
    match (answer, wanted) {
        (Ok(Reading::Absent), Read::Absent) => true,
        (Ok(Reading::Longer), Read::Longer) => true,
        (Ok(Reading::Whole(bytes)), Read::Whole(wanted)) => bytes.as_slice() == wanted,
        (Err(Refused::Failed), Read::Failed) => true,
        _ => false,
    }
}
