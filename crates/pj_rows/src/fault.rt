//! What is wrong with a file of rows.
use pj_base::NoMemory;
use std::alloc::AllocError;
use std::error::Error;
use std::fmt;
use std::fmt::{Display, Formatter, Write};

/// What is wrong with a line of a file of rows.
#[derive(Clone, Copy, Debug, PartialEq, Eq)]
pub enum LineFault {
    /// A row or a setting stands before the first heading.
    NoSection,
    /// A row ends, and nothing said what is wanted.
    NothingWanted,
    /// Nothing stands before `=>`.
    NothingGiven,
    /// A setting stands behind a row of its section.
    LateSetting,
    /// Braces behind a backslash name no character.
    BadEscape,
    /// The table has no such setting.
    UnknownSetting,
}

impl LineFault {
    /// What is wrong, in words.
    pub fn words(self) -> &'static str {
        match self {
            LineFault::NoSection => "stands in no section",
            LineFault::NothingWanted => "a row without =>",
            LineFault::NothingGiven => "nothing is given",
            LineFault::LateSetting => "a setting behind a row",
            LineFault::BadEscape => "a bad escape",
            LineFault::UnknownSetting => "no such setting",
        }
    }
}

/// Why a text is no file of rows.
#[derive(Clone, Copy, Debug, PartialEq, Eq)]
pub enum RowsFault {
    /// The line of this number, from 1, is wrong.
    Line(u32, LineFault),
    /// There was no memory for the rows.
    Memory,
}

impl From<NoMemory> for RowsFault {
    fn from(_: NoMemory) -> Self {
        RowsFault::Memory
    }
}

impl From<AllocError> for RowsFault {
    fn from(_: AllocError) -> Self {
        RowsFault::Memory
    }
}

impl Display for RowsFault {
    fn fmt<W: Write>(&self, f: &mut Formatter<W>) -> fmt::Result {
        match self {
            RowsFault::Line(line, fault) => {
                let words = fault.words();
                write!(f, "{line}: {words}")
            }
            RowsFault::Memory => f.write_str("out of memory"),
        }
    }
}

impl Error for RowsFault {}
