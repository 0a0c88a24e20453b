//! Why not all was shown.

use pj_base::{NoMemory, Text};
use std::alloc::{AllocError, AllocFailed};
use std::fmt::{Display, Formatter, Write};
use std::{fmt, io};

/// Why not all was shown.
#[derive(Drop)]
pub enum Fault {
    /// The words are no command: how the program is called is told.
    Usage,
    /// There is no file of this path.
    Missing(Text),
    /// The file of this path has more bytes than are read.
    TooLong(Text),
    /// The file of this path is no Java file, for what the second text says.
    NotJava(Text, Text),
    /// The rulesets are invalid: the lines that say where and why.
    Rules(String),
    /// There are more than 2,000 rules.
    TooManyRules,
    /// Something could not be read.
    NotRead,
    /// Something could not be written.
    NotWritten,
    /// Memory ran out.
    Memory,
}

impl Display for Fault {
    fn fmt<W: Write>(&self, f: &mut Formatter<W>) -> fmt::Result {
        match self {
            Fault::Usage => {
                f.write_str("usage: pmd tree FILE [--attributes]\n       pmd rules RULESETS")
            }
            Fault::Missing(path) => write!(f, "no such file: {}", path.as_str()),
            Fault::TooLong(path) => write!(f, "too long: {}", path.as_str()),
            Fault::NotJava(path, fault) => { write!(f, "{}: {}", path.as_str(), fault.as_str()) },
            Fault::Rules(lines) => f.write_str(lines.as_str()),
            Fault::TooManyRules => f.write_str("more than 2,000 rules"),
            Fault::NotRead => f.write_str("a file cannot be read"),
            Fault::NotWritten => f.write_str("the output cannot be written"),
            Fault::Memory => f.write_str("out of memory"),
        }
    }
}

impl From<NoMemory> for Fault {
    fn from(_: NoMemory) -> Self {
        Fault::Memory
    }
}

impl From<AllocError> for Fault {
    fn from(_: AllocError) -> Self {
        Fault::Memory
    }
}

impl<T: Drop> From<AllocFailed<T>> for Fault {
    fn from(_: AllocFailed<T>) -> Self {
        Fault::Memory
    }
}

impl From<io::Error> for Fault {
    fn from(error: io::Error) -> Self {
        match error.kind() {
            io::ErrorKind::OutOfMemory => Fault::Memory,
            _ => Fault::NotWritten,
        }
    }
}
