//! Why a row has no answer of its table.
use pj_base::NoMemory;
use std::alloc::{AllocError, AllocFailed, Global};

/// Why a row has no answer of its table.
#[derive(Clone, Copy, Debug, PartialEq, Eq)]
pub enum RowFault {
    /// This is wrong with what the row or its section gives.
    Unread(&'static str),
    /// There was no memory.
    Memory,
}

impl From<NoMemory> for RowFault {
    fn from(_: NoMemory) -> Self {
        RowFault::Memory
    }
}

impl From<AllocError> for RowFault {
    fn from(_: AllocError) -> Self {
        RowFault::Memory
    }
}

impl<T: Drop> From<AllocFailed<T>> for RowFault {
    fn from(_: AllocFailed<T>) -> Self {
        RowFault::Memory
    }
}

/// The answer of a row, or what is wrong with the row as a refusal.
pub fn answer_text(alloc: Global, answer: Result<String, RowFault>) -> Result<String, NoMemory> {
    match answer {
        Ok(text) => Ok(text),
        Err(RowFault::Unread(what)) => Ok(format!(in alloc; "! the row is not read: {what}")?),
        Err(RowFault::Memory) => Err(NoMemory),
    }
}
