//! The cache of format 1: files with the results of a whole list of rules.
use crate::shared_name::SharedNames;
use pj_base::{Bytes, ListOf, Text};
use pj_names::Answers;
use pj_reports::FileRows;

/// A file, and what all rules of a list found in it.
#[derive(Debug, Drop)]
pub struct OldEntry {
    /// Its path.
    pub path: Text,
    /// Its bytes.
    pub bytes: Bytes,
    /// The names of the classes that were asked for, in the order of their bytes.
    pub names: SharedNames,
    /// The rows of the file.
    pub rows: FileRows,
}

/// The files of a cache, in the order of their paths' bytes.
pub type OldEntries = ListOf<OldEntry>;

/// A cache of format 1.
#[derive(Debug, Drop)]
pub struct OldCache {
    /// The key of the list of rules.
    pub rules: Bytes,
    /// The answers about the classes that the files name, in the order of the names' bytes.
    pub answers: Answers,
    /// The files.
    pub entries: OldEntries,
}
