//! The cache: files with the results of rules, and the answers on which these rest.
ghost use Rattle.std.specs.Prelude.{◌≡◌, []};

use crate::key::Key;
use crate::old::OldCache;
use crate::shared_name::SharedNames;
use pj_base::{Bytes, ListOf, Text};
use pj_names::Answers;
use pj_reports::{Head, Ruled};
use std::alloc::Global;

/// What the rules of one key come to in a file.
#[derive(Debug, Drop)]
pub struct KeyRows {
    /// The key.
    pub key: Key,
    /// What these rules come to.
    pub rows: Ruled,
}

/// The rows of some keys, in the order of the keys' bytes.
pub type Group = ListOf<KeyRows>;

/// What some rules come to in a file, and the classes that they asked for, all of them together.
#[derive(Debug, Drop)]
pub struct CachedResult {
    /// The rows of each key.
    pub group: Group,
    /// The names of the classes, in the order of their bytes.
    pub names: SharedNames,
}

/// The results of a file, in the order of their first keys.
pub type Results = ListOf<CachedResult>;

/// A file, and what was found in it.
#[derive(Debug, Drop)]
pub struct Entry {
    /// Its path.
    pub path: Text,
    /// Its bytes.
    pub bytes: Bytes,
    /// What it is, whatever the rules are.
    pub head: Head,
    /// The results of rules: none where the file has no tree.
    pub results: Results,
}

/// The files of a cache, in the order of their paths' bytes.
pub type Entries = ListOf<Entry>;

/// What a run keeps for the next one.
#[derive(Debug, Drop)]
pub struct Cache {
    /// The answers about the classes that the results name, in the order of the names' bytes.
    pub answers: Answers,
    /// The files.
    pub entries: Entries,
}

/// A cache as it was read.
#[derive(Debug, Drop)]
pub enum Stored {
    /// One of format 1, whose results are those of whole lists of rules.
    One(OldCache),
    /// One of format 2.
    Two(Cache),
}

impl Cache {
    /// The cache without entries, which takes no memory.
    pub fn empty(alloc: Global) -> Cache
        ensures answers { result.answers ≡ [] }
        ensures entries { result.entries ≡ [] }
    {
        Cache {
            answers: Answers::new(alloc),
            entries: Entries::new(alloc),
        }
    }
}
