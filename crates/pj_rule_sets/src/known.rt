//! Files that are known: those that are read, and those that are being read.
ghost use Rattle.std.specs.Prelude.{◌≡◌, ◌++◌, ◌∷◌, [], OnErr, OnOk, MatchOption};
ghost use Rattle.std.specs.Option.{option_copied};
ghost use Rattle.pj_rule_sets.specs.Lists.{is_among, with_text};
ghost use Rattle.pj_rule_sets.specs.ReadFiles.{list_at, put_list};

use crate::entry::{Entry, Origin};
use indexmap::{IndexMap, IndexSet};
use pj_base::{Copied, ListOf, NoMemory, Text};
use std::alloc::Global;
use std::marker::Model;

/// The rules of a file and what stands for them, with their origins.
pub type RuleList = ListOf<(Origin, Entry)>;

/// The files that are read to their ends, with their lists, by their paths.
#[derive(Drop)]
pub struct ReadFiles {
    held: IndexMap<Text, RuleList>,
}

impl Model for ReadFiles {
    ghost use Rattle.std.specs.Prelude.{List, ℕ};
    ghost use Rattle.pj_rule_sets.specs.Lists.{Taken};

    ghost Value = { List (List ℕ × List Taken) };

    ghost view = { λ read. read.held.entries };
}

impl ReadFiles {
    /// No files.
    pub fn new(alloc: Global) -> ReadFiles
        ensures { result ≡ [] }
    {
        ReadFiles {
            held: IndexMap::new(alloc),
        }
    }

    /// The list of a file.
    pub fn get(&self, path: &Text) -> Option<&RuleList>
        ensures { option_copied result ≡ list_at self.now path.now }
    {
        self.held.get(path)
    }

    /// Puts a file with its list. Without memory the files stay as they are.
    pub fn put(&mut self, path: Text, list: RuleList) -> Result<(), NoMemory>
        ensures put { OnOk result (self.new ≡ put_list self.old path list) }
        ensures err { OnErr result (self.new ≡ self.old) }
    {
        let _ = self.held.insert(path, list)?;
        Ok(())
    }
}

/// The paths of the files that are being read: a top ruleset, and behind each file the one to which it refers.
#[derive(Drop)]
pub struct OpenPaths {
    held: IndexSet<Text>,
}

impl Model for OpenPaths {
    ghost use Rattle.std.specs.Prelude.{List, ℕ};

    ghost Value = { List (List ℕ) };

    ghost view = { λ paths. paths.held.keys };
}

impl OpenPaths {
    /// No paths.
    pub fn new(alloc: Global) -> OpenPaths
        ensures { result ≡ [] }
    {
        OpenPaths {
            held: IndexSet::new(alloc),
        }
    }

    /// Whether a path is among them.
    pub fn has(&self, path: &Text) -> bool
        ensures { result ≡ is_among path.now self.now }
    {
        self.held.contains(path)
    }

    /// Puts a path at the end, unless it is there. Without memory the paths stay as they are.
    pub fn put(&mut self, path: Text) -> Result<(), NoMemory>
        ensures put { OnOk result (self.new ≡ with_text self.old path) }
        ensures err { OnErr result (self.new ≡ self.old) }
    {
        let _ = self.held.insert(path)?;
        Ok(())
    }

    /// Takes the last path.
    pub fn pop(&mut self) -> Option<Text>
        ensures { MatchOption result ((self.old ≡ []) × (self.new ≡ [])) (λ last. self.old ≡ self.new ++ last ∷ []) }
    {
        self.held.pop()
    }
}

/// The files that are known.
#[derive(Drop)]
pub struct Known {
    /// Those that are read to their ends.
    pub read: ReadFiles,
    /// The paths of those that are being read.
    pub open_paths: OpenPaths,
}

impl Known {
    /// No files.
    pub fn new(alloc: Global) -> Known
        ensures { result ≡ record { read = []; open_paths = [] } }
    {
        Known {
            read: ReadFiles::new(alloc),
            open_paths: OpenPaths::new(alloc),
        }
    }

    /// Begins with a top ruleset, which is the only file that is being read. Without memory all stays as it is.
    pub fn begin(&mut self, alloc: Global, path: &Text) -> Result<(), NoMemory>
        ensures begun { OnOk result (self.new ≡ record { read = self.old.read; open_paths = path.now ∷ [] }) }
        ensures err { OnErr result (self.new ≡ self.old) }
    {
        let mut open_paths = OpenPaths::new(alloc);
        open_paths.put(path.copied()?)?;
        self.open_paths = open_paths;
        Ok(())
    }
}
