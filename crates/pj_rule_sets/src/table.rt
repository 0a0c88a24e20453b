//! Tables of what is read of a file.
ghost use Rattle.std.specs.Prelude.{◌≡◌, [], not, IfOk, OnErr, OnOk};
ghost use Rattle.pj_rule_sets.specs.Lists.{is_among, put, with_text};

use crate::entry::{Entry, Origin};
use indexmap::{IndexMap, IndexSet};
use pj_base::{ListOf, NoMemory, Text};
use std::alloc::Global;
use std::marker::Model;

/// Rules and what stands for them, by their origins: of two of one origin the first gives the place and the last the value.
#[derive(Drop)]
pub struct RuleTable {
    held: IndexMap<Origin, Entry>,
}

impl Model for RuleTable {
    ghost use Rattle.std.specs.Prelude.{List};
    ghost use Rattle.pj_rule_sets.specs.declared.entry.Origin.{Origin};
    ghost use Rattle.pj_rule_sets.specs.declared.entry.Entry.{Entry};

    ghost Value = { List (Origin × Entry) };

    ghost view = { λ table. table.held.entries };
}

impl RuleTable {
    /// A table without rules.
    pub fn new(alloc: Global) -> RuleTable
        ensures { result ≡ [] }
    {
        RuleTable {
            held: IndexMap::new(alloc),
        }
    }

    /// Puts a rule. Without memory the table stays as it is.
    pub fn put(&mut self, origin: Origin, entry: Entry) -> Result<(), NoMemory>
        ensures put { OnOk result (self.new ≡ put self.old (origin, entry)) }
        ensures err { OnErr result (self.new ≡ self.old) }
    {
        let _ = self.held.insert(origin, entry)?;
        Ok(())
    }

    /// The rules as a list.
    pub fn into_list(self, alloc: Global) -> Result<ListOf<(Origin, Entry)>, NoMemory>
        ensures { IfOk result (λ list. list ≡ self) }
    {
        let RuleTable { held } = self;
        let mut list = ListOf::new(alloc);
        for (origin, entry) in held {
            list.push((origin, entry))?;
        }
        Ok(list)
    }
}

/// Names, each once.
#[derive(Drop)]
pub struct NameSet {
    held: IndexSet<Text>,
}

impl Model for NameSet {
    ghost use Rattle.std.specs.Prelude.{List, ℕ};

    ghost Value = { List (List ℕ) };

    ghost view = { λ names. names.held.keys };
}

impl NameSet {
    /// A set without names.
    pub fn new(alloc: Global) -> NameSet
        ensures { result ≡ [] }
    {
        NameSet {
            held: IndexSet::new(alloc),
        }
    }

    /// Puts a name at the end and says `true`; where it is there already the names stay as they are, and the answer is `false`. So they do without memory.
    pub fn put(&mut self, name: Text) -> Result<bool, NoMemory>
        ensures was { IfOk result (λ is_new. is_new ≡ not (is_among name self.old)) }
        ensures put { OnOk result (self.new ≡ with_text self.old name) }
        ensures err { OnErr result (self.new ≡ self.old) }
    {
        Ok(self.held.insert(name)?)
    }
}
