//! Sets of class names.
ghost use Rattle.std.specs.Prelude.{◌≡◌, IfOk, OnOk, OnErr, not};
ghost use Rattle.std.specs.Bool.{OnFalse};
ghost use Rattle.std.specs.Cmp.Lexicographic.{slice_cmp};
ghost use Rattle.std.specs.FinSet as set;
ghost use Rattle.std.specs.List.Sorted.{IsStrictlySortedBy};
ghost use Rattle.pj_names.specs.Told.{IsWithin, with_names};
ghost use Rattle.std.specs.Ordering.{nat_cmp};

use crate::asking::ClassNames;
use crate::class_name::ClassName;
use pj_base::{Copied, NoMemory};
use std::alloc::Global;
use std::collections::BTreeSet;
use std::marker::Model;

/// A set of class names in the order of their bytes, which contracts see as a finite set.
#[derive(Debug, Drop)]
pub struct ClassNameSet {
    names: BTreeSet<ClassName>,
}

impl Model for ClassNameSet {
    ghost use Rattle.std.specs.FinSet as set;
    ghost use Rattle.std.specs.Coded.{coded_list, coded_ℕ};
    ghost use Rattle.pj_names.specs.ClassName.{NameSet};

    ghost Value = { NameSet };

    ghost coded = { set.code (coded_list coded_ℕ) };

    ghost view = { λ all. set.from_list all.names.keys };
}

impl ClassNameSet {
    /// The empty set, which takes no memory.
    pub fn new(alloc: Global) -> ClassNameSet
        ensures { result ≡ set.empty }
    {
        ClassNameSet {
            names: BTreeSet::new(alloc),
        }
    }

    /// Whether the name is in the set.
    pub fn contains(&self, name: &ClassName) -> bool
        ensures { result ≡ set.contains self.now name.now }
    {
        self.names.contains(name)
    }

    /// Puts a name into the set, and says whether it is new there.
    pub fn insert(&mut self, name: ClassName) -> Result<bool, NoMemory>
        ensures ok { OnOk result (self.new ≡ set.insert self.old name) }
        ensures added { IfOk result (λ added. added ≡ not (set.contains self.old name)) }
        ensures held { IfOk result (λ added. OnFalse added (self.new ≡ self.old)) }
        ensures err { OnErr result (self.new ≡ self.old) }
    {
        Ok(self.names.insert(name)?)
    }

    /// The names in the order of their bytes, each once.
    pub fn names(&self, alloc: Global) -> Result<ClassNames, NoMemory>
        ensures ascending { IfOk result (λ names. IsStrictlySortedBy (slice_cmp nat_cmp) names) }
        ensures members { IfOk result (λ names. set.from_list names ≡ self.now) }
    {
        keys_of(alloc, &self.names)
    }

    /// Puts a name into the set; it is copied where it is new there.
    pub fn note(&mut self, name: &ClassName) -> Result<(), NoMemory>
        ensures ok { OnOk result (self.new ≡ set.insert self.old name.now) }
        ensures err { OnErr result (self.new ≡ self.old) }
    {
        if self.contains(name) {
            return Ok(());
        }
        self.insert(name.copied()?)?;
        Ok(())
    }

    /// Puts names into the set; each is copied where it is new there.
    #[tactic(auto, using(crate::proofs::AskingLaws::asking_loops))]
    pub fn note_all(&mut self, names: &ClassNames) -> Result<(), NoMemory>
        ensures ok { OnOk result (self.new ≡ with_names self.old names.now) }
        ensures stays { IsWithin self.old self.new }
        ensures within { IsWithin self.new (with_names self.old names.now) }
    {
        for name in names.as_slice() {
            self.note(name)?;
        }
        Ok(())
    }
}

/// The keys in their order.
fn keys_of(alloc: Global, keys: &BTreeSet<ClassName>) -> Result<ClassNames, NoMemory>
    ensures keys { IfOk result (λ names. names ≡ keys.now.keys) }
    ensures ascending { IfOk result (λ names. IsStrictlySortedBy (slice_cmp nat_cmp) names) }
{
    let mut names = ClassNames::new(alloc);
    for key in keys {
        names.push(key.copied()?)?;
    }
    Ok(names)
}
