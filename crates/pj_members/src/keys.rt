//! Sets of texts.
ghost use Rattle.std.specs.Prelude.{◌≡◌, IfOk, OnOk, not};
ghost use Rattle.std.specs.FinSet as set;

use pj_base::{NoMemory, Text};
use std::alloc::Global;
use std::collections::BTreeSet;
use std::marker::Model;

/// A set of texts, which contracts see as a finite set of byte strings.
#[derive(Drop)]
pub struct Keys {
    texts: BTreeSet<Text>,
}

impl Model for Keys {
    ghost use Rattle.std.specs.FinSet as set;
    ghost use Rattle.std.specs.Coded.{coded_list, coded_ℕ};
    ghost use Rattle.pj_names.specs.ClassName.{NameSet};

    ghost Value = { NameSet };

    ghost coded = { set.code (coded_list coded_ℕ) };

    ghost view = { λ all. set.from_list all.texts.keys };
}

impl Keys {
    /// The empty set, which takes no memory.
    pub fn new(alloc: Global) -> Keys
        ensures { result ≡ set.empty }
    {
        Keys {
            texts: BTreeSet::new(alloc),
        }
    }

    /// Puts a text into the set, and says whether it is new there.
    pub fn insert(&mut self, text: Text) -> Result<bool, NoMemory>
        ensures ok { OnOk result (self.new ≡ set.insert self.old text) }
        ensures added { IfOk result (λ added. added ≡ not (set.contains self.old text)) }
    {
        Ok(self.texts.insert(text)?)
    }
}
