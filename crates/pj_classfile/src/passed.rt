//! Texts of the constant pool that are judged once.
ghost use Rattle.std.specs.Prelude.{◌≡◌, ◌||◌, ℕ, false, nat_eq, OnOk};
ghost use Rattle.pj_classfile.specs.Passed.{has};

use pj_base::NoMemory;
use std::alloc::Global;
use std::collections::BTreeSet;

/// The indices of the texts that passed a test, so that no text is judged twice however often it is named.
#[derive(Drop)]
pub struct Passed {
    /// The indices.
    pub indices: BTreeSet<u16>,
}

impl Passed {
    /// None has passed, which takes no memory.
    pub fn new(alloc: Global) -> Passed
        ensures { (at : ℕ) → has result at ≡ false }
    {
        Passed {
            indices: BTreeSet::new(alloc),
        }
    }

    /// Whether the text behind the index has passed.
    pub fn has(&self, index: u16) -> bool
        ensures { result ≡ has self.now index }
    {
        self.indices.contains(&index)
    }

    /// Notes that the text behind the index passes.
    pub fn add(&mut self, index: u16) -> Result<(), NoMemory>
        ensures { OnOk result ((at : ℕ) → has self.new at ≡ (nat_eq index at || has self.old at)) }
    {
        self.indices.insert(index)?;
        Ok(())
    }
}
