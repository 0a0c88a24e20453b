//! What is read of a file so far.
ghost use Rattle.std.specs.Prelude.{◌≡◌};
ghost use Rattle.pj_rules.specs.Effective.{nothing};

use pj_rule_sets::{NameSet, RuleTable};
use std::alloc::Global;

/// What is read of a file so far.
#[derive(Drop)]
pub struct Progress {
    /// The names of the rules that it defines.
    pub names: NameSet,
    /// Its rules.
    pub list: RuleTable,
}

impl Progress {
    /// A file of which nothing is read.
    pub fn new(alloc: Global) -> Progress
        ensures { result ≡ nothing }
    {
        Progress {
            names: NameSet::new(alloc),
            list: RuleTable::new(alloc),
        }
    }
}
