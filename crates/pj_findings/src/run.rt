//! What a rule comes to in a file, with the classes on which that rests.

use pj_base::ListOf;
use pj_names::ClassNames;
use pj_reports::Ruled;

/// What a rule comes to in a file, with the classes on which that rests.
#[derive(Debug, PartialEq, Eq, Drop)]
pub struct RuleRun {
    /// What it comes to.
    pub rows: Ruled,
    /// The names of the classes that it asks for, in the order of their bytes, each once.
    pub names: ClassNames,
}

/// What the rules of a set come to in a file, in the order of their numbers.
pub type RuleRuns = ListOf<RuleRun>;
