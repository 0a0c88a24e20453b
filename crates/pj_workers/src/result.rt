//! What comes of a file.
use pj_base::{ListOf, Text};
use pj_findings::RuleRuns;
use pj_names::ClassNames;
use pj_reports::{FileRows, Head};

/// What comes of a file.
#[derive(Debug, PartialEq, Eq, Drop)]
pub struct FileResult {
    /// Its rows.
    pub rows: FileRows,
    /// The names of the classes that were asked for, in the order of their bytes, each once.
    pub names: ClassNames,
    /// What each rule came to, with the names that this rule alone asked, in the order of the rules; nothing where the file has no tree.
    /// A rule that is not active came to no node.
    pub runs: RuleRuns,
}

/// What comes of files, each with its path, in their order.
pub type PathResults = ListOf<(Text, FileResult)>;

/// What is said of a file, and what rules came to in it.
#[derive(Drop)]
pub struct FileRuns {
    /// The name of its package, or why it has no tree.
    pub head: Head,
    /// What each rule that was looked at came to, with the names that this rule alone asked, in their order; nothing where the file has
    /// no tree. A rule that is not active came to no node.
    pub runs: RuleRuns,
}
