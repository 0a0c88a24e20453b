//! The report of a run.
use crate::rows::FileRows;
use pj_base::{ListOf, Text};
use pj_names::{ConfigErrors, RuleRowList};

/// The rows of files, each with its path, in the order of the paths' bytes.
pub type PathRows = ListOf<(Text, FileRows)>;

/// All that a run has to report.
#[derive(Debug, PartialEq, Eq, Drop)]
pub struct Report {
    /// The rules, in the order of their numbers.
    pub rules: RuleRowList,
    /// What was found in each file.
    pub files: PathRows,
    /// The rules that could not be used, in the order of reading.
    pub errors: ConfigErrors,
}
