//! What is found in a file.

use pj_base::{Copied, ListOf, NoMemory, Text};
use pj_tree::Place;

/// Why a finding is not reported.
#[derive(Clone, Copy, Debug, PartialEq, Eq)]
pub enum Reason {
    /// An annotation `SuppressWarnings` covers its node.
    Annotation,
    /// A comment with the marker begins on its first line.
    Comment,
    /// The rule's regular expression matches its message.
    Regex,
    /// The rule's XPath is true of its node.
    XPath,
}

/// A node that a rule denotes.
#[derive(Clone, Copy, Debug, PartialEq, Eq)]
pub struct Finding {
    /// The rule, by its number in the report.
    pub rule: u32,
    /// The node, by its number in the file's tree.
    pub node: u32,
    /// Where the node begins.
    pub begin: Place,
    /// The place of its last character: of a node without characters, where it begins.
    pub end: Place,
    /// Why it is not reported, or `None` where it is.
    pub reason: Option<Reason>,
}

/// The findings of a file, in the order of node number, then rule number.
pub type Findings = ListOf<Finding>;

/// What could not be done in a file.
#[derive(Debug, PartialEq, Eq, Drop)]
pub struct FileError {
    /// The rule that could not be evaluated, or `None` where the file has no tree.
    pub rule: Option<u32>,
    /// What went wrong, with the rule's name where there is a rule.
    pub message: Text,
}

/// The errors of a file, in the order of the rules.
pub type FileErrors = ListOf<FileError>;

/// All that is found in a file.
#[derive(Debug, PartialEq, Eq, Drop)]
pub struct FileRows {
    /// The name of its package, empty where it has none or the file has no tree.
    pub package: Text,
    /// The findings, those that are suppressed too.
    pub findings: Findings,
    /// The errors.
    pub errors: FileErrors,
}

impl Copied for Finding {
    fn copied(&self) -> Result<Finding, NoMemory> {
        Ok(*self)
    }
}

impl Copied for FileError {
    fn copied(&self) -> Result<FileError, NoMemory> {
        Ok(FileError {
            rule: self.rule,
            message: self.message.copied()?,
        })
    }
}

impl Copied for FileRows {
    fn copied(&self) -> Result<FileRows, NoMemory> {
        Ok(FileRows {
            package: self.package.copied()?,
            findings: self.findings.copied()?,
            errors: self.errors.copied()?,
        })
    }
}
