//! What a run is asked to do.
use pj_base::{Names, Text};

/// The form of a report.
#[derive(Clone, Copy, Debug, PartialEq, Eq)]
pub enum Format {
    /// A line for each row.
    Text,
    /// Comma-separated values (RFC 4180).
    Csv,
    /// JSON (RFC 8259).
    Json,
}

/// What a run is asked to do.
#[derive(Debug, Drop)]
pub struct Settings {
    /// The files and folders of sources.
    pub dirs: Names,
    /// The files of rulesets.
    pub rulesets: Names,
    /// The form of the report.
    pub format: Format,
    /// The class folders, in the order in which a class is looked for.
    pub classes: Names,
    /// The number of workers; with 0 the caller's own thread works.
    pub threads: u32,
    /// The greatest number of a priority, from 1 to 5, whose rules are kept: 1 is the highest priority.
    pub minimum: u8,
    /// The text in a comment that suppresses the findings that begin on its line.
    pub marker: Text,
    /// The name of the cache, where one is used.
    pub cache: Option<Text>,
}
