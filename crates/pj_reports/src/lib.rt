//! Reports: the rows of files and rules, and the three texts that are written of them.
//!
//! The rows are plain data. `text_of`, `csv_of` and `json_of` give the text of a report, byte for byte as
//! `specs/ReportText.antt` concatenates it.
#![tactic(auto)]

mod csv_form;
mod json_form;
mod laws;
mod report;
mod rows;
mod ruled;
mod shown;
mod text_form;

pub use csv_form::csv_of;
pub use json_form::json_of;
pub use laws::{csv_reads_back, text_is_its_lines};
pub use report::{PathRows, Report};
pub use rows::{FileError, FileErrors, FileRows, Finding, Findings, Reason};
pub use ruled::{Head, Ruled, Spot, Spots};
pub use text_form::text_of;
