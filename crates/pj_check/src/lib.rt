//! The top call: a run on one thread, from the words that come in to the bytes of the report that goes out, and the notes that tell why a
//! run has none.
//!
//! A report is written whole in memory before anything of it is put.
#![tactic(auto)]

mod analysing;
mod cache;
mod check;
mod classes;
mod laws;
mod limit;
mod making;
mod note;
mod note_kind;
mod note_putting;
mod outcome;
mod preparing;
mod refusal;
mod report_laws;
mod report_putting;
mod report_rendering;
mod steps;
mod verdict;

pub use cache::CacheNotes;
pub use check::check_alone;
pub use laws::{
    keepers_stay_fit, one_refusal, one_run, reports_are_in_order, reports_find_what_is_denoted,
    runs_are_not_refused, some_run_or_refusal, some_run_or_refusal_without_types,
};
pub use limit::LimitKind;
pub use note::{put_outcome, put_run};
pub use note_kind::Note;
pub use note_putting::{put_note, put_notes};
pub use outcome::Outcome;
pub use report_laws::clean_is_empty;
pub use report_putting::put_report;
pub use report_rendering::{Written, report_text, written_report};
pub use verdict::{Verdict, verdict_of};
