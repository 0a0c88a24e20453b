//! What rules mean at a file, and at all files together, and the analysis of a file.
//!
//! `specs/FileMeaning.antt` says what rules mean at a file: the head of the file with the meaning of each rule, merged.
#![tactic(auto)]

mod analyse;
mod analysis;
mod evaluated;
mod file;
mod file_rule;
mod laws;
mod names;
mod numbers;
mod result;
mod runs;
mod view;
mod work;

pub use analyse::{analyse_file, analyse_files, analyse_rules};
pub use laws::{
    chosen_rules_are_the_file, cold_reports_are_in_order, cold_reports_find_what_is_denoted,
    files_are_their_rules, files_without_tree_have_one_error, findings_are_denoted,
    inactive_rules_mean_nothing, marked_lines_are_those_of_tokens, one_cold_report,
    rules_are_their_texts, rules_find_nodes, rules_find_what_they_denote, sets_have_rules,
    settled_cold_report, some_cold_report, what_rules_mean_settles,
};
pub use result::{FileResult, FileRuns, PathResults};
pub use work::{Ran, Work, put_ran};
