//! What suppresses a finding in its source: annotations above it and comments on its line.
#![tactic(auto)]

mod annotation;
mod comments;
mod words;

pub use annotation::by_annotation;
pub use comments::{Lines, is_marked, marks};
