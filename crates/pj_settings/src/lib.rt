//! The words of a check: what a run is asked to do, or what is wrong with its words.
//!
//! `clap` says which words are a line; the values of the options are judged after that, in the order of
//! `specs/Job.antt`.
#![tactic(auto)]

mod command;
mod reading;
mod settings;
mod usage;
mod values;

pub use reading::read;
pub use settings::{Format, Settings};
pub use usage::{UsageFault, UsageRefused};
