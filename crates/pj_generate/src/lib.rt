//! A project of any size to try the program on: sources, class files and a ruleset, in memory.
#![tactic(auto)]

mod class_file;
mod project;
mod source;

pub use project::{Project, project_of};
