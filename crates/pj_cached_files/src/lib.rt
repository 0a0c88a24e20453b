//! Files over the cache that a run found: what of it is used again, and what is analysed anew.
//!
//! `specs/LeftFile.antt` says what is left of a file, and `specs/LeftFiles.antt` what is left of all files.
#![tactic(auto)]

mod activity;
mod entry;
mod file;
mod files;
mod laws;
mod made;
mod old;
mod rows;
mod run;

pub use entry::LeftFile;
pub use file::file_entry;
pub use files::{LeftFiles, files_over_cache};
pub use laws::reused_is;
pub use run::Run;
