//! The text of a Java source file.
//!
//! `Source` is the text with Unicode escapes translated, and the place of each offset in the file as it is.
#![tactic(auto)]

mod laws;
mod source;

pub use laws::files_are_read;
pub use source::{Source, SourceFault};
