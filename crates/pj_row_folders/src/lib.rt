//! Folders of files in memory with calls that fail, and words of a command line, as rows write them.
//!
//! - `//- path text` begins a file of this path. Further lines of the text stand below, up to the next file.
//! - A setting `@file path text` puts a file to each folder of its section.
//! - `$ command` is the last line of a row; `@run command` is that of each row of a section that has none.
//! - `{64 <a>}` in a text is `<a>` written 64 times, and `\xff` the byte of that number.
//! - Words of a command line stand between blanks; a word in single quotes has blanks, or has nothing.
#![tactic(auto)]

mod files;
mod folder;
mod repetition;
mod tree;
mod words;

pub use files::put_file;
pub use folder::{Short, files_of, folder_of, split_command};
pub use repetition::repeated;
pub use tree::{failing_call, tree_of};
pub use words::words_of;
