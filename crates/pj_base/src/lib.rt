//! The base of every crate: want of memory, texts and lists, which contracts see as lists of bytes and members, their
//! copies and comparisons, characters at the front of a text, and tables of words.
#![tactic(auto)]

mod characters;
mod copied;
mod equality;
mod exact;
mod list;
mod memory;
mod text;
mod word_table;

pub use characters::{begins_with, split_first, strip};
pub use copied::Copied;
pub use equality::is_same_text;
pub use exact::Exact;
pub use list::{Bytes, ListOf, Names, Numbers, Words};
pub use memory::NoMemory;
pub use text::Text;
pub use word_table::value_in;
