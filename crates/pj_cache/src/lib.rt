//! The cache of a run: what was found in files by each rule, with the answers about classes on which it rests.
#![tactic(auto)]

mod bisection;
mod cache;
mod copied;
mod found;
mod key;
mod old;
mod shared_name;

pub use bisection::{place_of_key, place_of_name};
pub use cache::{Cache, CachedResult, Entries, Entry, Group, KeyRows, Results, Stored};
pub use key::{Key, Keys};
pub use old::{OldCache, OldEntries, OldEntry};
pub use shared_name::{SharedName, SharedNames};
