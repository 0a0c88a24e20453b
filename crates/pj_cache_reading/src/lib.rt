//! Reading caches: the cache that bytes spell, or what is wrong with them.
#![tactic(auto)]

mod answers;
mod decoding;
mod entries;
mod fields;
mod results;
mod rows;

pub use decoding::decode;
