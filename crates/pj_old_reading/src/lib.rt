//! Reading caches of both formats: the cache that bytes spell, or what is wrong with them.
#![tactic(auto)]

mod answers;
mod asked;
mod decoding;
mod entries;
mod fields;
mod keys;
mod named;
mod places;
mod rows;
mod sealed;

pub use decoding::decode_any;
