//! The format of caches: what bytes spell which cache, and writing.
#![tactic(auto)]

mod encoding;
mod fault;
mod laws;
mod named;
mod put;
mod seal;
mod writing;

pub use encoding::encode;
pub use fault::{CacheFault, CacheRefused, Digest32};
pub use laws::{
    different_caches_differ, order_is_strict, spelled_is_decoded, spelled_is_its_text,
    spells_one_cache, text_spells_its_cache,
};
pub use named::{keys_of, names_of};
pub use put::{put_answers, put_bytes, put_count, put_number, put_text};
pub use seal::{digest_of, seal_content};
pub use writing::{put_name_places, put_place, reason_byte};
