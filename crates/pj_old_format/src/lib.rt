//! Caches of format 1, whose results are those of whole lists of rules: what bytes spell which cache, in both formats, and writing.
#![tactic(auto)]

mod encoding;
mod laws;
mod writing;

pub use encoding::encode_one;
pub use laws::{
    any_spelled_is_decoded, any_spelled_is_its_text, different_any_caches_differ,
    different_old_caches_differ, old_order_is_strict, second_format_is_one, spells_one_any_cache,
    text_spells_any_cache,
};
