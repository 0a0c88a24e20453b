//! The text that a run leaves under the name of its cache.
ghost use Rattle.std.specs.Prelude.{◌≡◌, IfOk, length, map, nat_lt};
ghost use Rattle.std.specs.List.Sorted.{IsStrictlySortedBy};
ghost use Rattle.pj_cache.specs.Places.{byte_order};
ghost use Rattle.pj_cache_format.specs.Decoded.{text_two};
ghost use Rattle.pj_cache_format.specs.Fitting.{FitsFields};
ghost use Rattle.pj_fitting.specs.Fits.{empty, limit};
ghost use Rattle.pj_cache_store.specs.Leaving.{text_to_leave};

use crate::loading::MOST_BYTES;
use pj_base::{Bytes, NoMemory};
use pj_cache::Cache;
use pj_cache_format::encode;
use std::alloc::Global;

/// The text of the cache without entries.
fn empty_text(alloc: Global) -> Result<Bytes, NoMemory>
    ensures { IfOk result (λ text. text ≡ text_two empty) }
{
    let empty = Cache::empty(alloc);
    encode(alloc, &empty)
}

/// Whether a text is too long to be left.
fn is_too_long(text: &Bytes) -> bool
    ensures { result ≡ nat_lt limit (length text.now) }
{
    text.len() as u64 > MOST_BYTES
}

/// The text of a cache, or where it has more than 1,073,741,824 bytes, that of the cache without entries. The condition is that the
/// answers of the cache stand in the order of their names' bytes, each once.
pub fn text_to_leave(alloc: Global, cache: &Cache) -> Result<Bytes, NoMemory>
    requires { IsStrictlySortedBy byte_order (map (λ a. a.0) cache.now.answers) }
    ensures text { IfOk result (λ text. text ≡ text_to_leave cache.now) }
    ensures room { IfOk result (λ _. FitsFields cache.now) }
{
    let text = encode(alloc, cache)?;
    if is_too_long(&text) {
        return empty_text(alloc);
    }
    Ok(text)
}
