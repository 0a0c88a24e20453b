//! Writing a cache.
ghost use Rattle.std.specs.Prelude.{◌≡◌, IfOk, map};
ghost use Rattle.std.specs.List.Sorted.{IsStrictlySortedBy};
ghost use Rattle.pj_cache.specs.Places.{byte_order};
ghost use Rattle.pj_cache_format.specs.Decoded.{text_two};
ghost use Rattle.pj_cache_format.specs.Fitting.{FitsFields};

use crate::put::put_number;
use crate::seal::seal_content;
use crate::writing::put_cache;
use pj_base::{Bytes, NoMemory};
use pj_cache::Cache;
use std::alloc::Global;

/// The text of a cache, in format 2; that of a cache in order is read back as the same. A cache with a text, a byte string or a
/// list of more members than four bytes tell is want of memory. The condition is that the answers stand in the order of their
/// names' bytes, each once.
pub fn encode(alloc: Global, cache: &Cache) -> Result<Bytes, NoMemory>
    requires { IsStrictlySortedBy byte_order (map (λ a. a.0) cache.now.answers) }
    ensures text { IfOk result (λ bytes. bytes ≡ text_two cache.now) }
    ensures room { IfOk result (λ _. FitsFields cache.now) }
{
    let mut out = Vec::new(alloc);
    out.extend_from_slice(b"PMDJCACH")?;
    put_number(&mut out, 2)?;
    put_cache(alloc, &mut out, cache)?;
    seal_content(out)
}
