//! Writing a cache in format 1.
ghost use Rattle.std.specs.Prelude.{◌≡◌, IfOk, map};
ghost use Rattle.std.specs.List.Sorted.{IsStrictlySortedBy};
ghost use Rattle.pj_cache.specs.Places.{byte_order};
ghost use Rattle.pj_old_format.specs.TextOne.{text_one};
ghost use Rattle.pj_old_format.specs.FittingOne.{FitsOldFields};

use crate::writing::put_old_cache;
use pj_base::{Bytes, NoMemory};
use pj_cache::OldCache;
use pj_cache_format::{put_number, seal_content};
use std::alloc::Global;

/// The text of a cache, in format 1; that of a cache that keeps the format's rules is read back as the same. A cache with a text, a
/// byte string or a list of more members than four bytes tell, or with an error of the last rule that they number, is want of
/// memory. The condition is that the answers stand in the order of their names' bytes, each once.
pub fn encode_one(alloc: Global, old: &OldCache) -> Result<Bytes, NoMemory>
    requires { IsStrictlySortedBy byte_order (map (λ a. a.0) old.now.answers) }
    ensures text { IfOk result (λ bytes. bytes ≡ text_one old.now) }
    ensures room { IfOk result (λ _. FitsOldFields old.now) }
{
    let mut out = Vec::new(alloc);
    out.extend_from_slice(b"PMDJCACH")?;
    put_number(&mut out, 1)?;
    put_old_cache(&mut out, old)?;
    seal_content(out)
}
