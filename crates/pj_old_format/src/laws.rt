//! Laws of the texts of caches of both formats, each the contract of a call that does nothing.
ghost use Rattle.std.specs.Prelude.{◌≡◌, ◌<◌, ◌⊎◌, ◌↔◌, ℕ, List, slice_index, map, Result, Ok, Err};
ghost use Rattle.std.specs.List.Sorted.{IsStrictlySortedBy};
ghost use Rattle.pj_cache.specs.Places.{byte_order};
ghost use Rattle.pj_cache.specs.declared.cache.Cache.{Cache};
ghost use Rattle.pj_cache.specs.declared.cache.Stored.{Stored};
ghost use Rattle.pj_cache.specs.declared.cache.Stored.TheVariants as formats;
ghost use Rattle.pj_cache.specs.declared.old.OldCache.{OldCache};
ghost use Rattle.pj_cache_format.specs.Decoded.{IsStored};
ghost use Rattle.pj_cache_format.specs.declared.fault.CacheRefused.{CacheRefused};
ghost use Rattle.pj_cache_format.specs.declared.fault.CacheRefused.TheVariants.{Memory};
ghost use Rattle.pj_old_format.specs.TextOne.{text_one};
ghost use Rattle.pj_old_format.specs.FittingOne.{FitsOldFields};
ghost use Rattle.pj_old_format.specs.OrderedOne.{IsOldInOrder};
ghost use Rattle.pj_old_format.specs.AnyStored.{IsAnyStored, IsAnyDecoded, IsWritable, text_of};

/// Different caches of format 1 that keep the format's rules and fit their fields have different texts.
pub fn different_old_caches_differ()
    ensures { (c d : OldCache) → IsOldInOrder c → FitsOldFields c → IsOldInOrder d → FitsOldFields d → text_one c ≡ text_one d → c ≡ d }
{}

/// The text of a cache that keeps its format's rules and fits its fields spells the cache.
pub fn text_spells_any_cache()
    ensures { (c : Stored) → IsWritable c → IsAnyStored (text_of c) c }
{}

/// Bytes that spell a cache are its text, and the cache keeps its format's rules and fits its fields.
pub fn any_spelled_is_its_text()
    ensures { (bytes : List ℕ) (c : Stored) → ((i : ℕ) → slice_index bytes i < 256) → IsAnyStored bytes c → IsWritable c × (bytes ≡ text_of c) }
{}

/// Bytes spell one cache at most, of whichever format.
pub fn spells_one_any_cache()
    ensures { (bytes : List ℕ) (c d : Stored) → IsAnyStored bytes c → IsAnyStored bytes d → c ≡ d }
{}

/// Of bytes that spell a cache a reader answers that cache, or that memory ran out.
pub fn any_spelled_is_decoded()
    ensures { (bytes : List ℕ) (c : Stored) (answer : Result Stored CacheRefused) → IsAnyStored bytes c → IsAnyDecoded bytes answer → (answer ≡ Ok c) ⊎ (answer ≡ Err Memory) }
{}

/// Different caches of whichever formats that keep their rules and fit their fields have different texts.
pub fn different_any_caches_differ()
    ensures { (c d : Stored) → IsWritable c → IsWritable d → text_of c ≡ text_of d → c ≡ d }
{}

/// Bytes spell a cache of format 2 among the caches of both formats where they do so in format 2 alone.
pub fn second_format_is_one()
    ensures { (bytes : List ℕ) (c : Cache) → ((i : ℕ) → slice_index bytes i < 256) → (IsAnyStored bytes (formats.Two c) ↔ IsStored bytes c) }
{}

/// In a cache of format 1 that keeps the format's rules the answers stand in the order of their names' bytes, and the entries in that of their paths', each once.
pub fn old_order_is_strict()
    ensures answers { (c : OldCache) → IsOldInOrder c → IsStrictlySortedBy byte_order (map (λ a. a.0) c.answers) }
    ensures entries { (c : OldCache) → IsOldInOrder c → IsStrictlySortedBy byte_order (map (λ e. e.path) c.entries) }
{}
