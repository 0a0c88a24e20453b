//! Laws of the texts of caches, each the contract of a call that does nothing.
ghost use Rattle.std.specs.Prelude.{◌≡◌, ◌<◌, ◌⊎◌, ℕ, List, slice_index, map, Result, Ok, Err};
ghost use Rattle.std.specs.List.Sorted.{IsStrictlySortedBy};
ghost use Rattle.pj_cache.specs.Places.{byte_order};
ghost use Rattle.pj_cache.specs.declared.cache.Cache.{Cache};
ghost use Rattle.pj_cache_format.specs.Decoded.{IsStored, IsDecoded, text_two};
ghost use Rattle.pj_cache_format.specs.declared.fault.CacheRefused.{CacheRefused};
ghost use Rattle.pj_cache_format.specs.declared.fault.CacheRefused.TheVariants.{Memory};
ghost use Rattle.pj_cache_format.specs.Fitting.{FitsFields};
ghost use Rattle.pj_cache_format.specs.Ordered.{IsInOrder};

/// The text of a cache that is in order and fits its fields spells the cache.
pub fn text_spells_its_cache()
    ensures { (c : Cache) → IsInOrder c → FitsFields c → IsStored (text_two c) c }
{}

/// Bytes that spell a cache are its text, and the cache is in order and fits its fields.
pub fn spelled_is_its_text()
    ensures { (bytes : List ℕ) (c : Cache) → ((i : ℕ) → slice_index bytes i < 256) → IsStored bytes c → IsInOrder c × FitsFields c × (bytes ≡ text_two c) }
{}

/// Bytes spell one cache at most.
pub fn spells_one_cache()
    ensures { (bytes : List ℕ) (c d : Cache) → IsStored bytes c → IsStored bytes d → c ≡ d }
{}

/// Of bytes that spell a cache a reader answers that cache, or that memory ran out.
pub fn spelled_is_decoded()
    ensures { (bytes : List ℕ) (c : Cache) (answer : Result Cache CacheRefused) → IsStored bytes c → IsDecoded bytes answer → (answer ≡ Ok c) ⊎ (answer ≡ Err Memory) }
{}

/// Different caches that are in order and fit their fields have different texts.
pub fn different_caches_differ()
    ensures { (c d : Cache) → IsInOrder c → FitsFields c → IsInOrder d → FitsFields d → text_two c ≡ text_two d → c ≡ d }
{}

/// In a cache that is in order the answers and the entries stand in the order of their bytes, each once.
pub fn order_is_strict()
    ensures answers { (c : Cache) → IsInOrder c → IsStrictlySortedBy byte_order (map (λ a. a.0) c.answers) }
    ensures entries { (c : Cache) → IsInOrder c → IsStrictlySortedBy byte_order (map (λ e. e.path) c.entries) }
{}
