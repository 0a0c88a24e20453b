//! Laws of the cache that a run leaves, each the contract of a call that does nothing.
ghost use Rattle.std.specs.Prelude.{◌≡◌, ◌↔◌, ◌++◌, ◌∷◌, ℕ, Bool, false, true, List, [], None, Some, filter, map, slice_get, take};
ghost use Rattle.std.specs.List.{All, AllZip, IsDistinct};
ghost use Rattle.std.specs.List.Sorted.{IsPermutation, IsStrictlySortedBy};
ghost use Rattle.std.specs.Ordering.{nat_cmp};
ghost use Rattle.pj_format.specs.Fields.{Chain};
ghost use Rattle.pj_names.specs.declared.answer.Answer.{Answer};
ghost use Rattle.pj_names.specs.ClassName.{Name};
ghost use Rattle.pj_names.specs.Asking.{names_of as names_asked, value_of};
ghost use Rattle.pj_cache.specs.declared.cache.CachedResult.{CachedResult};
ghost use Rattle.pj_cache.specs.declared.cache.Cache.{Cache};
ghost use Rattle.pj_cache.specs.declared.cache.Entry.{Entry};
ghost use Rattle.pj_cache.specs.Places.{byte_order};
ghost use Rattle.pj_cache_format.specs.FormatTwo.{names_of};
ghost use Rattle.pj_cache_format.specs.Judges.{is_path_behind};
ghost use Rattle.pj_cache_format.specs.Ordered.{HasItsName, IsInOrder};
ghost use Rattle.pj_reuse.specs.Serving.{has_key, keys_of};
ghost use Rattle.pj_fitting.specs.Right.{Key, RulesAt};
ghost use Rattle.pj_fitting.specs.Left.{AreLeft, IsNew, active_keys, has_result, kept, missing, rows_at};
ghost use Rattle.pj_left_cache.specs.Bytes.{AreByBytes, AreByBytesAt, IsByBytes, first_key};
ghost use Rattle.pj_left_cache.specs.Leaving.{left_cache};
ghost use Rattle.pj_left_cache.specs.Missing.{is_same_key, keys_of_active, missing_rules};
ghost use Rattle.pj_left_cache.specs.Said.{said_of_rules};

/// The rules for which new results are made are just those of the missing keys: each number is that of an active rule with the key
/// (`places`), and no active rule before it has that key (`first`). Their keys are just the missing ones (`keys`), each of one number (`once`), the numbers ascend, and
/// there are none exactly where no key is missing. The keys of active rules are those of rules at a file (`active`).
pub fn missing_rules_are<R>()
    ensures places { (stay : List CachedResult) (keys : List Key) (active : List Bool) → All (λ rule. (slice_get keys rule.0 ≡ Some rule.1) × (slice_get active rule.0 ≡ Some true)) (missing_rules stay keys active) }
    ensures first { (stay : List CachedResult) (keys : List Key) (active : List Bool) → All (λ rule. has_key (keys_of_active (take rule.0 keys) (take rule.0 active)) rule.1 ≡ false) (missing_rules stay keys active) }
    ensures keys { (stay : List CachedResult) (keys : List Key) (active : List Bool) (key : Key) → has_key (map (λ rule. rule.1) (missing_rules stay keys active)) key ≡ has_key (missing stay (keys_of_active keys active)) key }
    ensures once { (stay : List CachedResult) (keys : List Key) (active : List Bool) → IsDistinct is_same_key (map (λ rule. rule.1) (missing_rules stay keys active)) }
    ensures ascending { (stay : List CachedResult) (keys : List Key) (active : List Bool) → IsStrictlySortedBy nat_cmp (map (λ rule. rule.0) (missing_rules stay keys active)) }
    ensures none { (stay : List CachedResult) (keys : List Key) (active : List Bool) → (missing_rules stay keys active ≡ []) ↔ (missing stay (keys_of_active keys active) ≡ []) }
    ensures active { (rules : RulesAt R) (held : List R) → keys_of_active (map rules.key held) (map rules.is_active held) ≡ active_keys rules held }
{}

/// What results say of rules at a file is what they say of each of them.
pub fn said_is<R>()
    ensures { (rules : RulesAt R) (results : List CachedResult) (held : List R) → said_of_rules results (map rules.key held) (map rules.is_active held) ≡ map (rows_at rules results) held }
{}

/// In a world the cache that is left has its entries, and for the names of their results the world's answers; and each of these names
/// is asked once, in the order of their bytes.
pub fn left_cache_is()
    ensures cache { (depth : ℕ) (world : Name → Answer) (entries : List Entry) → value_of depth world (left_cache entries) ≡ record { answers = map (λ name. (name, world name)) (names_of entries); entries = entries } }
    ensures names { (depth : ℕ) (world : Name → Answer) (entries : List Entry) → names_asked depth world (left_cache entries) ≡ names_of entries }
{}

/// What stays of the old results of a file, and one new result for each rule for which new ones are made, in whatever order, are the
/// results that a run leaves at a file with a tree.
pub fn results_are_left<R>()
    ensures { (rules : RulesAt R) (world : Name → Answer) (answers : List (Name × Answer)) (old : List CachedResult) (held : List R) (made results : List CachedResult)
        → AllZip (λ rule r. IsNew rules world rule.1 r) (missing_rules (kept answers world (active_keys rules held) old) (map rules.key held) (map rules.is_active held)) made
        → IsPermutation (kept answers world (active_keys rules held) old ++ made) results → AreLeft rules world answers old (active_keys rules held) results }
{}

/// The results of a cache that is in order stand by bytes, whatever its other entries are (`found`), and so do those of them that stay
/// (`stay`). So do all results of a file in the order of `in_order`, where those that stay do, and those that are made are of one key each,
/// which none of the others has (`made`).
pub fn results_stand_by_bytes()
    ensures found { (c : Cache) → IsInOrder c → All (λ e. AreByBytesAt e.head e.results) c.entries }
    ensures stay { (test : CachedResult → Bool) (results : List CachedResult) → AreByBytes results → AreByBytes (filter test results) }
    ensures made { (stay made results : List CachedResult) (keys : List Key) → AreByBytes stay → All IsByBytes made → AllZip (λ key r. keys_of r ≡ key ∷ []) keys made → IsDistinct is_same_key keys → All (λ key. has_result stay key ≡ false) keys
        → IsPermutation (stay ++ made) results → (IsDistinct is_same_key (map first_key (stay ++ made)) → IsStrictlySortedBy byte_order (map first_key results)) → AreByBytes results }
{}

/// The cache that is left is in order, where its entries ascend strictly by their paths, the results of each stand by bytes, and the class in
/// each answer has the name that was asked.
pub fn left_caches_are_in_order()
    ensures { (world : Name → Answer) (entries : List Entry) → All (λ name. HasItsName name (world name)) (names_of entries) → Chain (λ before e. is_path_behind before e.path ≡ true) (λ before e. Some e.path) None entries → All (λ e. AreByBytesAt e.head e.results) entries
        → IsInOrder (record { answers = map (λ name. (name, world name)) (names_of entries); entries = entries }) }
{}
