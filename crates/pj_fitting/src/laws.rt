//! Laws of caches that are right, each the contract of a call that does nothing.
ghost use Rattle.std.specs.Prelude.{◌≡◌, ℕ, List, [], IsTrue, Option, Some, true, not, filter, map, slice_get};
ghost use Rattle.std.specs.List.{All, Contains, list_all};
ghost use Rattle.pj_names.specs.declared.answer.Answer.{Answer};
ghost use Rattle.pj_names.specs.ClassName.{Name, NameSet, name_set};
ghost use Rattle.pj_names.specs.Asking.{Return, bind, each, value_of};
ghost use Rattle.pj_names.specs.Meaning.{Source, Gives, Means, whole};
ghost use Rattle.pj_reports.specs.declared.ruled.Head.{Head};
ghost use Rattle.pj_reports.specs.declared.ruled.Ruled.{Ruled};
ghost use Rattle.pj_cache.specs.declared.cache.KeyRows.{KeyRows};
ghost use Rattle.pj_cache.specs.declared.cache.CachedResult.{CachedResult};
ghost use Rattle.pj_cache.specs.declared.cache.Entry.{Entry};
ghost use Rattle.pj_cache.specs.declared.cache.Cache.{Cache};
ghost use Rattle.pj_cache_format.specs.Decoded.{text_two};
ghost use Rattle.pj_cache_format.specs.Fitting.{FitsFields};
ghost use Rattle.pj_reuse.specs.Serving.{is_served, served, stands};
ghost use Rattle.pj_fitting.specs.Right.{Key, RulesAt, Files, ComesTo, ComeTo, IsRight, IsRightCache, rules_at};
ghost use Rattle.pj_fitting.specs.Left.{File, IsLeftCache, IsLeftEntry, IsServedBy, IsSaid, kept, missing, rows_at};
ghost use Rattle.pj_fitting.specs.Looked.{AsksWithin, Looked, LookedFile, is_reusable};
ghost use Rattle.pj_fitting.specs.Fits.{CacheFits, IsFound};

/// The rules of a right result that stands in a world, each of its answers being the world's, come to its rows there, and together ask
/// for just its names. What some rule of a key comes to, each rule of the key does.
pub fn right_results_serve<R>()
    ensures comes { (rules : RulesAt R) (answers : List (Name × Answer)) (world : Name → Answer) (r : CachedResult)
        → IsRight rules answers r → IsTrue (stands answers world r) → ComeTo rules (whole world) r.group (name_set r.names) }
    ensures rules { (rules : RulesAt R) (source : Source) (k : KeyRows) (names : NameSet) (rule : R)
        → ComesTo rules source k names → rules.key rule ≡ k.key → Means source (rules.meaning rule) (Gives k.rows names) }
{}

/// A rule that is served from right results, its place being among those that `served` gives, comes to the rows of its key in a result
/// that stands.
pub fn served_rules_come<R>()
    ensures { (rules : RulesAt R) (answers : List (Name × Answer)) (world : Name → Answer) (results : List CachedResult) (depth : ℕ) (keys : List Key) (place : ℕ) (rule : R)
        → All (IsRight rules answers) results → Contains (value_of depth world (served answers results keys)) place → slice_get keys place ≡ Some (rules.key rule)
        → IsServedBy rules answers world results rule }
{}

/// The cache that a run leaves is right where the one that it found was, whichever rules, files and classes either run had.
pub fn left_caches_are_right<R>()
    ensures { (files : Files R) (world : Name → Answer) (found : Cache) (held : List R) (list : List File) (c : Cache)
        → IsRightCache files found → IsLeftCache files world found held list c → IsRightCache files c }
{}

/// So its text fits for every later run, where what was found fits and the cache fits its fields.
pub fn left_caches_fit<R>()
    ensures { (files : Files R) (world : Name → Answer) (content : Option (List ℕ)) (found : Cache) (held : List R) (list : List File) (c : Cache)
        → CacheFits files content → IsFound content found → IsLeftCache files world found held list c → FitsFields c → CacheFits files (Some (text_two c)) }
{}

/// What a run leaves of a file says of each of its rules what the rule comes to in the world. So the head of the file with what is said
/// of the rules, one after the other and merged in any way, is what the rules mean together.
pub fn left_entries_say_what_rules_mean<R, Rows>()
    ensures each_rule { (files : Files R) (world : Name → Answer) (found : Cache) (held : List R) (file : File) (e : Entry)
        → IsRightCache files found → IsLeftEntry files world found held file e → All (IsSaid (rules_at files file.0 file.1) world e.results) held }
    ensures merged { (files : Files R) (world : Name → Answer) (found : Cache) (held : List R) (file : File) (e : Entry) (merge : Head → List Ruled → Rows)
        → IsRightCache files found → IsLeftEntry files world found held file e
        → (names : NameSet) × Means (whole world) (bind (each (rules_at files file.0 file.1).meaning held) (λ results. Return (merge (files.head file.1) results)))
        (Gives (merge e.head (map (rows_at (rules_at files file.0 file.1) e.results) held)) names) }
{}

/// There is at most one cache that a run leaves.
pub fn one_left_cache<R>()
    ensures { (files : Files R) (world : Name → Answer) (found : Cache) (held : List R) (list : List File) (first second : Cache)
        → IsLeftCache files world found held list first → IsLeftCache files world found held list second → first ≡ second }
{}

/// Over what a run left, with the same rules, files and classes, each file is used again as it is, and the same is left again.
pub fn second_runs_reuse_all<R>()
    ensures { (files : Files R) (world : Name → Answer) (found : Cache) (held : List R) (c : Cache) (list : List File)
        → IsLeftCache files world found held list c → All (λ file. is_reusable files c world held file ≡ true) list × IsLeftCache files world c held list c }
{}

/// Where what was found is right, the names that a run asks for at a file are enough: what each of its rules asks for there is among them.
pub fn looked_names_are_enough<R>()
    ensures { (files : Files R) (world : Name → Answer) (found : Cache) (held : List R) (file : File) (names : NameSet)
        → IsRightCache files found → LookedFile files found world held file names → All (AsksWithin (rules_at files file.0 file.1) world names) held }
{}

/// There is at most one set of names for which a run asks.
pub fn one_looked<R>()
    ensures { (files : Files R) (found : Cache) (world : Name → Answer) (held : List R) (list : List File) (first second : NameSet)
        → Looked files found world held list first → Looked files found world held list second → first ≡ second }
{}

/// New results are made for just the keys of active rules that are not served, and so for none where each of them is served.
pub fn results_are_made_where_none_serve()
    ensures keys { (answers : List (Name × Answer)) (world : Name → Answer) (keys : List Key) (old : List CachedResult) → missing (kept answers world keys old) keys ≡ filter (λ key. not (is_served answers world old key)) keys }
    ensures none { (answers : List (Name × Answer)) (world : Name → Answer) (keys : List Key) (old : List CachedResult) → list_all (is_served answers world old) keys ≡ true → missing (kept answers world keys old) keys ≡ [] }
{}
