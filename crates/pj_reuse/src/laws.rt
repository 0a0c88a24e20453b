//! Laws of what a cache serves, each the contract of a call that does nothing.
ghost use Rattle.std.specs.Prelude.{◌≡◌, ◌↔◌, ◌&&◌, ℕ, true, List, filter};
ghost use Rattle.pj_names.specs.declared.answer.Answer.{Answer};
ghost use Rattle.pj_names.specs.ClassName.{Name};
ghost use Rattle.pj_names.specs.Asking.{names_of, value_of};
ghost use Rattle.pj_cache.specs.declared.cache.CachedResult.{CachedResult};
ghost use Rattle.pj_reuse.specs.Same.{is_same_answer};
ghost use Rattle.pj_reuse.specs.Serving.{has_one, kept_results, looked_in, served, served_in, stands};

/// Answers that are the same part by part are equal, and others are not.
pub fn same_is_equal()
    ensures { (first second : Answer) → (is_same_answer first second ≡ true) ↔ (first ≡ second) }
{}

/// In a world the places served are just those of the keys that a result has, each of whose answers is the world's; and just the
/// names of the results for these keys are asked, up to the first one whose answer is another.
pub fn served_is()
    ensures places { (depth : ℕ) (world : Name → Answer) (answers : List (Name × Answer)) (results : List CachedResult) (keys : List (List ℕ)) → value_of depth world (served answers results keys) ≡ served_in answers world results keys }
    ensures names { (depth : ℕ) (world : Name → Answer) (answers : List (Name × Answer)) (results : List CachedResult) (keys : List (List ℕ)) → names_of depth world (served answers results keys) ≡ looked_in answers world results keys }
{}

/// In a world the results that are kept are just those for one of the keys, each of whose answers is the world's, in their order; and
/// just the names of the results for these keys are asked, up to the first one whose answer is another.
pub fn kept_is()
    ensures results { (depth : ℕ) (world : Name → Answer) (answers : List (Name × Answer)) (results : List CachedResult) (keys : List (List ℕ)) → value_of depth world (kept_results answers results keys) ≡ filter (λ r. has_one keys r && stands answers world r) results }
    ensures names { (depth : ℕ) (world : Name → Answer) (answers : List (Name × Answer)) (results : List CachedResult) (keys : List (List ℕ)) → names_of depth world (kept_results answers results keys) ≡ looked_in answers world results keys }
{}
