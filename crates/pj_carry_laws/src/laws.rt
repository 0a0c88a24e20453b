//! Laws of caches that are carried over, each the contract of a call that does nothing.
ghost use Rattle.std.specs.Prelude.{ℕ, List, Some, map};
ghost use Rattle.pj_reports.specs.declared.rows.FileRows.{FileRows};
ghost use Rattle.pj_reports.specs.declared.ruled.Head.{Head};
ghost use Rattle.pj_reports.specs.declared.ruled.Ruled.{Ruled};
ghost use Rattle.pj_cache.specs.declared.old.OldCache.{OldCache};
ghost use Rattle.pj_cache_format.specs.Decoded.{text_two};
ghost use Rattle.pj_cache_format.specs.Fitting.{FitsFields};
ghost use Rattle.pj_cache_format.specs.Ordered.{IsInOrder};
ghost use Rattle.pj_carry.specs.Carried.{Key, carried};
ghost use Rattle.pj_carry.specs.RightOld.{IsMerge, IsRightOldCache, NodesAscend, RuleLists};
ghost use Rattle.pj_findings.specs.Merged.{merge};
ghost use Rattle.pj_fitting.specs.Fits.{CacheFits};
ghost use Rattle.pj_fitting.specs.Right.{Files};
ghost use Rattle.pj_old_format.specs.OrderedOne.{IsOldInOrder};

/// The rows of a file tell what each rule came to: its nodes, or the message of its error; and whether the file has a tree.
pub fn rows_are_merged_by_rule()
    ensures { IsMerge merge }
{}

/// What a cache of format 1 becomes is in order, whichever rules it is carried over for, where the old cache keeps its format's rules.
pub fn carried_caches_are_in_order()
    ensures { (old : OldCache) (key : List ℕ) (keys : List Key) → IsOldInOrder old → IsInOrder (carried old key keys) }
{}

/// The text of what a cache of format 1 becomes fits for every later run, where the old cache is right and keeps its format's rules, and
/// the new one fits its fields.
pub fn carried_caches_fit<R, L>()
    ensures { (files : Files R) (lists : RuleLists R L) (merging : Head → List Ruled → FileRows) (old : OldCache) (list : L)
        → IsMerge merging → NodesAscend files → IsOldInOrder old → IsRightOldCache files lists merging old → FitsFields (carried old (lists.key list) (map files.key (lists.rules list)))
        → CacheFits files (Some (text_two (carried old (lists.key list) (map files.key (lists.rules list))))) }
{}
