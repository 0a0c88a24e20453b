//! Laws of caches that are carried over, each the contract of a call that does nothing.
ghost use Rattle.std.specs.Prelude.{List, map};
ghost use Rattle.pj_reports.specs.declared.rows.FileRows.{FileRows};
ghost use Rattle.pj_reports.specs.declared.ruled.Head.{Head};
ghost use Rattle.pj_reports.specs.declared.ruled.Ruled.{Ruled};
ghost use Rattle.pj_cache.specs.declared.old.OldCache.{OldCache};
ghost use Rattle.pj_fitting.specs.Right.{Files, IsRightCache};
ghost use Rattle.pj_carry.specs.Carried.{carried};
ghost use Rattle.pj_carry.specs.RightOld.{IsMerge, IsRightOldCache, NodesAscend, RuleLists};

/// A cache of format 1 that is right, carried over for the rules of a list, is right: whichever lists of rules have its key, and however rows are
/// merged that tell what each rule came to. The nodes of each rule are in order.
pub fn carried_caches_are_right<R, L>()
    ensures { (files : Files R) (lists : RuleLists R L) (merge : Head → List Ruled → FileRows) (old : OldCache) (list : L)
        → IsMerge merge → NodesAscend files → IsRightOldCache files lists merge old → IsRightCache files (carried old (lists.key list) (map files.key (lists.rules list))) }
{}
