//! Laws of files over a cache, each the contract of a call that does nothing.
ghost use Rattle.std.specs.Prelude.{◌≡◌, ℕ, List};
ghost use Rattle.pj_cache.specs.declared.cache.Cache.{Cache};
ghost use Rattle.pj_cache_laws.specs.Written.{AreFiles, AreWrittenRules, WrittenRule};
ghost use Rattle.pj_cached_files.specs.Asked.{reused_at};
ghost use Rattle.pj_fitting.specs.Left.{File};
ghost use Rattle.pj_fitting.specs.Looked.{is_reusable};
ghost use Rattle.pj_fitting.specs.Right.{Files};
ghost use Rattle.pj_names.specs.Asking.{value_of};
ghost use Rattle.pj_rule_sets.specs.Rules.{EffectiveRules};
ghost use Rattle.pj_workers.specs.Cold.{World};
ghost use Rattle.pj_workers.specs.JavaReplies.{java_replies};
ghost use Rattle.pj_workers.specs.Rules.{Rule};

/// In a world the question whether a file is used again has the answer that it can be, for the rules of a set as they are written.
pub fn reused_is()
    ensures { (depth : ℕ) (world : World) (found : Cache) (files : Files WrittenRule) (set : EffectiveRules) (rules : List Rule) (held : List WrittenRule) (file : File) → AreFiles java_replies files → AreWrittenRules set rules held
        → value_of depth world (reused_at found set rules file) ≡ is_reusable files found world held file }
{}
