//! A law of the patterns of expressions. The function does nothing, and its contract is the law.
ghost use Rattle.pj_xpatterns.specs.Laws.{PatternsByTree};

/// Expressions of one tree have the same patterns.
pub fn trees_tell_patterns()
    ensures { PatternsByTree }
{}
