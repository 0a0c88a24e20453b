//! Laws of expressions of one tree, and of known patterns. The functions do nothing, and their contracts are the laws.
ghost use Rattle.pj_xlaws.specs.TreeLaws.{DenotesByFacts, DenotesByPatterns, DenotesByTree, DenotesOfTree};

/// Expressions of one tree denote the same.
pub fn trees_tell_expressions()
    ensures { DenotesByTree }
{}

/// What an expression denotes asks of the patterns that are known only which are among them.
pub fn patterns_are_a_set()
    ensures { DenotesByPatterns }
{}

/// What an expression denotes is of the tree, and asks of the attributes only those of the tree's nodes.
pub fn tree_facts_alone()
    ensures of_tree { DenotesOfTree }
    ensures facts { DenotesByFacts }
{}
