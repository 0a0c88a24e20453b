//! Laws of the tables, each the contract of a call that does nothing.

ghost use Rattle.pj_node_functions.specs.Laws.{AreAllModifiers, ExpressionsAreOneGroup, WordsAscend};

/// The words of modifiers are those of all modifiers, in the order of their bytes.
pub fn modifiers_are_in_order()
    ensures all { AreAllModifiers }
    ensures order { WordsAscend }
{}

/// The group `Expression` has just the kinds of nodes that have the attributes of expressions.
pub fn expressions_are_one_group()
    ensures { ExpressionsAreOneGroup }
{}
