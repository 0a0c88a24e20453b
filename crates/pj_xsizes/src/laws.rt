//! Laws of sizes. The functions do nothing, and their contracts are the laws.
ghost use Rattle.pj_xsizes.specs.Laws.{SomeExpression};

use pj_xtokens::{gaps_stand_in_front, tokens_are_not_empty};

/// What a text of at most 2^32 characters spells is the tree of an `Expr`: each of its lists is no longer than three times the text, so that a
/// vector has room for it.
pub fn some_expression()
    ensures { SomeExpression }
{
    gaps_stand_in_front();
    tokens_are_not_empty();
}
