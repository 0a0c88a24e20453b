//! The grammar of expressions.

ghost use Rattle.std.specs.Prelude.{◌≡◌};
ghost use Rattle.pj_ll.specs.Grammar.{entries_of, grammar_of};
ghost use Rattle.pj_xderive.specs.declared.table.TheConstants.{PIECES};
ghost use Rattle.pj_xgrammar.specs.XPath.{xpath_grammar};

use crate::table::PIECES;
use pj_ll::Piece;

/// The productions by their numbers, with their select sets.
#[tactic(none)]
pub(crate) fn pieces() -> &'static [Piece]
    ensures table { result.now ≡ PIECES }
{
    &PIECES
}

/// The productions of the grammar by their numbers, with their select sets.
#[tactic(none)]
pub fn productions() -> &'static [Piece]
    ensures grammar { grammar_of (entries_of result.now) ≡ xpath_grammar }
{
    pieces()
}
