//! Grammars written as tables of pieces.

use pj_grammar::{Piece, items_of};
use pj_peg::{Grammar, WellFormed};
use pj_peg_grammar::GrammarFault;
use std::alloc::Global;

/// The grammar of the rules that the pieces stand for, or its fault. No rule at all, and more rules than there may be, are want
/// of memory, which no row wants.
pub fn grammar(alloc: Global, pieces: &[Piece]) -> Result<WellFormed, GrammarFault> {
    let rules = items_of(alloc, pieces)?;
    if rules.len() == 0 || rules.len() > 65536 {
        return Err(GrammarFault::Memory);
    }
    Grammar::new(rules).checked(alloc)
}
