//! Reading of a grammar that is given as one list of pieces.
ghost use Rattle.std.specs.Prelude.{◌≡◌, IfOk, map};
ghost use Rattle.pj_ll.specs.Grammar.{at_end_in, entries_of, on_in, symbols_in};
ghost use Rattle.pj_ll.specs.Entries.{entry_of};

use crate::grammar::{Piece, Production, Symbol};
use pj_base::NoMemory;
use std::alloc::Global;

/// The production of the rule, by the pieces behind its first one.
fn production_of(alloc: Global, rule: u16, behind: &[Piece]) -> Result<Production, NoMemory>
    ensures { IfOk result (λ x. entry_of x ≡ record { rule = rule; symbols = symbols_in behind.now; on = on_in behind.now; at_end = at_end_in behind.now }) }
{
    let mut symbols = Vec::new(alloc);
    let mut on = Vec::new(alloc);
    let mut at_end = false;
    for piece in behind {
        match *piece {
            Piece::Production(_) => break,
            Piece::Terminal(terminal) => symbols.push(Symbol::Terminal(terminal))?,
            Piece::Rule(rule) => symbols.push(Symbol::Rule(rule))?,
            Piece::LeftOut(terminal) => symbols.push(Symbol::LeftOut(terminal))?,
            Piece::Close => symbols.push(Symbol::Close)?,
            Piece::On(terminal) => on.push(terminal)?,
            Piece::AtEnd => at_end = true,
        }
    }
    Ok(Production {
        rule,
        symbols,
        on,
        at_end,
    })
}

/// The productions that the pieces spell.
pub fn productions_of(alloc: Global, pieces: &[Piece]) -> Result<Vec<Production>, NoMemory>
    ensures { IfOk result (λ productions. map entry_of productions.items ≡ entries_of pieces.now) }
{
    let mut productions = Vec::new(alloc);
    for at in 0..pieces.len() {
        if let Piece::Production(rule) = pieces[at] {
            let production = production_of(alloc, rule, &pieces[at + 1..])?;
            productions.push(production)?;
        }
    }
    Ok(productions)
}
