//! The parser of expressions.

ghost use Rattle.std.specs.Prelude.{◌<◌, ◌^◌, IfOk, length};
ghost use Rattle.pj_ll.specs.Outcome as ll;
ghost use Rattle.pj_ll.specs.Steps.{ArePlaced, productions_in};
ghost use Rattle.pj_xgrammar.specs.XPath.{greatest_nesting, xpath_grammar};

use crate::grammar::pieces;
use pj_base::NoMemory;
use pj_ll::{Run, Table, parse, tested_tables_are_predictive};
use std::alloc::Global;
use std::marker::Model;

/// The greatest nesting of a place.
const GREATEST_NESTING: u32 = 200;

/// The predictive parser of expressions, which holds the table of the grammar. It is the same for all texts: one is made, and
/// kept for as many as are to be read.
#[derive(Drop)]
pub struct Parser {
    table: Table,
}

impl Model for Parser {
    ghost use Rattle.std.specs.Prelude.{◌≡◌, List};
    ghost use Rattle.pj_ll.specs.Grammar.{Entry, entries_of};
    ghost use Rattle.pj_xderive.specs.declared.table.TheConstants.{PIECES};

    ghost Value = { List Entry };

    ghost view = { λ parser. parser.table };

    ghost invariant = { λ parser. parser.table ≡ entries_of PIECES };
}

impl Parser {
    /// The parser. It fails only for want of memory.
    pub fn new(alloc: Global) -> Result<Parser, NoMemory> {
        let table = Table::new(alloc, pieces())?;
        Ok(Parser { table })
    }

    /// The run over terminals by their numbers.
    pub(crate) fn run(&self, alloc: Global, terminals: &[u16]) -> Result<Run, NoMemory>
        requires few { length terminals.now < 2 ^ 32 }
        ensures ends { IfOk result (λ run. ll.IsEnd xpath_grammar terminals.now greatest_nesting run.end) }
        ensures leads { IfOk result (λ run. ll.LeadTo xpath_grammar terminals.now (productions_in run.steps.items) run.end) }
        ensures places { IfOk result (λ run. ArePlaced xpath_grammar terminals.now run.steps.items) }
    {
        tested_tables_are_predictive();
        parse(alloc, &self.table, terminals, GREATEST_NESTING)
    }
}
