//! Expressions in a row.

ghost use Rattle.std.specs.Prelude.{◌≡◌, ◌++◌, map, IfOk};
ghost use Rattle.pj_xexpressions.specs.Trees.{tree_of};
ghost use Rattle.pj_xreadings.specs.Operands.{trees_of, names_of};
ghost use Rattle.pj_xreadings.specs.Seen.{seen_mentions, seen_reading};

use crate::front::Front;
use crate::named::Named;
use crate::operand::Reading;
use pj_base::NoMemory;
use pj_xexpressions::Expr;
use std::alloc::Global;

/// What both name, the first one before the other.
#[tactic(auto, using(crate::proofs::Lists::joined))]
pub fn before<'t>(
    mut first: Vec<Named<'t>>,
    mut behind: Vec<Named<'t>>,
) -> Result<Vec<Named<'t>>, NoMemory>
    ensures { IfOk result (λ all. seen_mentions all.items ≡ seen_mentions first.entry.items ++ seen_mentions behind.entry.items) }
{
    if behind.is_empty() {
        return Ok(first);
    }
    behind.append(&mut first)?;
    Ok(behind)
}

/// The expressions in a row, and what they name, from the last on.
pub fn apart<'t>(
    alloc: Global,
    readings: Front<Reading<'t>>,
) -> Result<(Vec<Expr>, Vec<Named<'t>>), NoMemory>
    ensures exprs { IfOk result (λ made. map tree_of made.0.items ≡ trees_of (map seen_reading readings.entry)) }
    ensures names { IfOk result (λ made. seen_mentions made.1.items ≡ names_of (map seen_reading readings.entry)) }
{
    let mut exprs = Front::new(alloc);
    let mut all = Vec::new(alloc);
    'readings: for reading in readings.into_reversed() {
        let Reading { expr, names, .. } = reading;
        exprs = exprs.put(expr)?;
        all = before(names, all)?;
    }
    Ok((exprs.into_vec(), all))
}
