//! Operands with what stands behind them.

ghost use Rattle.std.specs.Prelude.{◌≡◌, IfOk};
ghost use Rattle.pj_xreadings.specs.Seen.{seen_reading};
ghost use Rattle.pj_xmeaning.specs.Parts.{One};
ghost use Rattle.pj_xmeaning.specs.Seen.{seen_part};
ghost use Rattle.pj_xmeaning.specs.Values.{operation_value};

use crate::action::Operation;
use crate::part::Part;
use pj_base::NoMemory;
use pj_xreadings::{Reading, chain_of, comparison, product, range, sets, sum};
use std::alloc::Global;

/// The expression of an operand and what stands behind it.
fn operated<'t>(
    alloc: Global,
    operation: Operation,
    first: Part<'t>,
    behind: Part<'t>,
) -> Result<Reading<'t>, NoMemory>
    ensures { IfOk result (λ made. seen_reading made ≡ operation_value operation (seen_part first.entry) (seen_part behind.entry)) }
{
    let operand = first.into_reading(alloc);
    match operation {
        Operation::Chain(operator) => chain_of(
            alloc,
            operator,
            operand,
            behind.into_readings(alloc),
        ),
        Operation::Comparison => comparison(alloc, operand, behind.into_compared()),
        Operation::Range => range(alloc, operand, behind.into_range()),
        Operation::Sum => sum(alloc, operand, behind.into_sums(alloc)),
        Operation::Product => product(alloc, operand, behind.into_products(alloc)),
        Operation::Sets => sets(alloc, operand, behind.into_sets(alloc)),
        Operation::Operand => {
            behind.let_go();
            Ok(operand)
        }
    }
}

/// The value of an operand and what stands behind it. An operand behind which nothing stands is left as it is, since each one comes through all
/// levels of operators.
#[tactic(auto, using(crate::proofs::Alone::left_alone))]
pub fn operation<'t>(
    alloc: Global,
    operation: Operation,
    first: Part<'t>,
    behind: Part<'t>,
) -> Result<Part<'t>, NoMemory>
    ensures { IfOk result (λ made. seen_part made ≡ One (operation_value operation (seen_part first.entry) (seen_part behind.entry))) }
{
    if first.is_one() && behind.is_end() {
        behind.let_go();
        return Ok(first);
    }
    Part::of_reading(alloc, operated(alloc, operation, first, behind)?)
}
