//! Values of two others that are no expressions.

ghost use Rattle.std.specs.Prelude.{◌≡◌, ◌∷◌, map, IfOk};
ghost use Rattle.pj_xtokens.specs.Answer.{lexed_of};
ghost use Rattle.pj_xreadings.specs.Operands.{Next};
ghost use Rattle.pj_xreadings.specs.Seen.{seen_reading, seen_arguments};
ghost use Rattle.pj_xmeaning.specs.Parts.{operand, operands, arguments};
ghost use Rattle.pj_xmeaning.specs.Seen.{seen_part};
ghost use Rattle.pj_xmeaning.specs.Values.{rest_value};

use crate::action::Rest;
use crate::part::Part;
use pj_base::NoMemory;
use pj_xreadings::{Front, Given, Reading, descendants};
use pj_xtokens::{Token, behind_first, first_from};
use std::alloc::Global;

/// An expression before others.
fn further<'t>(
    alloc: Global,
    first: Part<'t>,
    others: Part<'t>,
) -> Result<Front<Reading<'t>>, NoMemory>
    ensures { IfOk result (λ made. map seen_reading made ≡ operand (seen_part first.entry) ∷ operands (seen_part others.entry)) }
{
    others.into_readings(alloc).put(first.into_reading(alloc))
}

/// An argument that begins at the offset, before others.
fn argument<'t>(
    alloc: Global,
    from: u32,
    first: Part<'t>,
    others: Part<'t>,
) -> Result<Given<'t>, NoMemory>
    ensures { IfOk result (λ made. seen_arguments made ≡ Next from (operand (seen_part first.entry)) (arguments (seen_part others.entry))) }
{
    let Given { list, closed } = others.into_given(alloc);
    Ok(Given {
        list: list.put((from, first.into_reading(alloc)))?,
        closed,
    })
}

/// What a production makes of the values of its rules, where it begins with the first of the tokens.
pub fn rest<'t>(
    alloc: Global,
    rest: Rest,
    tokens: &[Token<'t>],
    first: Part<'t>,
    others: Part<'t>,
) -> Result<Part<'t>, NoMemory>
    ensures { IfOk result (λ made. seen_part made ≡ rest_value rest (map lexed_of tokens.now) (seen_part first.entry) (seen_part others.entry)) }
{
    Ok(match rest {
        Rest::Further => Part::Many(further(alloc, first, others)?),
        Rest::FurtherDescendants => {
            let steps = further(alloc, first, others)?;
            Part::Many(steps.put(descendants(alloc))?)
        }
        Rest::FurtherSum(operator) => {
            let operand = (operator, first.into_reading(alloc));
            Part::Sums(others.into_sums(alloc).put(operand)?)
        }
        Rest::FurtherProduct(operator) => {
            let operand = (operator, first.into_reading(alloc));
            Part::Products(others.into_products(alloc).put(operand)?)
        }
        Rest::FurtherSet(operator) => {
            let operand = (operator, first.into_reading(alloc));
            Part::Sets(others.into_sets(alloc).put(operand)?)
        }
        Rest::FirstArgument => Part::Given(argument(alloc, first_from(tokens), first, others)?),
        Rest::FurtherArgument => {
            let from = first_from(behind_first(tokens));
            Part::Given(argument(alloc, from, first, others)?)
        }
        Rest::AxisTest => Part::AxisTest(first.into_test(), others.into_readings(alloc)),
        Rest::Called => Part::Called(first.into_given(alloc), others.into_readings(alloc)),
    })
}
