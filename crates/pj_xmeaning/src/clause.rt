//! Values of two or three others: variables and choices.

ghost use Rattle.std.specs.Prelude.{◌≡◌, ◌∷◌, IfOk};
ghost use Rattle.pj_xreadings.specs.Constructs.{binder_of};
ghost use Rattle.pj_xreadings.specs.Operands.{bound, chosen};
ghost use Rattle.pj_xreadings.specs.Seen.{seen_reading};
ghost use Rattle.pj_xmeaning.specs.Parts as parts;
ghost use Rattle.pj_xmeaning.specs.Parts.{bindings, operand, word};
ghost use Rattle.pj_xmeaning.specs.Seen.{seen_part};

use crate::part::Part;
use pj_base::NoMemory;
use pj_xreadings::{Binder, Bound, Reading, bound, choice};
use std::alloc::Global;

/// Variables and what follows them.
pub fn scope<'t>(
    alloc: Global,
    word: Binder,
    variables: Part<'t>,
    body: Part<'t>,
) -> Result<Reading<'t>, NoMemory>
    ensures { IfOk result (λ made. seen_reading made ≡ bound (binder_of word) (bindings (seen_part variables.entry)) (operand (seen_part body.entry))) }
{
    let variables = variables.into_bound(alloc);
    bound(alloc, word, variables, body.into_reading(alloc))
}

/// A variable with its expression, before others.
pub fn binding<'t>(
    alloc: Global,
    name: Part<'t>,
    value: Part<'t>,
    others: Part<'t>,
) -> Result<Part<'t>, NoMemory>
    ensures { IfOk result (λ made. seen_part made
        ≡ parts.Bound (record { name = word (seen_part name.entry); bound = operand (seen_part value.entry) } ∷ bindings (seen_part others.entry))) }
{
    let variable = Bound {
        name: name.into_word(),
        value: value.into_reading(alloc),
    };
    Ok(Part::Bound(others.into_bound(alloc).put(variable)?))
}

/// The choice between two expressions (XPath 2.0, 3.8).
pub fn condition<'t>(
    alloc: Global,
    test: Part<'t>,
    yes: Part<'t>,
    no: Part<'t>,
) -> Result<Reading<'t>, NoMemory>
    ensures { IfOk result (λ made. seen_reading made ≡ chosen (operand (seen_part test.entry)) (operand (seen_part yes.entry)) (operand (seen_part no.entry))) }
{
    let test = test.into_reading(alloc);
    let yes = yes.into_reading(alloc);
    choice(alloc, test, yes, no.into_reading(alloc))
}
