//! Steps, with what they begin with and what stands behind that.

ghost use Rattle.std.specs.Prelude.{◌≡◌, map, IfOk};
ghost use Rattle.pj_xtokens.specs.Answer.{lexed_of};
ghost use Rattle.pj_xreadings.specs.Operands.{named};
ghost use Rattle.pj_xreadings.specs.Seen.{seen_reading};
ghost use Rattle.pj_xmeaning.specs.Parts.{tail};
ghost use Rattle.pj_xmeaning.specs.Seen.{seen_part};
ghost use Rattle.pj_xmeaning.specs.Values.{step_value};

use crate::action::Step;
use crate::part::Part;
use pj_base::{NoMemory, Text};
use pj_xexpressions::NodeTest;
use pj_xreadings::{
    Front, Reading, attribute_step, axis_step, child_step, filtered, function_call, kind_test,
};
use pj_xtokens::{Token, first_from, first_text};
use std::alloc::Global;

/// A step whose first token is a name, with what stands behind it: a call with its arguments, a step of the axis with its test, or a step
/// to children.
pub fn named<'t>(
    alloc: Global,
    tokens: &[Token<'t>],
    name: &'t str,
    behind: Part<'t>,
) -> Result<Reading<'t>, NoMemory>
    ensures { IfOk result (λ made. seen_reading made ≡ named (map lexed_of tokens.now) name.now (tail (seen_part behind.entry))) }
{
    match behind {
        Part::AxisTest(test, predicates) => axis_step(alloc, name, test, predicates),
        Part::Called(arguments, predicates) => {
            function_call(alloc, name, first_from(tokens), arguments, predicates)
        }
        Part::Predicates(predicates) => {
            let test = NodeTest::Name(Text::from_str(alloc, name)?);
            child_step(alloc, test, predicates)
        }
        other => {
            other.let_go();
            let test = NodeTest::Name(Text::from_str(alloc, name)?);
            child_step(alloc, test, Front::new(alloc))
        }
    }
}

/// What a step or a primary expression says, by what it begins with and what stands behind that. The token that it begins with is the first.
pub fn step<'t>(
    alloc: Global,
    step: Step,
    tokens: &[Token<'t>],
    first: Part<'t>,
    behind: Part<'t>,
) -> Result<Reading<'t>, NoMemory>
    ensures { IfOk result (λ made. seen_reading made ≡ step_value step (map lexed_of tokens.now) (seen_part first.entry) (seen_part behind.entry)) }
{
    match step {
        Step::Primary => {
            let primary = first.into_reading(alloc);
            filtered(alloc, primary, behind.into_readings(alloc))
        }
        Step::Attribute => attribute_step(alloc, first.into_test(), behind.into_readings(alloc)),
        Step::Kind(kind) => {
            let test = kind_test(alloc, kind, first_text(tokens), first.into_parentheses())?;
            child_step(alloc, test, behind.into_readings(alloc))
        }
        Step::Name => named(alloc, tokens, first.into_word(), behind),
    }
}
