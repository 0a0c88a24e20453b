//! Values of one other.

ghost use Rattle.std.specs.Prelude.{◌≡◌, map, IfOk, Some};
ghost use Rattle.pj_xtokens.specs.Answer.{lexed_of};
ghost use Rattle.pj_xreadings.specs.Seen.{seen_reading};
ghost use Rattle.pj_xmeaning.specs.Parts.{Compared, One, UpTo, operand};
ghost use Rattle.pj_xmeaning.specs.Seen.{seen_part};
ghost use Rattle.pj_xmeaning.specs.Values.{up_to, variable_named, change_value, single_value};

use crate::action::{Change, Single};
use crate::part::Part;
use crate::step::named;
use pj_base::{NoMemory, Text};
use pj_xexpressions::{Axis, Compare, NodeTest};
use pj_xreadings::{
    Reading, along, child_step, context_item, cut_variable, descendants, filtered, kind_test,
    parenthesized, path, rooted, signed, variable,
};
use pj_xtokens::{Token, first_text};
use std::alloc::Global;

/// The second operand of a comparison behind its operator.
fn compared<'t>(alloc: Global, compare: Compare, part: Part<'t>) -> Result<Part<'t>, NoMemory>
    ensures { IfOk result (λ made. seen_part made ≡ Compared (Some (compare, operand (seen_part part.entry)))) }
{
    let second = Box::new(alloc, part.into_reading(alloc))?;
    Ok(Part::Compared(Some((compare, second))))
}

/// The operand up to which another one ranges, unless it is cut off.
fn up_to<'t>(alloc: Global, part: Part<'t>) -> Result<Part<'t>, NoMemory>
    ensures { IfOk result (λ made. seen_part made ≡ UpTo (up_to (seen_part part.entry))) }
{
    match part {
        Part::Missing => Ok(Part::UpTo(None)),
        operand => {
            let last = Box::new(alloc, operand.into_reading(alloc))?;
            Ok(Part::UpTo(Some(last)))
        }
    }
}

/// What a production makes of the value of its rule, where it begins with the first of the tokens.
pub fn change<'t>(
    alloc: Global,
    change: Change,
    tokens: &[Token<'t>],
    part: Part<'t>,
) -> Result<Part<'t>, NoMemory>
    ensures { IfOk result (λ made. seen_part made ≡ change_value change (map lexed_of tokens.now) (seen_part part.entry)) }
{
    Ok(match change {
        Change::Bindings => Part::Bound(part.into_bound(alloc)),
        Change::Word => Part::Word(part.into_word()),
        Change::Compared(compare) => compared(alloc, compare, part)?,
        Change::UpTo => up_to(alloc, part)?,
        Change::NameTest => {
            let name = Text::from_str(alloc, part.into_word())?;
            Part::Test(NodeTest::Name(name))
        }
        Change::KindTest(kind) => {
            let there = part.into_parentheses();
            Part::Test(kind_test(alloc, kind, first_text(tokens), there)?)
        }
        Change::Predicates => Part::Predicates(part.into_readings(alloc)),
    })
}

/// The variable whose `$` is the first token; where its name is cut off, what can be said of it.
fn variable_named<'t>(
    alloc: Global,
    tokens: &[Token<'t>],
    part: Part<'t>,
) -> Result<Reading<'t>, NoMemory>
    ensures { IfOk result (λ made. seen_reading made ≡ variable_named (map lexed_of tokens.now) (seen_part part.entry)) }
{
    match part {
        Part::Missing => cut_variable(alloc, tokens),
        name => variable(alloc, tokens, name.into_word()),
    }
}

/// The expression that a production makes of the value of its rule, where it begins with the first of the tokens.
pub fn single<'t>(
    alloc: Global,
    single: Single,
    tokens: &[Token<'t>],
    part: Part<'t>,
) -> Result<Reading<'t>, NoMemory>
    ensures { IfOk result (λ made. seen_reading made ≡ single_value single (map lexed_of tokens.now) (seen_part part.entry)) }
{
    match single {
        Single::Same => Ok(part.into_reading(alloc)),
        Single::Parenthesized => Ok(parenthesized(part.into_reading(alloc))),
        Single::Signed(sign) => signed(alloc, sign, part.into_reading(alloc)),
        Single::RootedPath => rooted(alloc, part.into_readings(alloc)),
        Single::RootedDescendants => {
            let steps = part.into_readings(alloc).put(descendants(alloc))?;
            rooted(alloc, steps)
        }
        Single::RelativePath => path(alloc, part.into_readings(alloc)),
        Single::ContextItem => {
            let item = context_item(alloc);
            filtered(alloc, item, part.into_readings(alloc))
        }
        Single::ParentStep => {
            let predicates = part.into_readings(alloc);
            along(alloc, Axis::Parent, NodeTest::AnyNode, predicates)
        }
        Single::AnyNameStep => child_step(alloc, NodeTest::AnyName, part.into_readings(alloc)),
        Single::AxisStep => named(alloc, tokens, first_text(tokens), part),
        Single::Variable => variable_named(alloc, tokens, part),
    }
}

/// The expression of the one rule, which is left as it is.
fn same<'t>(alloc: Global, part: Part<'t>) -> Result<Part<'t>, NoMemory>
    ensures { IfOk result (λ made. seen_part made ≡ One (operand (seen_part part.entry))) }
{
    match part {
        Part::One(reading) => Ok(Part::One(reading)),
        other => Part::of_reading(alloc, other.into_reading(alloc)),
    }
}

/// The value of the expression that a production makes of the value of its rule, where it begins with the first of the tokens.
pub fn expression<'t>(
    alloc: Global,
    action: Single,
    tokens: &[Token<'t>],
    part: Part<'t>,
) -> Result<Part<'t>, NoMemory>
    ensures { IfOk result (λ made. seen_part made ≡ One (single_value action (map lexed_of tokens.now) (seen_part part.entry))) }
{
    match action {
        Single::Same => same(alloc, part),
        _ => Part::of_reading(alloc, single(alloc, action, tokens, part)?),
    }
}
