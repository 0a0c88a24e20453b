//! What tokens say by the productions of their derivation.

ghost use Rattle.std.specs.Prelude.{◌≡◌, drop, map, IfOk, OnOk};
ghost use Rattle.pj_ll.specs.Outcome.{IsEnd, LeadTo};
ghost use Rattle.pj_ll.specs.Steps.{ArePlaced, productions_in};
ghost use Rattle.pj_ll.specs.declared.parser.End.{End};
ghost use Rattle.pj_xtokens.specs.Answer.{lexed_of};
ghost use Rattle.pj_xgrammar.specs.Terminals.{numbers};
ghost use Rattle.pj_xgrammar.specs.XPath.{greatest_nesting, xpath_grammar};
ghost use Rattle.pj_xreadings.specs.Seen.{seen_reading};
ghost use Rattle.pj_xmeaning.specs.Beginnings.{beginning_at};
ghost use Rattle.pj_xmeaning.specs.Seen.{seen_part, seen_parts};
ghost use Rattle.pj_xmeaning.specs.SoFar.{SayUpTo};
ghost use Rattle.pj_xmeaning.specs.Values.{made, left, acted, said_by};

use crate::action::Action;
use crate::actions::action_of;
use crate::change::{change, expression};
use crate::clause::{binding, condition, scope};
use crate::laws::made_is_said;
use crate::leaf::leaf;
use crate::operation::operation;
use crate::part::Part;
use crate::parts::{put, take};
use crate::rest::rest;
use crate::step::step;
use pj_base::NoMemory;
use pj_ll::Step;
use pj_xreadings::Reading;
use pj_xtokens::Token;
use std::alloc::Global;

/// What the action makes of the first values, where the production begins with the first of the tokens.
fn made<'t>(
    alloc: Global,
    action: Action,
    tokens: &[Token<'t>],
    parts: &mut Vec<Part<'t>>,
) -> Result<Part<'t>, NoMemory>
    ensures value { IfOk result (λ part. seen_part part ≡ made action (map lexed_of tokens.now) (seen_parts parts.old.items)) }
    ensures others { seen_parts parts.new.items ≡ left action (seen_parts parts.old.items) }
{
    match action {
        Action::Leaf(action) => leaf(alloc, action, tokens),
        Action::Change(action) => change(alloc, action, tokens, take(parts)),
        Action::Single(action) => expression(alloc, action, tokens, take(parts)),
        Action::Rest(action) => rest(alloc, action, tokens, take(parts), take(parts)),
        Action::Operation(action) => {
            let (first, behind) = (take(parts), take(parts));
            operation(alloc, action, first, behind)
        }
        Action::Binder(action) => {
            let (variables, body) = (take(parts), take(parts));
            Part::of_reading(alloc, scope(alloc, action, variables, body)?)
        }
        Action::Step(action) => {
            let (first, behind) = (take(parts), take(parts));
            Part::of_reading(alloc, step(alloc, action, tokens, first, behind)?)
        }
        Action::If => {
            let (test, yes, no) = (take(parts), take(parts), take(parts));
            Part::of_reading(alloc, condition(alloc, test, yes, no)?)
        }
        Action::Binding => {
            let (name, value, others) = (take(parts), take(parts), take(parts));
            binding(alloc, name, value, others)
        }
    }
}

/// Puts what the action makes of the first values in their place, where the production begins with the first of the tokens.
fn act<'t>(
    alloc: Global,
    action: Action,
    tokens: &[Token<'t>],
    parts: &mut Vec<Part<'t>>,
) -> Result<(), NoMemory>
    ensures { OnOk result (seen_parts parts.new.items ≡ acted action (map lexed_of tokens.now) (seen_parts parts.old.items)) }
{
    let part = made(alloc, action, tokens, parts)?;
    put(parts, part)
}

/// The tokens from a place on; past their end there are none.
fn from_place<'a, 't>(tokens: &'a [Token<'t>], place: u32) -> &'a [Token<'t>]
    ensures { result.now ≡ drop place tokens.now }
{
    let place = place as usize;
    if place < tokens.len() {
        &tokens[place..]
    } else {
        &[]
    }
}

/// What tokens say by the productions of a leftmost derivation, with the places at which they begin. It is made from the last one on.
fn said<'t>(alloc: Global, steps: &[Step], tokens: &[Token<'t>]) -> Result<Reading<'t>, NoMemory>
    ensures { IfOk result (λ a. seen_reading a ≡ said_by (map (beginning_at (map lexed_of tokens.now)) steps.now)) }
{
    let mut left = steps.len();
    let mut parts = Vec::new(alloc);
    'steps: while left > 0 {
        left -= 1;
        let step = steps[left];
        act(
            alloc,
            action_of(step.production),
            from_place(tokens, step.place),
            &mut parts,
        )?;
    }
    Ok(take(&mut parts).into_reading(alloc))
}

/// What tokens say by the productions of a run over their terminals, which stand where they begin, as far as it goes: as a whole, or as the
/// beginning of an expression. Of other productions nothing is said. It goes over them once and recurses nowhere.
pub fn reading<'t>(
    alloc: Global,
    steps: &[Step],
    tokens: &[Token<'t>],
) -> Result<Reading<'t>, NoMemory>
    ensures { IfOk result (λ a. (end : End) → IsEnd xpath_grammar (numbers (map lexed_of tokens.now)) greatest_nesting end →
        LeadTo xpath_grammar (numbers (map lexed_of tokens.now)) (productions_in steps.now) end →
        ArePlaced xpath_grammar (numbers (map lexed_of tokens.now)) steps.now → SayUpTo end (map lexed_of tokens.now) (seen_reading a)) }
{
    made_is_said();
    said(alloc, steps, tokens)
}
