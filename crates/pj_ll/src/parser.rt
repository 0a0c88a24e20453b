//! The predictive parser: a leftmost derivation, or the first place at which there is none.
ghost use Rattle.std.specs.Prelude.{◌≡◌, ℕ, ◌+◌, ◌<◌, ◌^◌, List, length, slice_get, IfOk, IfSome, IfNone, OnOk, IsTrue, ◌↔◌, Some, take};
ghost use Rattle.pj_ll.specs.Grammar.{grammar_of, closes};
ghost use Rattle.pj_ll.specs.Outcome.{IsEnd, LeadTo};
ghost use Rattle.pj_ll.specs.Predictive.{RuleFacts, IsPredictive};
ghost use Rattle.pj_ll.specs.Parsing.{HasComeTo, HasEnded, HasLed, HasMoved, IsStack};
ghost use Rattle.pj_ll.specs.Steps.{ArePlaced, productions_in};

use crate::grammar::Symbol;
use crate::stack::Stack;
use crate::table::Table;
use pj_base::NoMemory;
use std::alloc::Global;

/// How a run of the parser ended. Places are counted from 0, and the number of terminals is the place of the end.
#[derive(Clone, Copy, Debug, PartialEq, Eq)]
pub enum End {
    /// The terminals are a sentence.
    Whole,
    /// What stands at this place cannot follow the terminals before it.
    Stops(u32),
    /// A construct that the language leaves out would begin at this place.
    LeftOut(u32),
    /// At this place more is open than may be.
    TooDeep(u32),
}

/// A production of a leftmost derivation, where it is used.
#[derive(Clone, Copy)]
pub struct Step {
    /// Its number.
    pub production: u16,
    /// How many terminals stand before what it derives: the place at which it begins, from 0.
    pub place: u32,
}

/// A run of the parser: the productions of the leftmost derivation, as far as it came, and how it ended.
#[derive(Drop)]
pub struct Run {
    /// The productions, in the order in which they are used. Where the run ended at a place, they are those that are used up to
    /// the terminal before it.
    pub steps: Vec<Step>,
    /// How the run ended.
    pub end: End,
}

/// Replaces rules and passes over ends at the place until a terminal is next, nothing is left, or nothing is chosen.
fn expand(
    table: &Table,
    ahead: Option<u16>,
    place: u32,
    stack: &mut Stack,
    steps: &mut Vec<Step>,
) -> Result<(), NoMemory>
    ghost facts: { List RuleFacts }
    requires predictive { IsPredictive facts table.now }
    requires stack { IsStack facts stack.old }
    ensures moved { OnOk result (HasMoved facts table.now ahead stack.old (productions_in steps.old.items) stack.new (productions_in steps.new.items)) }
    ensures led { OnOk result ((terminals : List ℕ) → HasLed (grammar_of table.now) terminals place steps.old.items stack.old →
        HasLed (grammar_of table.now) terminals place steps.new.items stack.new) }
{
    while let Some(symbol) = stack.top() {
        match symbol {
            Symbol::Terminal(_) | Symbol::LeftOut(_) => return Ok(()),
            Symbol::Close => stack.pop(),
            Symbol::Rule(rule) => match table.choice(rule, ahead) {
                None => return Ok(()),
                Some(production) => {
                    steps.push(Step { production, place })?;
                    stack.pop();
                    stack.put(table.symbols(production))?;
                }
            },
        }
    }
    Ok(())
}

/// Goes past the terminal at the place, or says how the run ends there.
fn advance(
    table: &Table,
    terminals: &[u16],
    deepest: u32,
    place: u32,
    stack: &mut Stack,
    steps: &mut Vec<Step>,
) -> Result<Option<End>, NoMemory>
    ghost facts: { List RuleFacts }
    requires predictive { IsPredictive facts table.now }
    requires place { place < length terminals.now }
    requires come { HasComeTo facts table.now terminals.now deepest place stack.old (productions_in steps.old.items) }
    ensures past { IfOk result (λ end. IfNone end (HasComeTo facts table.now terminals.now deepest (place + 1) stack.new (productions_in steps.new.items))) }
    ensures ended { IfOk result (λ end. IfSome end (HasEnded table.now terminals.now deepest (productions_in steps.new.items))) }
    ensures places { OnOk result (ArePlaced (grammar_of table.now) terminals.now steps.old.items → ArePlaced (grammar_of table.now) terminals.now steps.new.items) }
{
    let terminal = terminals[place as usize];
    let is_deep = stack.closes() > deepest as usize;
    let written = steps.len();
    expand(table, Some(terminal), place, stack, steps)?;
    if !is_deep && stack.begins_with(Symbol::Terminal(terminal)) {
        stack.pop();
        return Ok(None);
    }
    steps.truncate(written);
    if stack.begins_with(Symbol::LeftOut(terminal)) {
        return Ok(Some(End::LeftOut(place)));
    }
    if is_deep {
        return Ok(Some(End::TooDeep(place)));
    }
    Ok(Some(End::Stops(place)))
}

/// How the run ends behind all terminals.
fn finish(
    table: &Table,
    terminals: &[u16],
    deepest: u32,
    stack: &mut Stack,
    steps: &mut Vec<Step>,
) -> Result<End, NoMemory>
    ghost facts: { List RuleFacts }
    requires predictive { IsPredictive facts table.now }
    requires few { length terminals.now < 2 ^ 32 }
    requires come { HasComeTo facts table.now terminals.now deepest (length terminals.now) stack.old (productions_in steps.old.items) }
    ensures ended { IfOk result (HasEnded table.now terminals.now deepest (productions_in steps.new.items)) }
    ensures places { OnOk result (ArePlaced (grammar_of table.now) terminals.now steps.old.items → ArePlaced (grammar_of table.now) terminals.now steps.new.items) }
{
    let place = terminals.len() as u32;
    let is_deep = stack.closes() > deepest as usize;
    let written = steps.len();
    expand(table, None, place, stack, steps)?;
    if !is_deep && stack.is_empty() {
        return Ok(End::Whole);
    }
    steps.truncate(written);
    if is_deep {
        return Ok(End::TooDeep(place));
    }
    Ok(End::Stops(place))
}

/// The run of the predictive parser over the terminals: their leftmost derivation, or the first place at which something is
/// left out, more than `deepest` things that nest are open, or what stands there cannot follow. It fails only for want of
/// memory.
pub fn parse(alloc: Global, table: &Table, terminals: &[u16], deepest: u32) -> Result<Run, NoMemory>
    ghost facts: { List RuleFacts }
    requires predictive { IsPredictive facts table.now }
    requires few { length terminals.now < 2 ^ 32 }
    ensures ends { IfOk result (λ run. IsEnd (grammar_of table.now) terminals.now deepest run.end) }
    ensures leads { IfOk result (λ run. LeadTo (grammar_of table.now) terminals.now (productions_in run.steps.items) run.end) }
    ensures places { IfOk result (λ run. ArePlaced (grammar_of table.now) terminals.now run.steps.items) }
{
    let mut stack = Stack::new(alloc);
    stack.put(&[Symbol::Rule(0)])?;
    let mut steps = Vec::new(alloc);
    for place in 0..terminals.len() as u32 {
        if let Some(end) = advance(table, terminals, deepest, place, &mut stack, &mut steps)? {
            return Ok(Run { steps, end });
        }
    }
    let end = finish(table, terminals, deepest, &mut stack, &mut steps)?;
    Ok(Run { steps, end })
}
