//! Where nodes end, however deep the search goes.
ghost use Rattle.std.specs.Prelude.{ℕ, ◌<◌, ◌≤◌, List, length, All, IfOk, OnOk};
ghost use Rattle.pj_peg_grammar.specs.declared.program.Program.{Program as AnyProgram};
ghost use Rattle.pj_peg_grammar.specs.Program.{form_at, forms_in, rules_of};
ghost use Rattle.pj_peg.specs.Ends.{Ends, IsSafe};
ghost use Rattle.pj_peg.specs.Plan.{IsPlan, IsSound, IsAsked};

use crate::evaluate::{end_of, end_of_column};
use crate::plan::{Halt, Memo, Plan, Question};
use pj_base::NoMemory;
use std::alloc::Global;

/// How deep a search may go: this bounds how much of the stack it takes.
const MOST_DEPTH: u32 = 1000;

/// Moves the questions that were given up to the stack, the last one first.
fn stack_up(given_up: &mut Vec<Question>, stack: &mut Vec<Question>) -> Result<(), NoMemory>
    ensures rest { (p : AnyProgram) (kinds : List ℕ) → All (IsAsked p kinds) given_up.old.items → All (IsAsked p kinds) given_up.new.items }
    ensures moved { OnOk result ((p : AnyProgram) (kinds : List ℕ) → All (IsAsked p kinds) given_up.old.items → All (IsAsked p kinds) stack.old.items → All (IsAsked p kinds) stack.new.items) }
{
    while let Some(question) = given_up.pop() {
        stack.push(question)?;
    }
    Ok(())
}

/// Answers the questions that were given up, the last one first. A question that leads too deep is given up again, with those
/// that it led to, which are answered before it.
fn answer(alloc: Global, plan: &Plan, kinds: &[u16], memo: &mut Memo) -> Result<(), NoMemory>
    requires small { length kinds.now ≤ 200000 }
    requires plan { IsPlan plan.now }
    requires sound { IsSound plan.now kinds.now memo.old }
    ensures sound { IsSound plan.now kinds.now memo.new }
{
    let mut stack = Vec::new(alloc);
    for _ in 0..u64::MAX {
        stack_up(&mut memo.given_up, &mut stack)?;
        let Some(Question { place, column }) = stack.pop() else {
            return Ok(());
        };
        match end_of_column(plan, kinds, memo, MOST_DEPTH, column, place) {
            Ok(_) | Err(Halt::Depth) => {}
            Err(Halt::Memory) => return Err(NoMemory),
        }
    }
    Err(NoMemory)
}

/// Where a node ends from a place on. Where the search went too deep, it is begun anew once the questions that were given up
/// are answered.
pub fn end_at(
    alloc: Global,
    plan: &Plan,
    kinds: &[u16],
    memo: &mut Memo,
    node: usize,
    place: u32,
) -> Result<Option<u32>, NoMemory>
    requires small { length kinds.now ≤ 200000 }
    requires plan { IsPlan plan.now }
    requires node { node < length plan.now.program.nodes.items }
    requires safe { IsSafe plan.now.program (form_at (forms_in plan.now.program.nodes.items) node) }
    requires within { place ≤ length kinds.now }
    requires sound { IsSound plan.now kinds.now memo.old }
    ensures sound { IsSound plan.now kinds.now memo.new }
    ensures ends { IfOk result (λ end. Ends (rules_of plan.now.program) kinds.now (form_at (forms_in plan.now.program.nodes.items) node) place end) }
{
    for _ in 0..u64::MAX {
        match end_of(plan, kinds, memo, MOST_DEPTH, node, place) {
            Ok(end) => return Ok(end),
            Err(Halt::Depth) => answer(alloc, plan, kinds, memo)?,
            Err(Halt::Memory) => return Err(NoMemory),
        }
    }
    Err(NoMemory)
}
