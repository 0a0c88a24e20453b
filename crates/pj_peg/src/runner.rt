//! The derivation of the first rule.
ghost use Rattle.std.specs.Prelude.{◌≡◌, ◌^◌, ◌<◌, ◌≤◌, ◌++◌, length, All, IfOk, IfSome, IfNone, OnOk, reverse};
ghost use Rattle.pj_peg_grammar.specs.Form.{forms_of, rule};
ghost use Rattle.pj_peg_grammar.specs.Derivation.{Forest, steps_of};
ghost use Rattle.pj_peg_grammar.specs.Derives.{Derives, To, DerivesSteps, FailsAtStart};
ghost use Rattle.pj_peg_grammar.specs.Program.{rules_of};
ghost use Rattle.pj_peg.specs.Plan.{IsPlan, IsSound};
ghost use Rattle.pj_peg.specs.Emit.{opens, Opens, set_next};

use crate::ask::end_at;
use crate::calls::{Call, add_calls};
use crate::grammar::WellFormed;
use crate::plan::{Memo, Plan};
use crate::table::Table;
use pj_base::NoMemory;
use pj_peg_grammar::{Derivation, Step, one_outcome, steps_are_in_text};
use std::alloc::Global;

/// A part of the work that is left: the steps of a call are to come, or all steps below the one of this number are there.
#[derive(Clone, Copy)]
enum Task {
    Open(Call),
    Close(usize),
}

/// Puts the calls on the stack, the first one on top.
fn stack_up(calls: &mut Vec<Call>, stack: &mut Vec<Task>) -> Result<(), NoMemory>
    ensures { OnOk result (reverse stack.new.items ≡ opens calls.old.items ++ reverse stack.old.items) }
{
    while let Some(call) = calls.pop() {
        stack.push(Task::Open(call))?;
    }
    Ok(())
}

/// The most steps that a derivation may have, since their numbers and their count are below 2^32.
const MOST_STEPS: usize = u32::MAX as usize - 1;

/// Each step is opened once and closed once, and then the stack is found empty.
const MOST_TURNS: usize = 2 * MOST_STEPS + 1;

/// Emits the step of a call, and puts its closing and the calls below it on the stack.
fn open(
    alloc: Global,
    plan: &Plan,
    kinds: &[u16],
    memo: &mut Memo,
    call: Call,
    steps: &mut Vec<Step>,
    calls: &mut Vec<Call>,
    stack: &mut Vec<Task>,
) -> Result<(), NoMemory>
    requires small { length kinds.now ≤ 200000 }
    requires plan { IsPlan plan.now }
    requires sound { IsSound plan.now kinds.now memo.old }
    requires within { call.from ≤ length kinds.now }
    requires call { (d : Forest) × Derives (rules_of plan.now.program) kinds.now (rule call.rule) call.from (To call.to d) }
    ensures sound { IsSound plan.now kinds.now memo.new }
    ensures opens { OnOk result (Opens (rules_of plan.now.program) kinds.now call steps.old.items stack.old.items steps.new.items stack.new.items) }
{
    let number = steps.len();
    steps.push(Step {
        rule: call.rule,
        from: call.from,
        to: call.to,
        next: 0,
    })?;
    stack.push(Task::Close(number))?;
    let root = plan.program.roots[call.rule as usize];
    calls.clear();
    let _end = add_calls(alloc, plan, kinds, memo, root, call.from, calls)?;
    stack_up(calls, stack)?;
    one_outcome();
    Ok(())
}

/// All steps below the one of this number are there, so the next one is the first that is not.
fn close(steps: &mut Vec<Step>, number: usize)
    requires there { number < length steps.old.items }
    requires few { length steps.old.items < 2 ^ 32 }
    ensures { steps.new.items ≡ set_next steps.old.items number (length steps.old.items) }
{
    let next = steps.len() as u32;
    let step = &mut steps[number];
    step.next = next;
}

/// The steps of a call, in preorder.
fn steps_of_call(
    alloc: Global,
    first: Call,
    plan: &Plan,
    kinds: &[u16],
    memo: &mut Memo,
) -> Result<Vec<Step>, NoMemory>
    requires small { length kinds.now ≤ 200000 }
    requires plan { IsPlan plan.now }
    requires sound { IsSound plan.now kinds.now memo.old }
    requires within { first.from ≤ length kinds.now }
    requires first { (d : Forest) × Derives (rules_of plan.now.program) kinds.now (rule first.rule) first.from (To first.to d) }
    ensures steps { IfOk result (λ steps. (d : Forest) → Derives (rules_of plan.now.program) kinds.now (rule first.rule) first.from (To first.to d) → steps.items ≡ steps_of d) }
    ensures few { IfOk result (λ steps. length steps.items < 2 ^ 32) }
{
    one_outcome();
    let mut steps = Vec::new(alloc);
    let mut calls = Vec::new(alloc);
    let mut stack = Vec::new(alloc);
    stack.push(Task::Open(first))?;
    for _ in 0..MOST_TURNS {
        let task = match stack.pop() {
            None => return Ok(steps),
            Some(task) => task,
        };
        match task {
            Task::Open(call) => {
                if steps.len() >= MOST_STEPS {
                    return Err(NoMemory);
                }
                open(
                    alloc, plan, kinds, memo, call, &mut steps, &mut calls, &mut stack,
                )?;
            }
            Task::Close(number) => close(&mut steps, number),
        }
    }
    Err(NoMemory)
}

/// The derivation of rule 0 from the first place on, over a text of at most 200,000 token kinds, or none where the rule fails
/// there. The derivation need not go up to the end of the text. One of more than 4,294,967,294 steps, which rules that take
/// nothing can make of a short text, is want of memory too.
pub fn run(
    alloc: Global,
    grammar: &WellFormed,
    kinds: &[u16],
) -> Result<Option<Derivation>, NoMemory>
    requires small { length kinds.now ≤ 200000 }
    ensures derives { IfOk result (λ found. IfSome found (DerivesSteps (forms_of grammar.now) kinds.now)) }
    ensures fails { IfOk result (λ found. IfNone found (FailsAtStart (forms_of grammar.now) kinds.now)) }
    ensures places { IfOk result (λ found. IfSome found (All (λ step. (step.from ≤ step.to) × (step.to ≤ length kinds.now)))) }
{
    let plan = &grammar.plan;
    let table = Table::new(alloc, kinds, &plan.slots)?;
    let mut memo = Memo {
        table,
        given_up: Vec::new(alloc),
    };
    let root = plan.program.roots[0];
    match end_at(alloc, plan, kinds, &mut memo, root, 0)? {
        None => Ok(None),
        Some(to) => {
            let first = Call {
                rule: 0,
                from: 0,
                to,
            };
            let steps = steps_of_call(alloc, first, plan, kinds, &mut memo)?;
            steps_are_in_text();
            Ok(Some(Derivation::of(steps)))
        }
    }
}
