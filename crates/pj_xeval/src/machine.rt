//! The steps of an evaluation.
ghost use Rattle.std.specs.Prelude.{◌≡◌, IfOk, OnOk, length};
ghost use Rattle.pj_xvalue.specs.Items.{IsOfTree};
ghost use Rattle.pj_xvalue.specs.OfTree.{VariablesOfTree};
ghost use Rattle.pj_xsteps.specs.Context.{around};
ghost use Rattle.pj_xframes.specs.Frames.{Replies};
ghost use Rattle.pj_xframes.specs.Going.{NextOfTree};
ghost use Rattle.pj_xframes.specs.Scopes.{variables_of};
ghost use Rattle.pj_xeval.specs.Whole.{ComesIf, FramesOfTree, PauseOfTree, SteppedOfTree, pause_meaning, state_meaning, stepped_meaning};

use crate::begin::begin;
use crate::react::react;
use crate::turns::turns_over;
use pj_base::ListOf;
use pj_names::AskFault;
use pj_xexpressions::PmdFunction;
use pj_xframes::{Frame, Next, Scope};
use pj_xsteps::{At, Setting};
use pj_xvalue::{Arguments, Attributes, Sequence, XFault};

/// Why the steps pause.
#[derive(Drop)]
pub enum Pause<'t> {
    /// The value of the whole expression is there.
    Done(Sequence<'t>),
    /// A function of PMD is to be called, whose value is awaited.
    Reply(PmdFunction, Arguments<'t>),
}

/// What one step comes to.
#[derive(Drop)]
pub enum Stepped<'e, 't> {
    Going(Next<'e, 't>),
    Paused(Pause<'t>),
}

/// One step.
#[tactic(auto, using(crate::proofs::OfTree::of_tree))]
pub fn step<'e, 't, A: Attributes>(
    setting: &Setting<'t, A>,
    next: Next<'e, 't>,
    frames: &mut ListOf<Frame<'e, 't>>,
    at: &mut At<'t>,
    scope: &mut Scope<'e, 't>,
) -> Result<Stepped<'e, 't>, XFault>
    requires next { NextOfTree (length setting.now.tree.now.nodes) next }
    requires frames { FramesOfTree (length setting.now.tree.now.nodes) frames.old }
    requires item { IsOfTree (length setting.now.tree.now.nodes) at.old.item }
    requires variables { VariablesOfTree (length setting.now.tree.now.nodes) (variables_of scope.old) }
    ensures comes { (reply : Replies) →
        let a = around setting.now.tree.now (A.attribute_of setting.now.facts.now) (A.names_of setting.now.facts.now) setting.now.patterns.now in
        ComesIf (λ stepped. stepped_meaning a reply stepped frames.new at.new scope.new) (state_meaning a reply next.entry frames.old at.old scope.old) result }
    ensures of_tree { IfOk result (λ stepped. SteppedOfTree (length setting.now.tree.now.nodes) stepped) }
    ensures frames { OnOk result (FramesOfTree (length setting.now.tree.now.nodes) frames.new) }
    ensures item { OnOk result (IsOfTree (length setting.now.tree.now.nodes) at.new.item) }
    ensures variables { OnOk result (VariablesOfTree (length setting.now.tree.now.nodes) (variables_of scope.new)) }
{
    match next {
        Next::Value(value) => match frames.pop() {
            Some(frame) => Ok(Stepped::Going(react(setting, frame, value, at, scope)?)),
            None => Ok(Stepped::Paused(Pause::Done(value))),
        },
        Next::Within(task, frame) => {
            frames.push(frame)?;
            Ok(Stepped::Going(begin(setting, task, at, scope)?))
        }
        Next::Instead(task) => Ok(Stepped::Going(begin(setting, task, at, scope)?)),
        Next::Over(what, parts, items) => {
            Ok(Stepped::Going(turns_over(setting, what, parts, items, at)?))
        }
        Next::Reply(function, arguments) => {
            Ok(Stepped::Paused(Pause::Reply(function, arguments)))
        }
    }
}

/// The steps up to the next pause.
#[tactic(auto, using(crate::proofs::OfTree::of_tree))]
pub fn settle<'e, 't, A: Attributes>(
    setting: &Setting<'t, A>,
    next: Next<'e, 't>,
    frames: &mut ListOf<Frame<'e, 't>>,
    at: &mut At<'t>,
    scope: &mut Scope<'e, 't>,
) -> Result<Pause<'t>, XFault>
    requires next { NextOfTree (length setting.now.tree.now.nodes) next }
    requires frames { FramesOfTree (length setting.now.tree.now.nodes) frames.old }
    requires item { IsOfTree (length setting.now.tree.now.nodes) at.old.item }
    requires variables { VariablesOfTree (length setting.now.tree.now.nodes) (variables_of scope.old) }
    ensures comes { (reply : Replies) →
        let a = around setting.now.tree.now (A.attribute_of setting.now.facts.now) (A.names_of setting.now.facts.now) setting.now.patterns.now in
        ComesIf (λ pause. pause_meaning a reply pause frames.new at.new scope.new) (state_meaning a reply next.entry frames.old at.old scope.old) result }
    ensures of_tree { IfOk result (λ pause. PauseOfTree (length setting.now.tree.now.nodes) pause) }
    ensures frames { OnOk result (FramesOfTree (length setting.now.tree.now.nodes) frames.new) }
    ensures item { OnOk result (IsOfTree (length setting.now.tree.now.nodes) at.new.item) }
    ensures variables { OnOk result (VariablesOfTree (length setting.now.tree.now.nodes) (variables_of scope.new)) }
{
    let mut next = next;
    // The bound cannot be met: a machine that takes a step each nanosecond would need 584 years.
    for _step in 0..u64::MAX {
        match step(setting, next, frames, at, scope)? {
            Stepped::Going(more) => next = more,
            Stepped::Paused(pause) => return Ok(pause),
        }
    }
    Err(XFault::Ask(AskFault::Memory))
}
