//! What a frame makes of the value that it waits for.
ghost use Rattle.std.specs.Prelude.{◌≡◌, ℕ, IfOk, OnOk, length};
ghost use Rattle.pj_xvalue.specs.Items.{values_of, IsOfTree};
ghost use Rattle.pj_xvalue.specs.OfTree.{OfTree, VariablesOfTree};
ghost use Rattle.pj_xsteps.specs.Context.{Around, Context, around};
ghost use Rattle.pj_xframes.specs.declared.frame.Frame.TheVariants.{Source as SourceFrame};
ghost use Rattle.pj_xframes.specs.Frames.{Replies, context_left, reacted, scope_left};
ghost use Rattle.pj_xframes.specs.Going.{FrameOfTree, GoesIf, NextOfTree};
ghost use Rattle.pj_xframes.specs.Scopes.{variables_of};

use crate::bindings::{
    for_after, for_over, let_after, let_body, quantified_after, quantified_over,
};
use crate::turns::turn_after;
use pj_xframes::{
    Binder, Binding, Frame, Next, Scope, Task, arguments_after, chosen, comparison, factors_after,
    factors_from, items_after, nodes_after, pmd_arguments_after, range_from, range_to, sets_after,
    sets_from, signed_value, terms_after, terms_from, tested, texts_after, truths_after,
};
use pj_xsteps::{At, Setting};
use pj_xvalue::{Attributes, Sequence, XFault};
use std::alloc::Global;

/// What comes of the sequence of a variable.
fn source_after<'e, 't>(
    alloc: Global,
    binding: Binding,
    binder: Binder<'e>,
    value: Sequence<'t>,
    scope: &mut Scope<'e, 't>,
) -> Result<Next<'e, 't>, XFault>
    ensures goes { (a : Around) (reply : Replies) (c : Context) →
        GoesIf a reply (reacted a reply (SourceFrame binding binder.entry) c scope.old (values_of value.entry)) c scope.new c (scope_left (SourceFrame binding binder.entry) scope.old) result }
    ensures of_tree { (n : ℕ) → OfTree n (values_of value.entry) → IfOk result (λ next. NextOfTree n next) }
    ensures scope { (n : ℕ) → OfTree n (values_of value.entry) → VariablesOfTree n (variables_of scope.old) → OnOk result (VariablesOfTree n (variables_of scope.new)) }
{
    match binding {
        Binding::For => for_over(alloc, binder, value, scope),
        Binding::Quantified(quantifier) => {
            quantified_over(alloc, quantifier, binder, value, scope)
        }
        Binding::Let(bound) => let_after(bound, binder, value, scope),
    }
}

/// What a frame makes of the value that it waits for.
pub fn react<'e, 't, A: Attributes>(
    setting: &Setting<'t, A>,
    frame: Frame<'e, 't>,
    value: Sequence<'t>,
    at: &mut At<'t>,
    scope: &mut Scope<'e, 't>,
) -> Result<Next<'e, 't>, XFault>
    requires frame { FrameOfTree (length setting.now.tree.now.nodes) frame }
    requires value { OfTree (length setting.now.tree.now.nodes) (values_of value) }
    requires item { IsOfTree (length setting.now.tree.now.nodes) at.old.item }
    requires variables { VariablesOfTree (length setting.now.tree.now.nodes) (variables_of scope.old) }
    ensures goes { (reply : Replies) →
        let a = around setting.now.tree.now (A.attribute_of setting.now.facts.now) (A.names_of setting.now.facts.now) setting.now.patterns.now in
        GoesIf a reply (reacted a reply frame.entry at.old scope.old (values_of value.entry)) at.new scope.new (context_left frame.entry at.old) (scope_left frame.entry scope.old) result }
    ensures of_tree { IfOk result (λ next. NextOfTree (length setting.now.tree.now.nodes) next) }
    ensures item { OnOk result (IsOfTree (length setting.now.tree.now.nodes) at.new.item) }
    ensures variables { OnOk result (VariablesOfTree (length setting.now.tree.now.nodes) (variables_of scope.new)) }
{
    let alloc = setting.alloc;
    match frame {
        Frame::Items(found, rest) => return items_after(found, rest, value),
        Frame::Text(text, rest) => return texts_after(setting, text, rest, &value),
        Frame::Nodes(found, rest) => return nodes_after(found, rest, value),
        Frame::Arguments(function, values, rest) => {
            return arguments_after(setting, function, values, rest, at, value);
        }
        Frame::PmdArguments(function, values, rest) => {
            return pmd_arguments_after(function, values, rest, value);
        }
        Frame::FirstTerm(rest) => return terms_from(setting, rest, &value),
        Frame::Term(total, operator, rest) => {
            return terms_after(setting, total, operator, rest, &value);
        }
        Frame::FirstFactor(rest) => return factors_from(setting, rest, &value),
        Frame::Factor(total, operator, rest) => {
            return factors_after(setting, total, operator, rest, &value);
        }
        Frame::FirstSet(rest) => return sets_from(rest, value),
        Frame::Set(found, operator, rest) => return sets_after(found, operator, rest, value),
        Frame::Truths(quantifier, rest) => return truths_after(alloc, quantifier, rest, &value),
        Frame::Truth => return tested(alloc, &value),
        Frame::If(yes, no) => return chosen(yes, no, &value),
        Frame::Left(op, right) => {
            return Ok(Next::Within(Task::Expression(right), Frame::Right(op, value)));
        }
        Frame::Right(op, left) => return comparison(setting, op, &left, &value),
        Frame::From(to) => return range_from(setting, to, &value),
        Frame::To(from) => return range_to(setting, from, &value),
        Frame::Sign(sign) => return signed_value(setting, sign, &value),
        Frame::First(what, rest) => return Ok(Next::Over(what, rest, value)),
        Frame::Turns(turns) => return turn_after(turns, value, at),
        Frame::Source(binding, binder) => {
            return source_after(alloc, binding, binder, value, scope);
        }
        Frame::For(turns) => return for_after(alloc, turns, value, scope),
        Frame::Quantified(turns) => return quantified_after(alloc, turns, &value, scope),
        Frame::LetBody(count) => return Ok(let_body(count, value, scope)),
    }
}
