//! Truths: `or`, `and`, `if` and comparisons.
ghost use Rattle.std.specs.Prelude.{◌≡◌, ℕ, IfOk, length, map, if◌then◌else◌, true, not};
ghost use Rattle.pj_xvalue.specs.Boolean.{effective_boolean};
ghost use Rattle.pj_xvalue.specs.Comparison.{general_comparison};
ghost use Rattle.pj_xvalue.specs.Items.{values_of};
ghost use Rattle.pj_xvalue.specs.OfTree.{OfTree};
ghost use Rattle.pj_xsteps.specs.Means.{give, judged, decided, decides as decides_meaning, one_boolean};
ghost use Rattle.pj_xsteps.specs.Context.{Around, Context, around};
ghost use Rattle.pj_xsteps.specs.Operands.{with_values};
ghost use Rattle.pj_xsteps.specs.Denotes.{denotes, here};
ghost use Rattle.pj_xframes.specs.Frames.{◌▷◌, Replies};
ghost use Rattle.pj_xframes.specs.Going.{Goes, GoesIf, NextOfTree};
ghost use Rattle.pj_xframes.specs.Scopes.{Scoped, variables_of};

use crate::frame::{Frame, Next, Task};
use pj_xexpressions::{Compare, Expr, Quantifier};
use pj_xsteps::{Setting, compared, one};
use pj_xvalue::{Attributes, Item, Sequence, XFault, boolean_value};
use std::alloc::Global;

/// Whether such a truth of one member decides.
pub fn decides(quantifier: Quantifier, truth: bool) -> bool
    ensures { result ≡ decides_meaning quantifier truth }
{
    match quantifier {
        Quantifier::Some => truth,
        Quantifier::Every => !truth,
    }
}

/// A construct whose value is one boolean.
pub fn boolean<'e, 't>(alloc: Global, truth: bool) -> Result<Next<'e, 't>, XFault>
    ensures goes { (a : Around) (reply : Replies) (c : Context) (s : Scoped) → GoesIf a reply (give (one_boolean truth)) c s c s result }
    ensures of_tree { (n : ℕ) → IfOk result (λ next. NextOfTree n next) }
{
    Ok(Next::Value(one(alloc, Item::Bool(truth))?))
}

/// `a or b or ..` or `a and b and ..` with the operands left, of which none before decided.
pub fn truths<'e, 't>(
    alloc: Global,
    quantifier: Quantifier,
    parts: &'e [Expr],
) -> Result<Next<'e, 't>, XFault>
    ensures goes { (a : Around) (reply : Replies) (c : Context) (s : Scoped) → GoesIf a reply (decided quantifier (here c (variables_of s)) (map (denotes a reply) parts.now)) c s c s result }
    ensures of_tree { (n : ℕ) → IfOk result (λ next. NextOfTree n next) }
{
    let [part, rest @ ..] = parts else {
        return boolean(alloc, !decides(quantifier, true));
    };
    Ok(Next::Within(Task::Expression(part), Frame::Truths(quantifier, rest)))
}

/// The same with one more value.
pub fn truths_after<'e, 't>(
    alloc: Global,
    quantifier: Quantifier,
    parts: &'e [Expr],
    value: &Sequence<'t>,
) -> Result<Next<'e, 't>, XFault>
    ensures goes { (a : Around) (reply : Replies) (c : Context) (s : Scoped) →
        GoesIf a reply (judged (effective_boolean (values_of value.now)) ▷ λ truth. if decides_meaning quantifier truth then give (one_boolean truth) else decided quantifier (here c (variables_of s)) (map (denotes a reply) parts.now)) c s c s result }
    ensures of_tree { (n : ℕ) → IfOk result (λ next. NextOfTree n next) }
{
    let truth = boolean_value(value)?;
    if decides(quantifier, truth) {
        return boolean(alloc, truth);
    }
    truths(alloc, quantifier, parts)
}

/// The value of a test.
pub fn tested<'e, 't>(alloc: Global, value: &Sequence<'t>) -> Result<Next<'e, 't>, XFault>
    ensures goes { (a : Around) (reply : Replies) (c : Context) (s : Scoped) → GoesIf a reply (judged (effective_boolean (values_of value.now)) ▷ λ truth. give (one_boolean truth)) c s c s result }
    ensures of_tree { (n : ℕ) → IfOk result (λ next. NextOfTree n next) }
{
    let truth = boolean_value(value)?;
    boolean(alloc, truth)
}

/// The value of the test of an `if`.
pub fn chosen<'e, 't>(
    chosen: &'e Expr,
    other: &'e Expr,
    value: &Sequence<'t>,
) -> Result<Next<'e, 't>, XFault>
    ensures goes { (a : Around) (reply : Replies) (c : Context) (s : Scoped) →
        GoesIf a reply (judged (effective_boolean (values_of value.now)) ▷ λ truth. if truth then denotes a reply chosen.now c (variables_of s) else denotes a reply other.now c (variables_of s)) c s c s result }
    ensures of_tree { (n : ℕ) → IfOk result (λ next. NextOfTree n next) }
{
    if boolean_value(value)? {
        Ok(Next::Instead(Task::Expression(chosen)))
    } else {
        Ok(Next::Instead(Task::Expression(other)))
    }
}

/// The value of the right side of a comparison.
pub fn comparison<'e, 't, A: Attributes>(
    setting: &Setting<'t, A>,
    op: Compare,
    left: &Sequence<'t>,
    value: &Sequence<'t>,
) -> Result<Next<'e, 't>, XFault>
    requires left { OfTree (length setting.now.tree.now.nodes) (values_of left.now) }
    requires value { OfTree (length setting.now.tree.now.nodes) (values_of value.now) }
    ensures goes { (reply : Replies) (c : Context) (s : Scoped) →
        let a = around setting.now.tree.now (A.attribute_of setting.now.facts.now) (A.names_of setting.now.facts.now) setting.now.patterns.now in
        GoesIf a reply (judged (general_comparison op (with_values a (values_of left.now)) (with_values a (values_of value.now))) ▷ λ truth. give (one_boolean truth)) c s c s result }
    ensures of_tree { (n : ℕ) → IfOk result (λ next. NextOfTree n next) }
{
    let truth = compared(setting, op, left, value)?;
    boolean(setting.alloc, truth)
}
