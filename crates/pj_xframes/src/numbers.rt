//! Arithmetic: sums, products, signs and ranges.
ghost use Rattle.std.specs.Prelude.{◌≡◌, ℕ, IfOk, length, map};
ghost use Rattle.pj_xvalue.specs.Items.{values_of};
ghost use Rattle.pj_xvalue.specs.OfTree.{OfTree};
ghost use Rattle.pj_xsteps.specs.Means.{give, judged, chain};
ghost use Rattle.pj_xsteps.specs.Context.{Around, Context, around};
ghost use Rattle.pj_xsteps.specs.Operands.{operand as operand_of};
ghost use Rattle.pj_xsteps.specs.Arithmetic.{number_items as number_items_of, range as range_of, signed as signed_of};
ghost use Rattle.pj_xsteps.specs.Parts.{operated_by};
ghost use Rattle.pj_xsteps.specs.Denotes.{behind, denotes, with_factor, with_term};
ghost use Rattle.pj_xframes.specs.Frames.{◌▷◌, Replies};
ghost use Rattle.pj_xframes.specs.Going.{Goes, GoesIf, NextOfTree};
ghost use Rattle.pj_xframes.specs.Scopes.{Scoped, variables_of};

use crate::frame::{Frame, Next, Task};
use pj_xexpressions::{Additive, Expr, Multiplicative, Sign};
use pj_xsteps::{Setting, number_items, operand, product, range, signed, sum};
use pj_xvalue::{Attributes, Sequence, XFault};
use std::alloc::Global;

/// A sum with the total so far and the operands left.
pub fn terms<'e, 't>(
    alloc: Global,
    total: Option<i64>,
    parts: &'e [(Additive, Expr)],
) -> Result<Next<'e, 't>, XFault>
    ensures goes { (a : Around) (reply : Replies) (c : Context) (s : Scoped) →
        GoesIf a reply (chain (behind c (variables_of s)) (with_term a) (operated_by (denotes a reply) parts.now) total ▷ λ all. give (number_items_of all)) c s c s result }
    ensures of_tree { (n : ℕ) → IfOk result (λ next. NextOfTree n next) }
{
    match parts {
        [] => Ok(Next::Value(number_items(alloc, total)?)),
        [part, rest @ ..] => Ok(Next::Within(
            Task::Expression(&part.1),
            Frame::Term(total, part.0, rest),
        )),
    }
}

/// The first operand's value.
pub fn terms_from<'e, 't, A: Attributes>(
    setting: &Setting<'t, A>,
    parts: &'e [(Additive, Expr)],
    value: &Sequence<'t>,
) -> Result<Next<'e, 't>, XFault>
    requires { OfTree (length setting.now.tree.now.nodes) (values_of value.now) }
    ensures goes { (reply : Replies) (c : Context) (s : Scoped) →
        let a = around setting.now.tree.now (A.attribute_of setting.now.facts.now) (A.names_of setting.now.facts.now) setting.now.patterns.now in
        GoesIf a reply (judged (operand_of a (values_of value.now)) ▷ λ term. chain (behind c (variables_of s)) (with_term a) (operated_by (denotes a reply) parts.now) term ▷ λ all. give (number_items_of all)) c s c s result }
    ensures of_tree { (n : ℕ) → IfOk result (λ next. NextOfTree n next) }
{
    let term = operand(setting, value)?;
    terms(setting.alloc, term, parts)
}

/// A further operand's value, behind its operator.
pub fn terms_after<'e, 't, A: Attributes>(
    setting: &Setting<'t, A>,
    total: Option<i64>,
    operator: Additive,
    parts: &'e [(Additive, Expr)],
    value: &Sequence<'t>,
) -> Result<Next<'e, 't>, XFault>
    requires { OfTree (length setting.now.tree.now.nodes) (values_of value.now) }
    ensures goes { (reply : Replies) (c : Context) (s : Scoped) →
        let a = around setting.now.tree.now (A.attribute_of setting.now.facts.now) (A.names_of setting.now.facts.now) setting.now.patterns.now in
        GoesIf a reply ((judged (with_term a (operator, tt {0}) total (values_of value.now)) ▷ λ more. chain (behind c (variables_of s)) (with_term a) (operated_by (denotes a reply) parts.now) more) ▷ λ all. give (number_items_of all)) c s c s result }
    ensures of_tree { (n : ℕ) → IfOk result (λ next. NextOfTree n next) }
{
    let term = operand(setting, value)?;
    let total = sum(operator, total, term)?;
    terms(setting.alloc, total, parts)
}

/// A product with the total so far and the operands left.
pub fn factors<'e, 't>(
    alloc: Global,
    total: Option<i64>,
    parts: &'e [(Multiplicative, Expr)],
) -> Result<Next<'e, 't>, XFault>
    ensures goes { (a : Around) (reply : Replies) (c : Context) (s : Scoped) →
        GoesIf a reply (chain (behind c (variables_of s)) (with_factor a) (operated_by (denotes a reply) parts.now) total ▷ λ all. give (number_items_of all)) c s c s result }
    ensures of_tree { (n : ℕ) → IfOk result (λ next. NextOfTree n next) }
{
    match parts {
        [] => Ok(Next::Value(number_items(alloc, total)?)),
        [part, rest @ ..] => Ok(Next::Within(
            Task::Expression(&part.1),
            Frame::Factor(total, part.0, rest),
        )),
    }
}

/// The first operand's value.
pub fn factors_from<'e, 't, A: Attributes>(
    setting: &Setting<'t, A>,
    parts: &'e [(Multiplicative, Expr)],
    value: &Sequence<'t>,
) -> Result<Next<'e, 't>, XFault>
    requires { OfTree (length setting.now.tree.now.nodes) (values_of value.now) }
    ensures goes { (reply : Replies) (c : Context) (s : Scoped) →
        let a = around setting.now.tree.now (A.attribute_of setting.now.facts.now) (A.names_of setting.now.facts.now) setting.now.patterns.now in
        GoesIf a reply (judged (operand_of a (values_of value.now)) ▷ λ factor. chain (behind c (variables_of s)) (with_factor a) (operated_by (denotes a reply) parts.now) factor ▷ λ all. give (number_items_of all)) c s c s result }
    ensures of_tree { (n : ℕ) → IfOk result (λ next. NextOfTree n next) }
{
    let factor = operand(setting, value)?;
    factors(setting.alloc, factor, parts)
}

/// A further operand's value, behind its operator.
pub fn factors_after<'e, 't, A: Attributes>(
    setting: &Setting<'t, A>,
    total: Option<i64>,
    operator: Multiplicative,
    parts: &'e [(Multiplicative, Expr)],
    value: &Sequence<'t>,
) -> Result<Next<'e, 't>, XFault>
    requires { OfTree (length setting.now.tree.now.nodes) (values_of value.now) }
    ensures goes { (reply : Replies) (c : Context) (s : Scoped) →
        let a = around setting.now.tree.now (A.attribute_of setting.now.facts.now) (A.names_of setting.now.facts.now) setting.now.patterns.now in
        GoesIf a reply ((judged (with_factor a (operator, tt {0}) total (values_of value.now)) ▷ λ more. chain (behind c (variables_of s)) (with_factor a) (operated_by (denotes a reply) parts.now) more) ▷ λ all. give (number_items_of all)) c s c s result }
    ensures of_tree { (n : ℕ) → IfOk result (λ next. NextOfTree n next) }
{
    let factor = operand(setting, value)?;
    let total = product(operator, total, factor)?;
    factors(setting.alloc, total, parts)
}

/// The value of a sign's operand.
pub fn signed_value<'e, 't, A: Attributes>(
    setting: &Setting<'t, A>,
    sign: Sign,
    value: &Sequence<'t>,
) -> Result<Next<'e, 't>, XFault>
    requires { OfTree (length setting.now.tree.now.nodes) (values_of value.now) }
    ensures goes { (reply : Replies) (c : Context) (s : Scoped) →
        let a = around setting.now.tree.now (A.attribute_of setting.now.facts.now) (A.names_of setting.now.facts.now) setting.now.patterns.now in
        GoesIf a reply (judged (operand_of a (values_of value.now)) ▷ λ number. judged (signed_of sign number) ▷ λ all. give (number_items_of all)) c s c s result }
    ensures of_tree { (n : ℕ) → IfOk result (λ next. NextOfTree n next) }
{
    let number = operand(setting, value)?;
    let number = signed(sign, number)?;
    Ok(Next::Value(number_items(setting.alloc, number)?))
}

/// The value of the first operand of `to`.
pub fn range_from<'e, 't, A: Attributes>(
    setting: &Setting<'t, A>,
    to: &'e Expr,
    value: &Sequence<'t>,
) -> Result<Next<'e, 't>, XFault>
    requires { OfTree (length setting.now.tree.now.nodes) (values_of value.now) }
    ensures goes { (reply : Replies) (c : Context) (s : Scoped) →
        let a = around setting.now.tree.now (A.attribute_of setting.now.facts.now) (A.names_of setting.now.facts.now) setting.now.patterns.now in
        GoesIf a reply (judged (operand_of a (values_of value.now)) ▷ λ x. denotes a reply to.now c (variables_of s) ▷ λ ys. judged (operand_of a ys) ▷ λ y. give (range_of x y)) c s c s result }
    ensures of_tree { (n : ℕ) → IfOk result (λ next. NextOfTree n next) }
{
    let from = operand(setting, value)?;
    Ok(Next::Within(Task::Expression(to), Frame::To(from)))
}

/// The value of the second operand of `to`.
pub fn range_to<'e, 't, A: Attributes>(
    setting: &Setting<'t, A>,
    from: Option<i64>,
    value: &Sequence<'t>,
) -> Result<Next<'e, 't>, XFault>
    requires { OfTree (length setting.now.tree.now.nodes) (values_of value.now) }
    ensures goes { (reply : Replies) (c : Context) (s : Scoped) →
        let a = around setting.now.tree.now (A.attribute_of setting.now.facts.now) (A.names_of setting.now.facts.now) setting.now.patterns.now in
        GoesIf a reply (judged (operand_of a (values_of value.now)) ▷ λ y. give (range_of from y)) c s c s result }
    ensures of_tree { (n : ℕ) → IfOk result (λ next. NextOfTree n next) }
{
    let to = operand(setting, value)?;
    Ok(Next::Value(range(setting.alloc, from, to)?))
}
