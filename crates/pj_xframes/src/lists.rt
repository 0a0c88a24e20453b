//! Constructs of a list of operands: `,`, `||`, `|`, `intersect`, `except`, and the arguments of functions.
ghost use Rattle.std.specs.Prelude.{◌≡◌, ℕ, ◌∷◌, ◌++◌, [], IfOk, length, map, string_bytes};
ghost use Rattle.pj_xvalue.specs.Items.{String as StringValue, value_of_item, values_of, IsOfTree};
ghost use Rattle.pj_xvalue.specs.OfTree.{OfTree, ArgumentsOfTree};
ghost use Rattle.pj_xaxes.specs.Order.{ordered};
ghost use Rattle.pj_xsteps.specs.Means.{give, judged, chain};
ghost use Rattle.pj_xsteps.specs.Context.{Around, Context, around};
ghost use Rattle.pj_xsteps.specs.Operands.{only_nodes};
ghost use Rattle.pj_xsteps.specs.Calls.{call as call_of, pmd_call};
ghost use Rattle.pj_xsteps.specs.Turns.{with_all};
ghost use Rattle.pj_xsteps.specs.Parts.{operated_by};
ghost use Rattle.pj_xsteps.specs.Denotes.{behind, denotes, here, with_argument, with_nodes, with_set, with_text};
ghost use Rattle.pj_xframes.specs.Frames.{◌▷◌, Replies};
ghost use Rattle.pj_xframes.specs.Going.{Goes, GoesIf, NextOfTree};
ghost use Rattle.pj_xframes.specs.Scopes.{Scoped, variables_of};

use crate::frame::{Frame, Next, Task};
use pj_base::Text;
use pj_xexpressions::{Expr, Function, PmdFunction, SetOperator};
use pj_xsteps::{At, NodeItems, Setting, call, one, text_operand};
use pj_xvalue::{Arguments, Attributes, Item, Sequence, XCode, XFault};
use std::alloc::Global;

/// `a, b, ..` with the items so far and the parts left.
pub fn items<'e, 't>(found: Sequence<'t>, parts: &'e [Expr]) -> Next<'e, 't>
    ensures goes { (a : Around) (reply : Replies) (c : Context) (s : Scoped) → Goes a reply (chain (here c (variables_of s)) with_all (map (denotes a reply) parts.now) (values_of found.entry)) c s c s result }
    ensures of_tree { (n : ℕ) → OfTree n (values_of found.entry) → NextOfTree n result }
{
    match parts {
        [] => Next::Value(found),
        [part, rest @ ..] => Next::Within(Task::Expression(part), Frame::Items(found, rest)),
    }
}

/// The same with one more value.
pub fn items_after<'e, 't>(
    found: Sequence<'t>,
    parts: &'e [Expr],
    value: Sequence<'t>,
) -> Result<Next<'e, 't>, XFault>
    ensures goes { (a : Around) (reply : Replies) (c : Context) (s : Scoped) → GoesIf a reply (chain (here c (variables_of s)) with_all (map (denotes a reply) parts.now) (values_of found.entry ++ values_of value.entry)) c s c s result }
    ensures of_tree { (n : ℕ) → OfTree n (values_of found.entry) → OfTree n (values_of value.entry) → IfOk result (λ next. NextOfTree n next) }
{
    let mut found = found;
    found.append(value)?;
    Ok(items(found, parts))
}

/// A string.
fn text_item<'t>(text: String) -> Item<'t>
    ensures { value_of_item result ≡ StringValue (string_bytes text) }
{
    Item::Str(Text::from_string(text))
}

/// `a || b || ..` with the text so far and the operands left.
pub fn texts<'e, 't>(alloc: Global, text: String, parts: &'e [Expr]) -> Result<Next<'e, 't>, XFault>
    ensures goes { (a : Around) (reply : Replies) (c : Context) (s : Scoped) → GoesIf a reply (chain (here c (variables_of s)) (with_text a) (map (denotes a reply) parts.now) (string_bytes text) ▷ λ all. give (StringValue all ∷ [])) c s c s result }
    ensures of_tree { (n : ℕ) → IfOk result (λ next. NextOfTree n next) }
{
    match parts {
        [] => Ok(Next::Value(one(alloc, text_item(text))?)),
        [part, rest @ ..] => Ok(Next::Within(Task::Expression(part), Frame::Text(text, rest))),
    }
}

/// The same with one more value.
pub fn texts_after<'e, 't, A: Attributes>(
    setting: &Setting<'t, A>,
    text: String,
    parts: &'e [Expr],
    value: &Sequence<'t>,
) -> Result<Next<'e, 't>, XFault>
    requires { OfTree (length setting.now.tree.now.nodes) (values_of value.now) }
    ensures goes { (reply : Replies) (c : Context) (s : Scoped) →
        let a = around setting.now.tree.now (A.attribute_of setting.now.facts.now) (A.names_of setting.now.facts.now) setting.now.patterns.now in
        GoesIf a reply ((judged (with_text a (tt {0}) (string_bytes text) (values_of value.now)) ▷ λ more. chain (here c (variables_of s)) (with_text a) (map (denotes a reply) parts.now) more) ▷ λ all. give (StringValue all ∷ [])) c s c s result }
    ensures of_tree { (n : ℕ) → IfOk result (λ next. NextOfTree n next) }
{
    let more = text_operand(setting, value)?;
    let mut text = text;
    text.push_str(more.as_str())?;
    texts(setting.alloc, text, parts)
}

/// `a | b | ..` with the nodes so far and the operands left.
pub fn nodes<'e, 't>(found: NodeItems<'t>, parts: &'e [Expr]) -> Next<'e, 't>
    ensures goes { (a : Around) (reply : Replies) (c : Context) (s : Scoped) → Goes a reply (chain (here c (variables_of s)) with_nodes (map (denotes a reply) parts.now) (values_of found.entry) ▷ λ all. give (ordered all)) c s c s result }
    ensures of_tree { (n : ℕ) → OfTree n (values_of found.entry) → NextOfTree n result }
{
    match parts {
        [] => Next::Value(found.in_order()),
        [part, rest @ ..] => Next::Within(Task::Expression(part), Frame::Nodes(found, rest)),
    }
}

/// The same with one more value.
pub fn nodes_after<'e, 't>(
    found: NodeItems<'t>,
    parts: &'e [Expr],
    value: Sequence<'t>,
) -> Result<Next<'e, 't>, XFault>
    ensures goes { (a : Around) (reply : Replies) (c : Context) (s : Scoped) →
        GoesIf a reply ((judged (with_nodes (tt {0}) (values_of found.entry) (values_of value.entry)) ▷ λ more. chain (here c (variables_of s)) with_nodes (map (denotes a reply) parts.now) more) ▷ λ all. give (ordered all)) c s c s result }
    ensures of_tree { (n : ℕ) → OfTree n (values_of found.entry) → OfTree n (values_of value.entry) → IfOk result (λ next. NextOfTree n next) }
{
    let more = NodeItems::of(value)?;
    let found = found.joined(more)?;
    Ok(nodes(found, parts))
}

/// `a intersect b except ..` with the nodes so far and the operands left.
pub fn sets<'e, 't>(found: NodeItems<'t>, parts: &'e [(SetOperator, Expr)]) -> Next<'e, 't>
    ensures goes { (a : Around) (reply : Replies) (c : Context) (s : Scoped) → Goes a reply (chain (behind c (variables_of s)) with_set (operated_by (denotes a reply) parts.now) (values_of found.entry)) c s c s result }
    ensures of_tree { (n : ℕ) → OfTree n (values_of found.entry) → NextOfTree n result }
{
    match parts {
        [] => Next::Value(found.into_items()),
        [part, rest @ ..] => Next::Within(
            Task::Expression(&part.1),
            Frame::Set(found, part.0, rest),
        ),
    }
}

/// The first operand's value.
pub fn sets_from<'e, 't>(
    parts: &'e [(SetOperator, Expr)],
    value: Sequence<'t>,
) -> Result<Next<'e, 't>, XFault>
    ensures goes { (a : Around) (reply : Replies) (c : Context) (s : Scoped) →
        GoesIf a reply (judged (only_nodes (values_of value.entry)) ▷ λ nodes. chain (behind c (variables_of s)) with_set (operated_by (denotes a reply) parts.now) nodes) c s c s result }
    ensures of_tree { (n : ℕ) → OfTree n (values_of value.entry) → IfOk result (λ next. NextOfTree n next) }
{
    let found = NodeItems::of(value)?;
    Ok(sets(found, parts))
}

/// The same with one more value, behind its operator.
pub fn sets_after<'e, 't>(
    found: NodeItems<'t>,
    operator: SetOperator,
    parts: &'e [(SetOperator, Expr)],
    value: Sequence<'t>,
) -> Result<Next<'e, 't>, XFault>
    ensures goes { (a : Around) (reply : Replies) (c : Context) (s : Scoped) →
        GoesIf a reply (judged (with_set (operator, tt {0}) (values_of found.entry) (values_of value.entry)) ▷ λ more. chain (behind c (variables_of s)) with_set (operated_by (denotes a reply) parts.now) more) c s c s result }
    ensures of_tree { (n : ℕ) → OfTree n (values_of found.entry) → OfTree n (values_of value.entry) → IfOk result (λ next. NextOfTree n next) }
{
    let others = NodeItems::of(value)?;
    let found = found.chosen(operator, others)?;
    Ok(sets(found, parts))
}

/// A call of a function with the arguments so far and those left.
pub fn arguments<'e, 't, A: Attributes>(
    setting: &Setting<'t, A>,
    function: Function,
    values: Arguments<'t>,
    parts: &'e [Expr],
    at: &At<'t>,
) -> Result<Next<'e, 't>, XFault>
    requires item { IsOfTree (length setting.now.tree.now.nodes) at.now.item }
    requires values { ArgumentsOfTree (length setting.now.tree.now.nodes) (map values_of values) }
    ensures goes { (reply : Replies) (s : Scoped) →
        let a = around setting.now.tree.now (A.attribute_of setting.now.facts.now) (A.names_of setting.now.facts.now) setting.now.patterns.now in
        GoesIf a reply (chain (here at.now (variables_of s)) with_argument (map (denotes a reply) parts.now) (map values_of values.entry) ▷ λ all. judged (call_of a function at.now all)) at.now s at.now s result }
    ensures of_tree { IfOk result (λ next. NextOfTree (length setting.now.tree.now.nodes) next) }
{
    let [part, rest @ ..] = parts else {
        let value = call(setting, function, at, &values)?;
        return Ok(Next::Value(value));
    };
    Ok(Next::Within(
        Task::Expression(part),
        Frame::Arguments(function, values, rest),
    ))
}

/// The same with one more argument.
pub fn arguments_after<'e, 't, A: Attributes>(
    setting: &Setting<'t, A>,
    function: Function,
    values: Arguments<'t>,
    parts: &'e [Expr],
    at: &At<'t>,
    value: Sequence<'t>,
) -> Result<Next<'e, 't>, XFault>
    requires item { IsOfTree (length setting.now.tree.now.nodes) at.now.item }
    requires values { ArgumentsOfTree (length setting.now.tree.now.nodes) (map values_of values) }
    requires value { OfTree (length setting.now.tree.now.nodes) (values_of value) }
    ensures goes { (reply : Replies) (s : Scoped) →
        let a = around setting.now.tree.now (A.attribute_of setting.now.facts.now) (A.names_of setting.now.facts.now) setting.now.patterns.now in
        GoesIf a reply (chain (here at.now (variables_of s)) with_argument (map (denotes a reply) parts.now) (map values_of values.entry ++ values_of value.entry ∷ []) ▷ λ all. judged (call_of a function at.now all)) at.now s at.now s result }
    ensures of_tree { IfOk result (λ next. NextOfTree (length setting.now.tree.now.nodes) next) }
{
    let mut values = values;
    values.push(value)?;
    arguments(setting, function, values, parts, at)
}

/// A call of a function of PMD with the arguments so far and those left.
pub fn pmd_arguments<'e, 't>(
    function: PmdFunction,
    values: Arguments<'t>,
    parts: &'e [Expr],
) -> Result<Next<'e, 't>, XFault>
    ensures goes { (a : Around) (reply : Replies) (c : Context) (s : Scoped) →
        GoesIf a reply (chain (here c (variables_of s)) with_argument (map (denotes a reply) parts.now) (map values_of values.entry) ▷ λ all. pmd_call reply function c all) c s c s result }
    ensures of_tree { (n : ℕ) → ArgumentsOfTree n (map values_of values.entry) → IfOk result (λ next. NextOfTree n next) }
{
    match parts {
        [] => {
            if !function.takes(values.len()) {
                return Err(XFault::Code(XCode::XPTY0004));
            }
            Ok(Next::Reply(function, values))
        }
        [part, rest @ ..] => Ok(Next::Within(
            Task::Expression(part),
            Frame::PmdArguments(function, values, rest),
        )),
    }
}

/// The same with one more argument.
pub fn pmd_arguments_after<'e, 't>(
    function: PmdFunction,
    values: Arguments<'t>,
    parts: &'e [Expr],
    value: Sequence<'t>,
) -> Result<Next<'e, 't>, XFault>
    ensures goes { (a : Around) (reply : Replies) (c : Context) (s : Scoped) →
        GoesIf a reply (chain (here c (variables_of s)) with_argument (map (denotes a reply) parts.now) (map values_of values.entry ++ values_of value.entry ∷ []) ▷ λ all. pmd_call reply function c all) c s c s result }
    ensures of_tree { (n : ℕ) → ArgumentsOfTree n (map values_of values.entry) → OfTree n (values_of value.entry) → IfOk result (λ next. NextOfTree n next) }
{
    let mut values = values;
    values.push(value)?;
    pmd_arguments(function, values, parts)
}
