//! How a task begins.
ghost use Rattle.std.specs.Prelude.{◌≡◌, ℕ, ◌∷◌, [], IfOk, length, map};
ghost use Rattle.pj_xvalue.specs.Items.{Document as DocumentValue, values_of, IsOfTree};
ghost use Rattle.pj_xvalue.specs.OfTree.{OfTree, VariablesOfTree};
ghost use Rattle.pj_xaxes.specs.Axes.{is_reverse};
ghost use Rattle.pj_xsteps.specs.Means.{give};
ghost use Rattle.pj_xsteps.specs.Context.{Around, Context, around};
ghost use Rattle.pj_xsteps.specs.Steps.{attributes as attributes_of, from_node, in_document_order, stepped as stepped_of};
ghost use Rattle.pj_xsteps.specs.Turns.{narrowed, path, simple_map};
ghost use Rattle.pj_xsteps.specs.Denotes.{denotes};
ghost use Rattle.pj_xframes.specs.Frames.{◌▷◌, Replies, context_left, reacted, scope_left, task_meaning};
ghost use Rattle.pj_xframes.specs.Going.{FrameOfTree, Goes, GoesIf, NextOfTree};
ghost use Rattle.pj_xframes.specs.Scopes.{Scoped, variables_of};

use crate::bindings::{for_from, let_from, quantified_from};
use pj_base::Copied;
use pj_xexpressions::{Axis, Expr, NodeTest, Quantifier};
use pj_xframes::{
    Frame, Next, Scope, Task, Turn, arguments, items, nodes, pmd_arguments, texts, truths,
};
use pj_xsteps::{At, NodeItems, Setting, attributes, is_backwards, literal, one, stepped};
use pj_xvalue::{Arguments, Attributes, Item, Sequence, XCode, XFault};
use std::alloc::Global;

/// `/`: the document, where the context item is a node.
#[tactic(auto, using(crate::proofs::Steps::steps, crate::proofs::OfTree::of_tree))]
fn root<'e, 't>(alloc: Global, at: &At<'t>) -> Result<Next<'e, 't>, XFault>
    ensures goes { (a : Around) (reply : Replies) (s : Scoped) → GoesIf a reply (from_node at.now.item (give (DocumentValue ∷ []))) at.now s at.now s result }
    ensures of_tree { (n : ℕ) → IfOk result (λ next. NextOfTree n next) }
{
    if !at.item.is_node() {
        return Err(XFault::Code(XCode::XPTY0020));
    }
    Ok(Next::Value(one(alloc, Item::Document)?))
}

/// An axis step: its items, over which the predicates go.
#[tactic(auto, using(crate::proofs::Steps::steps, crate::proofs::OfTree::of_tree))]
fn axis_step<'e, 't, A: Attributes>(
    setting: &Setting<'t, A>,
    along: Axis,
    test: &'e NodeTest,
    predicates: &'e [Expr],
    at: &At<'t>,
) -> Result<Next<'e, 't>, XFault>
    requires { IsOfTree (length setting.now.tree.now.nodes) at.now.item }
    ensures goes { (reply : Replies) (s : Scoped) →
        let a = around setting.now.tree.now (A.attribute_of setting.now.facts.now) (A.names_of setting.now.facts.now) setting.now.patterns.now in
        GoesIf a reply (from_node at.now.item (narrowed (variables_of s) (map (denotes a reply) predicates.now) (stepped_of setting.now.tree.now along test.now at.now.item) ▷ λ found. give (in_document_order (is_reverse along) found))) at.now s at.now s result }
    ensures of_tree { IfOk result (λ next. NextOfTree (length setting.now.tree.now.nodes) next) }
{
    if !at.item.is_node() {
        return Err(XFault::Code(XCode::XPTY0020));
    }
    let found = stepped(setting.alloc, setting.tree, along, test, &at.item)?;
    if is_backwards(along) {
        Ok(Next::Over(Turn::Backward, predicates, found))
    } else {
        Ok(Next::Over(Turn::Forward, predicates, found))
    }
}

/// An attribute step: its items, over which the predicates go.
#[tactic(auto, using(crate::proofs::Steps::steps, crate::proofs::OfTree::of_tree))]
fn attribute_step<'e, 't, A: Attributes>(
    setting: &Setting<'t, A>,
    test: &'e NodeTest,
    predicates: &'e [Expr],
    at: &At<'t>,
) -> Result<Next<'e, 't>, XFault>
    requires { IsOfTree (length setting.now.tree.now.nodes) at.now.item }
    ensures goes { (reply : Replies) (s : Scoped) →
        let a = around setting.now.tree.now (A.attribute_of setting.now.facts.now) (A.names_of setting.now.facts.now) setting.now.patterns.now in
        GoesIf a reply (from_node at.now.item (narrowed (variables_of s) (map (denotes a reply) predicates.now) (attributes_of a test.now at.now.item))) at.now s at.now s result }
    ensures of_tree { IfOk result (λ next. NextOfTree (length setting.now.tree.now.nodes) next) }
{
    if !at.item.is_node() {
        return Err(XFault::Code(XCode::XPTY0020));
    }
    let found = attributes(setting, test, &at.item)?;
    Ok(Next::Over(Turn::Forward, predicates, found))
}

/// A path: the first step by itself, and then the others over its items.
fn path_from<'e, 't>(alloc: Global, steps: &'e [Expr]) -> Next<'e, 't>
    ensures goes { (a : Around) (reply : Replies) (c : Context) (s : Scoped) → Goes a reply (path (map (denotes a reply) steps.now) c (variables_of s)) c s c s result }
    ensures of_tree { (n : ℕ) → NextOfTree n result }
{
    match steps {
        [] => Next::Value(Sequence::new(alloc)),
        [first, rest @ ..] => Next::Within(Task::Expression(first), Frame::First(Turn::Step, rest)),
    }
}

/// A simple map: the first part by itself, and then the others over its items.
fn map_from<'e, 't>(alloc: Global, parts: &'e [Expr]) -> Next<'e, 't>
    ensures goes { (a : Around) (reply : Replies) (c : Context) (s : Scoped) → Goes a reply (simple_map (map (denotes a reply) parts.now) c (variables_of s)) c s c s result }
    ensures of_tree { (n : ℕ) → NextOfTree n result }
{
    match parts {
        [] => Next::Value(Sequence::new(alloc)),
        [first, rest @ ..] => Next::Within(Task::Expression(first), Frame::First(Turn::Part, rest)),
    }
}

/// A construct that waits for the value of an expression.
fn within<'e, 't>(expr: &'e Expr, frame: Frame<'e, 't>) -> Result<Next<'e, 't>, XFault>
    ensures goes { (a : Around) (reply : Replies) (c : Context) (s : Scoped) → GoesIf a reply (denotes a reply expr.now c (variables_of s) ▷ λ value. reacted a reply frame.entry c s value) c s (context_left frame.entry c) (scope_left frame.entry s) result }
    ensures of_tree { (n : ℕ) → FrameOfTree n frame.entry → IfOk result (λ next. NextOfTree n next) }
{
    Ok(Next::Within(Task::Expression(expr), frame))
}

/// A construct whose value is there.
fn valued<'e, 't>(items: Sequence<'t>) -> Result<Next<'e, 't>, XFault>
    ensures goes { (a : Around) (reply : Replies) (c : Context) (s : Scoped) → GoesIf a reply (give (values_of items.entry)) c s c s result }
    ensures of_tree { (n : ℕ) → OfTree n (values_of items.entry) → IfOk result (λ next. NextOfTree n next) }
{
    Ok(Next::Value(items))
}

/// How an expression begins.
#[tactic(auto, using(pj_xsteps::proofs::Forms::forms, crate::proofs::OfTree::of_tree))]
fn expression<'e, 't, A: Attributes>(
    setting: &Setting<'t, A>,
    expr: &'e Expr,
    at: &At<'t>,
    scope: &Scope<'e, 't>,
) -> Result<Next<'e, 't>, XFault>
    requires item { IsOfTree (length setting.now.tree.now.nodes) at.now.item }
    requires variables { VariablesOfTree (length setting.now.tree.now.nodes) (variables_of scope.now) }
    ensures goes { (reply : Replies) →
        let a = around setting.now.tree.now (A.attribute_of setting.now.facts.now) (A.names_of setting.now.facts.now) setting.now.patterns.now in
        GoesIf a reply (denotes a reply expr.now at.now (variables_of scope.now)) at.now scope.now at.now scope.now result }
    ensures of_tree { IfOk result (λ next. NextOfTree (length setting.now.tree.now.nodes) next) }
{
    let alloc = setting.alloc;
    match expr {
        Expr::Comma(parts) => return Ok(items(Sequence::new(alloc), parts.as_slice())),
        Expr::For(bindings, body) => return Ok(for_from(bindings.as_slice(), body)),
        Expr::Let(bindings, body) => return Ok(let_from(bindings.as_slice(), body)),
        Expr::Quantified(quantifier, bindings, test) => {
            return Ok(quantified_from(*quantifier, bindings.as_slice(), test));
        }
        Expr::If(test, chosen, other) => {
            return within(test, Frame::If(chosen, other));
        }
        Expr::Or(parts) => return truths(alloc, Quantifier::Some, parts.as_slice()),
        Expr::And(parts) => return truths(alloc, Quantifier::Every, parts.as_slice()),
        Expr::Comparison(op, left, right) => {
            return within(left, Frame::Left(*op, right));
        }
        Expr::Concatenation(parts) => return texts(alloc, String::new(alloc), parts.as_slice()),
        Expr::Range(from, to) => return within(from, Frame::From(to)),
        Expr::Additive(first, rest) => return within(first, Frame::FirstTerm(rest.as_slice())),
        Expr::Multiplicative(first, rest) => return within(
            first,
            Frame::FirstFactor(rest.as_slice()),
        ),
        Expr::Union(parts) => return Ok(nodes(NodeItems::new(alloc), parts.as_slice())),
        Expr::IntersectExcept(first, rest) => return within(
            first,
            Frame::FirstSet(rest.as_slice()),
        ),
        Expr::Unary(sign, operand) => {
            return within(operand, Frame::Sign(*sign));
        }
        Expr::SimpleMap(parts) => return Ok(map_from(alloc, parts.as_slice())),
        Expr::Path(steps) => return Ok(path_from(alloc, steps.as_slice())),
        Expr::Root => return root(alloc, at),
        Expr::Step(along, test, predicates) => {
            return axis_step(setting, *along, test, predicates.as_slice(), at);
        }
        Expr::AttributeStep(test, predicates) => {
            return attribute_step(setting, test, predicates.as_slice(), at);
        }
        Expr::Filter(primary, predicates) => return within(
            primary,
            Frame::First(Turn::Forward, predicates.as_slice()),
        ),
        Expr::Integer(value) => return valued(literal(alloc, *value)?),
        Expr::String(text) => return valued(one(alloc, Item::Str(text.copied()?))?),
        Expr::Variable(name) => return valued(scope.value_of(alloc, name)?),
        Expr::ContextItem => return valued(one(alloc, at.item.copied()?)?),
        Expr::Call(function, parts) => return arguments(
            setting,
            *function,
            Arguments::new(alloc),
            parts.as_slice(),
            at,
        ),
        Expr::PmdCall(function, parts) => {
            return pmd_arguments(*function, Arguments::new(alloc), parts.as_slice());
        }
    }
}

/// How a task begins.
pub fn begin<'e, 't, A: Attributes>(
    setting: &Setting<'t, A>,
    task: Task<'e>,
    at: &At<'t>,
    scope: &Scope<'e, 't>,
) -> Result<Next<'e, 't>, XFault>
    requires item { IsOfTree (length setting.now.tree.now.nodes) at.now.item }
    requires variables { VariablesOfTree (length setting.now.tree.now.nodes) (variables_of scope.now) }
    ensures goes { (reply : Replies) →
        let a = around setting.now.tree.now (A.attribute_of setting.now.facts.now) (A.names_of setting.now.facts.now) setting.now.patterns.now in
        GoesIf a reply (task_meaning a reply task.entry at.now (variables_of scope.now)) at.now scope.now at.now scope.now result }
    ensures of_tree { IfOk result (λ next. NextOfTree (length setting.now.tree.now.nodes) next) }
{
    match task {
        Task::Expression(expr) => expression(setting, expr, at, scope),
        Task::For(bindings, body) => Ok(for_from(bindings, body)),
        Task::Quantified(quantifier, bindings, test) => {
            Ok(quantified_from(quantifier, bindings, test))
        }
    }
}
