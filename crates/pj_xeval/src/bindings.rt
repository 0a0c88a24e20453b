//! Constructs that bind variables: `for`, `some`, `every` and `let`.
ghost use Rattle.std.specs.Prelude.{◌≡◌, ℕ, ◌+◌, ◌∷◌, ◌++◌, [], IfOk, OnOk, if◌then◌else◌};
ghost use Rattle.pj_xvalue.specs.Boolean.{effective_boolean};
ghost use Rattle.pj_xvalue.specs.Items.{values_of};
ghost use Rattle.pj_xvalue.specs.OfTree.{OfTree, VariablesOfTree};
ghost use Rattle.pj_xsteps.specs.Means.{give, judged, chain, decided, decides as decides_meaning, one_boolean};
ghost use Rattle.pj_xsteps.specs.Context.{Around, Context};
ghost use Rattle.pj_xsteps.specs.Turns.{with_all};
ghost use Rattle.pj_xsteps.specs.Bindings.{for_in, let_in, quantified as quantified_in, with_item};
ghost use Rattle.pj_xsteps.specs.Parts.{bindings_of};
ghost use Rattle.pj_xsteps.specs.Denotes.{denotes};
ghost use Rattle.pj_xframes.specs.Frames.{◌▷◌, Replies, for_left, quantified_left};
ghost use Rattle.pj_xframes.specs.Going.{ForTurnsOfTree, Goes, GoesIf, NextOfTree};
ghost use Rattle.pj_xframes.specs.Scopes.{Scoped, variables_of, without};

use pj_base::{NoMemory, Text};
use pj_xexpressions::{Expr, Quantifier};
use pj_xframes::{
    Binder, Binding, ForTurns, Frame, Next, QuantifiedTurns, Scope, Task, boolean, decides,
};
use pj_xsteps::{one, turned_back};
use pj_xvalue::{Sequence, XFault, boolean_value};
use std::alloc::Global;

/// Begins a `for`.
pub fn for_from<'e, 't>(bindings: &'e [(Text, Expr)], body: &'e Expr) -> Next<'e, 't>
    ensures goes { (a : Around) (reply : Replies) (c : Context) (s : Scoped) → Goes a reply (for_in (bindings_of (denotes a reply) bindings.now) (denotes a reply body.now) c (variables_of s)) c s c s result }
    ensures of_tree { (n : ℕ) → NextOfTree n result }
{
    match bindings {
        [] => Next::Instead(Task::Expression(body)),
        [first, rest @ ..] => Next::Within(
            Task::Expression(&first.1),
            Frame::Source(
                Binding::For,
                Binder {
                    name: &first.0,
                    rest,
                    body,
                },
            ),
        ),
    }
}

/// A `for` with the items of its first variable that are still to come.
#[tactic(auto, using(crate::proofs::OfTree::of_tree))]
pub fn for_turn<'e, 't>(
    alloc: Global,
    turns: Box<ForTurns<'e, 't>>,
    scope: &mut Scope<'e, 't>,
) -> Result<Next<'e, 't>, XFault>
    ensures goes { (a : Around) (reply : Replies) (c : Context) → GoesIf a reply (for_left a reply turns.entry.value (values_of turns.entry.value.found) c (variables_of scope.old)) c scope.new c scope.old result }
    ensures of_tree { (n : ℕ) → ForTurnsOfTree n turns.entry.value → IfOk result (λ next. NextOfTree n next) }
    ensures scope { (n : ℕ) → OfTree n (values_of turns.entry.value.left) → VariablesOfTree n (variables_of scope.old) → OnOk result (VariablesOfTree n (variables_of scope.new)) }
{
    let mut turns = turns;
    match turns.left.pop() {
        None => {
            let ForTurns {
                name: _,
                left: _,
                found,
                rest: _,
                body: _,
            } = Box::into_inner(turns);
            Ok(Next::Value(found))
        }
        Some(item) => {
            scope.bind(turns.name, one(alloc, item)?)?;
            let task = Task::For(turns.rest, turns.body);
            Ok(Next::Within(task, Frame::For(turns)))
        }
    }
}

/// The sequence of the first variable of a `for`.
#[tactic(auto, using(crate::proofs::OfTree::of_tree))]
pub fn for_over<'e, 't>(
    alloc: Global,
    binder: Binder<'e>,
    value: Sequence<'t>,
    scope: &mut Scope<'e, 't>,
) -> Result<Next<'e, 't>, XFault>
    ensures goes { (a : Around) (reply : Replies) (c : Context) →
        GoesIf a reply (chain (with_item binder.entry.name.now (for_in (bindings_of (denotes a reply) binder.entry.rest.now) (denotes a reply binder.entry.body.now)) c (variables_of scope.old)) with_all (values_of value.entry) []) c scope.new c scope.old result }
    ensures of_tree { (n : ℕ) → OfTree n (values_of value.entry) → IfOk result (λ next. NextOfTree n next) }
    ensures scope { (n : ℕ) → OfTree n (values_of value.entry) → VariablesOfTree n (variables_of scope.old) → OnOk result (VariablesOfTree n (variables_of scope.new)) }
{
    let Binder { name, rest, body } = binder;
    let left = turned_back(value);
    let found = Sequence::new(alloc);
    let turns = Box::new(
        alloc,
        ForTurns {
            name,
            left,
            found,
            rest,
            body,
        },
    )?;
    for_turn(alloc, turns, scope)
}

/// The value of one turn of a `for`.
#[tactic(auto, using(crate::proofs::OfTree::of_tree))]
pub fn for_after<'e, 't>(
    alloc: Global,
    turns: Box<ForTurns<'e, 't>>,
    value: Sequence<'t>,
    scope: &mut Scope<'e, 't>,
) -> Result<Next<'e, 't>, XFault>
    ensures goes { (a : Around) (reply : Replies) (c : Context) →
        GoesIf a reply (for_left a reply turns.entry.value (values_of turns.entry.value.found ++ values_of value.entry) c (variables_of (without 1 scope.old))) c scope.new c (without 1 scope.old) result }
    ensures of_tree { (n : ℕ) → ForTurnsOfTree n turns.entry.value → OfTree n (values_of value.entry) → IfOk result (λ next. NextOfTree n next) }
    ensures scope { (n : ℕ) → ForTurnsOfTree n turns.entry.value → VariablesOfTree n (variables_of scope.old) → OnOk result (VariablesOfTree n (variables_of scope.new)) }
{
    scope.unbind();
    let mut turns = turns;
    turns.found.append(value)?;
    for_turn(alloc, turns, scope)
}

/// Begins a `some` or `every`.
pub fn quantified_from<'e, 't>(
    quantifier: Quantifier,
    bindings: &'e [(Text, Expr)],
    test: &'e Expr,
) -> Next<'e, 't>
    ensures goes { (a : Around) (reply : Replies) (c : Context) (s : Scoped) → Goes a reply (quantified_in quantifier (bindings_of (denotes a reply) bindings.now) (denotes a reply test.now) c (variables_of s)) c s c s result }
    ensures of_tree { (n : ℕ) → NextOfTree n result }
{
    match bindings {
        [] => Next::Within(Task::Expression(test), Frame::Truth),
        [first, rest @ ..] => Next::Within(
            Task::Expression(&first.1),
            Frame::Source(
                Binding::Quantified(quantifier),
                Binder {
                    name: &first.0,
                    rest,
                    body: test,
                },
            ),
        ),
    }
}

/// A `some` or `every` with the items of its first variable that are still to come, of which none before decided.
#[tactic(auto, using(crate::proofs::OfTree::of_tree))]
pub fn quantified_turn<'e, 't>(
    alloc: Global,
    turns: Box<QuantifiedTurns<'e, 't>>,
    scope: &mut Scope<'e, 't>,
) -> Result<Next<'e, 't>, XFault>
    ensures goes { (a : Around) (reply : Replies) (c : Context) → GoesIf a reply (quantified_left a reply turns.entry.value c (variables_of scope.old)) c scope.new c scope.old result }
    ensures of_tree { (n : ℕ) → OfTree n (values_of turns.entry.value.left) → IfOk result (λ next. NextOfTree n next) }
    ensures scope { (n : ℕ) → OfTree n (values_of turns.entry.value.left) → VariablesOfTree n (variables_of scope.old) → OnOk result (VariablesOfTree n (variables_of scope.new)) }
{
    let mut turns = turns;
    match turns.left.pop() {
        None => boolean(alloc, !decides(turns.quantifier, true)),
        Some(item) => {
            scope.bind(turns.name, one(alloc, item)?)?;
            let task = Task::Quantified(turns.quantifier, turns.rest, turns.test);
            Ok(Next::Within(task, Frame::Quantified(turns)))
        }
    }
}

/// The sequence of the first variable of a `some` or `every`.
#[tactic(auto, using(crate::proofs::OfTree::of_tree))]
pub fn quantified_over<'e, 't>(
    alloc: Global,
    quantifier: Quantifier,
    binder: Binder<'e>,
    value: Sequence<'t>,
    scope: &mut Scope<'e, 't>,
) -> Result<Next<'e, 't>, XFault>
    ensures goes { (a : Around) (reply : Replies) (c : Context) →
        GoesIf a reply (decided quantifier (with_item binder.entry.name.now (quantified_in quantifier (bindings_of (denotes a reply) binder.entry.rest.now) (denotes a reply binder.entry.body.now)) c (variables_of scope.old)) (values_of value.entry)) c scope.new c scope.old result }
    ensures of_tree { (n : ℕ) → OfTree n (values_of value.entry) → IfOk result (λ next. NextOfTree n next) }
    ensures scope { (n : ℕ) → OfTree n (values_of value.entry) → VariablesOfTree n (variables_of scope.old) → OnOk result (VariablesOfTree n (variables_of scope.new)) }
{
    let Binder { name, rest, body } = binder;
    let left = turned_back(value);
    let turns = Box::new(
        alloc,
        QuantifiedTurns {
            quantifier,
            name,
            left,
            rest,
            test: body,
        },
    )?;
    quantified_turn(alloc, turns, scope)
}

/// The value of one turn of a `some` or `every`.
#[tactic(auto, using(crate::proofs::OfTree::of_tree))]
pub fn quantified_after<'e, 't>(
    alloc: Global,
    turns: Box<QuantifiedTurns<'e, 't>>,
    value: &Sequence<'t>,
    scope: &mut Scope<'e, 't>,
) -> Result<Next<'e, 't>, XFault>
    ensures goes { (a : Around) (reply : Replies) (c : Context) →
        GoesIf a reply (judged (effective_boolean (values_of value.now)) ▷ λ truth. if decides_meaning turns.entry.value.quantifier truth then give (one_boolean truth) else quantified_left a reply turns.entry.value c (variables_of (without 1 scope.old))) c scope.new c (without 1 scope.old) result }
    ensures of_tree { (n : ℕ) → OfTree n (values_of turns.entry.value.left) → IfOk result (λ next. NextOfTree n next) }
    ensures scope { (n : ℕ) → OfTree n (values_of turns.entry.value.left) → VariablesOfTree n (variables_of scope.old) → OnOk result (VariablesOfTree n (variables_of scope.new)) }
{
    scope.unbind();
    let truth = boolean_value(value)?;
    if decides(turns.quantifier, truth) {
        boolean(alloc, truth)
    } else {
        quantified_turn(alloc, turns, scope)
    }
}

/// Begins a `let`.
pub fn let_from<'e, 't>(bindings: &'e [(Text, Expr)], body: &'e Expr) -> Next<'e, 't>
    ensures goes { (a : Around) (reply : Replies) (c : Context) (s : Scoped) → Goes a reply (let_in (bindings_of (denotes a reply) bindings.now) (denotes a reply body.now) c (variables_of s)) c s c s result }
    ensures of_tree { (n : ℕ) → NextOfTree n result }
{
    match bindings {
        [] => Next::Instead(Task::Expression(body)),
        [first, rest @ ..] => Next::Within(
            Task::Expression(&first.1),
            Frame::Source(
                Binding::Let(0),
                Binder {
                    name: &first.0,
                    rest,
                    body,
                },
            ),
        ),
    }
}

/// How many variables of a `let` are bound with one more.
fn one_more(bound: usize) -> Result<usize, NoMemory>
    ensures { IfOk result (λ count. count ≡ bound + 1) }
{
    match bound.checked_add(1) {
        Some(count) => Ok(count),
        None => Err(NoMemory),
    }
}

/// The value of a variable of a `let`.
#[tactic(auto, using(crate::proofs::OfTree::of_tree))]
pub fn let_after<'e, 't>(
    bound: usize,
    binder: Binder<'e>,
    value: Sequence<'t>,
    scope: &mut Scope<'e, 't>,
) -> Result<Next<'e, 't>, XFault>
    ensures goes { (a : Around) (reply : Replies) (c : Context) →
        GoesIf a reply (let_in (bindings_of (denotes a reply) binder.entry.rest.now) (denotes a reply binder.entry.body.now) c ((binder.entry.name.now, values_of value.entry) ∷ variables_of scope.old)) c scope.new c (without bound scope.old) result }
    ensures of_tree { (n : ℕ) → IfOk result (λ next. NextOfTree n next) }
    ensures scope { (n : ℕ) → OfTree n (values_of value.entry) → VariablesOfTree n (variables_of scope.old) → OnOk result (VariablesOfTree n (variables_of scope.new)) }
{
    let Binder { name, rest, body } = binder;
    let count = one_more(bound)?;
    scope.bind(name, value)?;
    match rest {
        [] => Ok(Next::Within(Task::Expression(body), Frame::LetBody(count))),
        [first, others @ ..] => Ok(Next::Within(
            Task::Expression(&first.1),
            Frame::Source(
                Binding::Let(count),
                Binder {
                    name: &first.0,
                    rest: others,
                    body,
                },
            ),
        )),
    }
}

/// The value of the body of a `let`.
#[tactic(auto, using(crate::proofs::OfTree::of_tree))]
pub fn let_body<'e, 't>(
    count: usize,
    value: Sequence<'t>,
    scope: &mut Scope<'e, 't>,
) -> Next<'e, 't>
    ensures goes { (a : Around) (reply : Replies) (c : Context) → Goes a reply (give (values_of value.entry)) c scope.new c (without count scope.old) result }
    ensures of_tree { (n : ℕ) → OfTree n (values_of value.entry) → NextOfTree n result }
    ensures scope { (n : ℕ) → VariablesOfTree n (variables_of scope.old) → VariablesOfTree n (variables_of scope.new) }
{
    scope.unbind_all(count);
    Next::Value(value)
}
