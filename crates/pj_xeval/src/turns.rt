//! Constructs whose parts have one item after the other as the context: predicates, paths and simple maps.
ghost use Rattle.std.specs.Prelude.{◌≡◌, ℕ, pos, ◌+◌, ◌∷◌, [], IfOk, OnOk, IsTrue, Ok, length, map};
ghost use Rattle.pj_xexpressions.specs.declared.axis.Axis.TheVariants.{Child, DescendantOrSelf};
ghost use Rattle.pj_xexpressions.specs.declared.expr.NodeTest.TheVariants.{AnyNode};
ghost use Rattle.pj_xvalue.specs.Items.{Document as DocumentValue, value_of_item, values_of, is_node, IsOfTree};
ghost use Rattle.pj_xvalue.specs.OfTree.{OfTree};
ghost use Rattle.pj_xvalue.specs.Replies.{outcome};
ghost use Rattle.pj_xvalue.specs.Arguments.{IsGiven};
ghost use Rattle.pj_xsteps.specs.Means.{judged};
ghost use Rattle.pj_xsteps.specs.Context.{Around, Context, Variables, around, at as at_item};
ghost use Rattle.pj_xsteps.specs.Denotes.{denotes};
ghost use Rattle.pj_xframes.specs.declared.frame.Turn.TheVariants.{Step as StepTurn};
ghost use Rattle.pj_xframes.specs.Frames.{Replies, finished, may_turn, over, taken as taken_by, turns_after, turns_left};
ghost use Rattle.pj_xframes.specs.Going.{Goes, GoesIf, NextOfTree, TurnsOfTree};
ghost use Rattle.pj_xframes.specs.Scopes.{Scoped, variables_of};
ghost use Rattle.pj_xeval.specs.Plain.{BeginsBelow, plain_step};

use crate::over::{parents_below, step_from_each};
use pj_base::NoMemory;
use pj_xexpressions::{Axis, Expr, NodeTest};
use pj_xframes::{Frame, Next, Task, Turn, Turns};
use pj_xsteps::{At, Setting, keeps_at, turned_back, united};
use pj_xvalue::{Attributes, Item, Sequence, XCode, XFault, are_nodes};
use std::alloc::Global;
use std::mem;

/// A place as an integer. One past 64 bits is want of memory, since nothing has so many members.
fn integer(place: u64) -> Result<i64, NoMemory>
    ensures { IfOk result (λ number. number ≡ pos place) }
{
    match i64::try_from(place) {
        Ok(number) => Ok(number),
        Err(_) => Err(NoMemory),
    }
}

/// The item as the context.
fn context<'t>(item: Item<'t>, position: u64, size: u64) -> Result<At<'t>, NoMemory>
    ensures { IfOk result (λ at. at ≡ at_item (value_of_item item.entry) position size) }
{
    let position = integer(position)?;
    let size = integer(size)?;
    Ok(At {
        item,
        position,
        size,
    })
}

/// The position behind.
fn one_more(position: u64) -> Result<u64, NoMemory>
    ensures { IfOk result (λ next. next ≡ position + 1) }
{
    match position.checked_add(1) {
        Some(next) => Ok(next),
        None => Err(NoMemory),
    }
}

/// The context, in whose place is none any more.
fn taken_out<'t>(at: &mut At<'t>) -> At<'t>
    ensures value { result ≡ at.old }
    ensures left { at.new.item ≡ DocumentValue }
{
    mem::replace(
        at,
        At {
            item: Item::Document,
            position: 1,
            size: 1,
        },
    )
}

/// The context item, in whose place is the document.
fn item_out<'t>(at: &mut At<'t>) -> Item<'t>
    ensures value { value_of_item result ≡ at.old.item }
    ensures left { at.new.item ≡ DocumentValue }
{
    let At {
        item,
        position: _,
        size: _,
    } = taken_out(at);
    item
}

/// Whether the item may be the context of a step of a path.
fn may_turn(what: Turn, item: &Item<'_>) -> bool
    ensures { result ≡ may_turn what (is_node (value_of_item item.now)) }
{
    match what {
        Turn::Step => item.is_node(),
        Turn::Forward => true,
        Turn::Backward => true,
        Turn::Part => true,
    }
}

/// What follows the last turn.
#[tactic(auto, using(crate::proofs::Steps::steps, crate::proofs::OfTree::of_tree))]
fn finish<'e, 't>(
    what: Turn,
    parts: &'e [Expr],
    found: Sequence<'t>,
) -> Result<Next<'e, 't>, XFault>
    ensures goes { (a : Around) (reply : Replies) (c : Context) (s : Scoped) → GoesIf a reply (finished what (variables_of s) (map (denotes a reply) parts.now) (values_of found.entry)) c s c s result }
    ensures of_tree { (n : ℕ) → OfTree n (values_of found.entry) → IfOk result (λ next. NextOfTree n next) }
{
    match what {
        Turn::Step => {
            let nodes = united(found)?;
            Ok(Next::Over(what, parts, nodes))
        }
        Turn::Forward => Ok(Next::Over(what, parts, found)),
        Turn::Backward => Ok(Next::Over(what, parts, found)),
        Turn::Part => Ok(Next::Over(what, parts, found)),
    }
}

/// The turn of the next item, or the end of the turns, where the context around is the context again.
#[tactic(auto, using(crate::proofs::OfTree::of_tree))]
fn next_turn<'e, 't>(turns: Box<Turns<'e, 't>>, at: &mut At<'t>) -> Result<Next<'e, 't>, XFault>
    ensures goes { (a : Around) (reply : Replies) (s : Scoped) → GoesIf a reply (turns_left a reply turns.entry.value (values_of turns.entry.value.found) (variables_of s)) at.new s turns.entry.value.outer s result }
    ensures of_tree { (n : ℕ) → TurnsOfTree n turns.entry.value → IfOk result (λ next. NextOfTree n next) }
    ensures item { (n : ℕ) → OfTree n (values_of turns.entry.value.left) → IsOfTree n turns.entry.value.outer.item → OnOk result (IsOfTree n at.new.item) }
{
    let mut turns = turns;
    match turns.left.pop() {
        None => {
            let Turns {
                what,
                part: _,
                left: _,
                position: _,
                size: _,
                found,
                rest,
                outer,
            } = Box::into_inner(turns);
            *at = outer;
            finish(what, rest, found)
        }
        Some(item) => {
            if !may_turn(turns.what, &item) {
                return Err(XFault::Code(XCode::XPTY0019));
            }
            let position = one_more(turns.position)?;
            *at = context(item, position, turns.size)?;
            turns.position = position;
            let part = turns.part;
            Ok(Next::Within(Task::Expression(part), Frame::Turns(turns)))
        }
    }
}

/// Puts what the value of a turn adds behind the items found.
#[tactic(auto, using(crate::proofs::OfTree::of_tree))]
fn add_turn<'e, 't>(
    turns: &mut Turns<'e, 't>,
    value: Sequence<'t>,
    at: &mut At<'t>,
) -> Result<(), XFault>
    ensures value { IsGiven (taken_by turns.old.what (turns.old.position, at.old.item) (values_of turns.old.found) (values_of value.entry)) (outcome (λ _. values_of turns.new.found) result) }
    ensures kept { OnOk result (turns.new ≡ record turns.old { found = turns.new.found }) }
    ensures of_tree { (n : ℕ) → OfTree n (values_of turns.old.found) → OfTree n (values_of value.entry) → IsOfTree n at.old.item → OnOk result (OfTree n (values_of turns.new.found)) }
{
    match turns.what {
        Turn::Step => turns.found.append(value)?,
        Turn::Part => turns.found.append(value)?,
        Turn::Forward => {
            let number = integer(turns.position)?;
            if keeps_at(number, &value)? {
                turns.found.push(item_out(at))?;
            }
        }
        Turn::Backward => {
            let number = integer(turns.position)?;
            if keeps_at(number, &value)? {
                turns.found.push(item_out(at))?;
            }
        }
    }
    Ok(())
}

/// The value of one turn.
#[tactic(auto, using(crate::proofs::OfTree::of_tree))]
pub fn turn_after<'e, 't>(
    turns: Box<Turns<'e, 't>>,
    value: Sequence<'t>,
    at: &mut At<'t>,
) -> Result<Next<'e, 't>, XFault>
    ensures goes { (a : Around) (reply : Replies) (s : Scoped) → GoesIf a reply (turns_after a reply turns.entry.value (values_of value.entry) at.old (variables_of s)) at.new s turns.entry.value.outer s result }
    ensures of_tree { (n : ℕ) → TurnsOfTree n turns.entry.value → OfTree n (values_of value.entry) → IsOfTree n at.old.item → IfOk result (λ next. NextOfTree n next) }
    ensures item { (n : ℕ) → TurnsOfTree n turns.entry.value → OnOk result (IsOfTree n at.new.item) }
{
    let mut turns = turns;
    add_turn(&mut turns, value, at)?;
    next_turn(turns, at)
}

/// The items behind the last of the parts: those of a reverse axis are turned back to document order.
#[tactic(auto, using(crate::proofs::Steps::steps, crate::proofs::OfTree::of_tree))]
fn ordered_last<'t>(what: Turn, items: Sequence<'t>) -> Sequence<'t>
    ensures value { (v : Variables) → judged (Ok (values_of result)) ≡ over what v [] (values_of items.entry) }
    ensures of_tree { (n : ℕ) → OfTree n (values_of items.entry) → OfTree n (values_of result) }
{
    match what {
        Turn::Backward => turned_back(items),
        Turn::Forward => items,
        Turn::Step => items,
        Turn::Part => items,
    }
}

/// The first turn of a predicate, a step or a part over items.
#[tactic(auto, using(crate::proofs::OfTree::of_tree))]
fn first_turn<'e, 't>(
    alloc: Global,
    what: Turn,
    part: &'e Expr,
    rest: &'e [Expr],
    items: Sequence<'t>,
    at: &mut At<'t>,
) -> Result<Next<'e, 't>, XFault>
    ensures goes { (a : Around) (reply : Replies) (s : Scoped) → GoesIf a reply (over what (variables_of s) (denotes a reply part.now ∷ map (denotes a reply) rest.now) (values_of items.entry)) at.new s at.old s result }
    ensures of_tree { (n : ℕ) → OfTree n (values_of items.entry) → IsOfTree n at.old.item → IfOk result (λ next. NextOfTree n next) }
    ensures item { (n : ℕ) → OfTree n (values_of items.entry) → IsOfTree n at.old.item → OnOk result (IsOfTree n at.new.item) }
{
    let size = items.len() as u64;
    let left = turned_back(items);
    let found = Sequence::new(alloc);
    let outer = taken_out(at);
    let turns = Box::new(
        alloc,
        Turns {
            what,
            part,
            left,
            position: 0,
            size,
            found,
            rest,
            outer,
        },
    )?;
    next_turn(turns, at)
}

/// A step without predicates over items, which gives something at each without asking: all of them in one loop.
#[tactic(auto, using(crate::proofs::Steps::steps, crate::proofs::OfTree::of_tree))]
fn plain_step<'e, 't, A: Attributes>(
    setting: &Setting<'t, A>,
    along: Axis,
    test: &NodeTest,
    rest: &'e [Expr],
    items: &[Item<'t>],
) -> Result<Next<'e, 't>, XFault>
    requires { OfTree (length setting.now.tree.now.nodes) (values_of items.now) }
    ensures goes { (a : Around) (reply : Replies) (c : Context) (s : Scoped) → GoesIf a reply (plain_step setting.now.tree.now along test.now (variables_of s) (map (denotes a reply) rest.now) (values_of items.now)) c s c s result }
    ensures of_tree { IfOk result (λ next. NextOfTree (length setting.now.tree.now.nodes) next) }
{
    if !are_nodes(items) {
        return Err(XFault::Code(XCode::XPTY0019));
    }
    let found = step_from_each(setting.alloc, setting.tree, along, test, items)?;
    finish(Turn::Step, rest, found)
}

/// Whether the step is the one that `//` stands for.
fn is_descent(along: Axis, test: &NodeTest) -> bool
    ensures axis { IsTrue result → along ≡ DescendantOrSelf }
    ensures test { IsTrue result → test.now ≡ AnyNode }
{
    match along {
        Axis::DescendantOrSelf => match test {
            NodeTest::AnyNode => true,
            _ => false,
        },
        _ => false,
    }
}

/// Whether the axis is that of children.
fn is_child(along: Axis) -> bool
    ensures { IsTrue result → along ≡ Child }
{
    match along {
        Axis::Child => true,
        _ => false,
    }
}

/// The step that `//` stands for, with a step along `child` behind it, over items: the latter goes over those nodes alone
/// that have such children.
#[tactic(auto, using(crate::proofs::OfTree::of_tree))]
fn descend<'e, 't, A: Attributes>(
    setting: &Setting<'t, A>,
    test: &NodeTest,
    rest: &'e [Expr],
    items: &[Item<'t>],
) -> Result<Next<'e, 't>, XFault>
    requires { OfTree (length setting.now.tree.now.nodes) (values_of items.now) }
    ensures goes { (reply : Replies) (c : Context) (s : Scoped) →
        let a = around setting.now.tree.now (A.attribute_of setting.now.facts.now) (A.names_of setting.now.facts.now) setting.now.patterns.now in
        BeginsBelow test.now rest.now → GoesIf a reply (plain_step setting.now.tree.now DescendantOrSelf AnyNode (variables_of s) (map (denotes a reply) rest.now) (values_of items.now)) c s c s result }
    ensures of_tree { IfOk result (λ next. NextOfTree (length setting.now.tree.now.nodes) next) }
{
    if !are_nodes(items) {
        return Err(XFault::Code(XCode::XPTY0019));
    }
    let parents = parents_below(setting.alloc, setting.tree, test, items)?;
    Ok(Next::Over(Turn::Step, rest, parents))
}

/// A step without predicates over items, with what stands behind it in view.
#[tactic(auto, using(crate::proofs::OfTree::of_tree))]
fn plain_or_descend<'e, 't, A: Attributes>(
    setting: &Setting<'t, A>,
    along: Axis,
    test: &NodeTest,
    rest: &'e [Expr],
    items: &[Item<'t>],
) -> Result<Next<'e, 't>, XFault>
    requires { OfTree (length setting.now.tree.now.nodes) (values_of items.now) }
    ensures goes { (reply : Replies) (c : Context) (s : Scoped) →
        let a = around setting.now.tree.now (A.attribute_of setting.now.facts.now) (A.names_of setting.now.facts.now) setting.now.patterns.now in
        GoesIf a reply (plain_step setting.now.tree.now along test.now (variables_of s) (map (denotes a reply) rest.now) (values_of items.now)) c s c s result }
    ensures of_tree { IfOk result (λ next. NextOfTree (length setting.now.tree.now.nodes) next) }
{
    if is_descent(along, test) {
        if let [next, ..] = rest {
            if let Expr::Step(beyond, below, _) = next {
                if is_child(*beyond) {
                    return descend(setting, below, rest, items);
                }
            }
        }
    }
    plain_step(setting, along, test, rest, items)
}

/// A step of a path over items.
#[tactic(auto, using(crate::proofs::OfTree::of_tree))]
fn step_over<'e, 't, A: Attributes>(
    setting: &Setting<'t, A>,
    part: &'e Expr,
    rest: &'e [Expr],
    items: Sequence<'t>,
    at: &mut At<'t>,
) -> Result<Next<'e, 't>, XFault>
    requires items { OfTree (length setting.now.tree.now.nodes) (values_of items) }
    requires item { IsOfTree (length setting.now.tree.now.nodes) at.old.item }
    ensures goes { (reply : Replies) (s : Scoped) →
        let a = around setting.now.tree.now (A.attribute_of setting.now.facts.now) (A.names_of setting.now.facts.now) setting.now.patterns.now in
        GoesIf a reply (over StepTurn (variables_of s) (denotes a reply part.now ∷ map (denotes a reply) rest.now) (values_of items.entry)) at.new s at.old s result }
    ensures of_tree { IfOk result (λ next. NextOfTree (length setting.now.tree.now.nodes) next) }
    ensures item { OnOk result (IsOfTree (length setting.now.tree.now.nodes) at.new.item) }
{
    if let Expr::Step(along, test, predicates) = part {
        if predicates.is_empty() {
            return plain_or_descend(setting, *along, test, rest, items.as_slice());
        }
    }
    first_turn(setting.alloc, Turn::Step, part, rest, items, at)
}

/// Predicates, steps or parts over items.
#[tactic(auto, using(crate::proofs::OfTree::of_tree))]
pub fn turns_over<'e, 't, A: Attributes>(
    setting: &Setting<'t, A>,
    what: Turn,
    parts: &'e [Expr],
    items: Sequence<'t>,
    at: &mut At<'t>,
) -> Result<Next<'e, 't>, XFault>
    requires items { OfTree (length setting.now.tree.now.nodes) (values_of items) }
    requires item { IsOfTree (length setting.now.tree.now.nodes) at.old.item }
    ensures goes { (reply : Replies) (s : Scoped) →
        let a = around setting.now.tree.now (A.attribute_of setting.now.facts.now) (A.names_of setting.now.facts.now) setting.now.patterns.now in
        GoesIf a reply (over what (variables_of s) (map (denotes a reply) parts.now) (values_of items.entry)) at.new s at.old s result }
    ensures of_tree { IfOk result (λ next. NextOfTree (length setting.now.tree.now.nodes) next) }
    ensures item { OnOk result (IsOfTree (length setting.now.tree.now.nodes) at.new.item) }
{
    match parts {
        [] => Ok(Next::Value(ordered_last(what, items))),
        [part, rest @ ..] => match what {
            Turn::Step => step_over(setting, part, rest, items, at),
            _ => first_turn(setting.alloc, what, part, rest, items, at),
        },
    }
}
