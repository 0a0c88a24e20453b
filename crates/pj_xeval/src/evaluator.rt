//! The evaluation of expressions.
ghost use Rattle.std.specs.Prelude.{◌≡◌, IfOk, length};
ghost use Rattle.pj_names.specs.Told.{Asks};
ghost use Rattle.pj_xvalue.specs.Items.{value_of_item, values_of, IsOfTree};
ghost use Rattle.pj_xvalue.specs.OfTree.{OfTree, VariablesOfTree};
ghost use Rattle.pj_xvalue.specs.Replies.{outcome};
ghost use Rattle.pj_xsteps.specs.Context.{around, given_of};
ghost use Rattle.pj_xsteps.specs.Denotes.{denotes};
ghost use Rattle.pj_xframes.specs.Scopes.{variables_of};

use crate::machine::{Pause, settle};
use pj_base::ListOf;
use pj_names::AskFault;
use pj_tree::SyntaxTree;
use pj_xexpressions::Expr;
use pj_xframes::{Next, Scope, Task};
use pj_xfuncs::Patterns;
use pj_xsteps::{At, Setting, node_in};
use pj_xvalue::{Attributes, BoundVars, Calls, Item, Sequence, XFault};
use std::alloc::Global;

/// Where an expression is evaluated, with which variables and patterns.
#[derive(Drop)]
pub struct Focus<'t> {
    /// The context item. A query begins with the document.
    pub item: Item<'t>,
    /// Its position, counted from 1.
    pub position: i64,
    /// The number of items among which it stands.
    pub size: i64,
    /// The variables that are given.
    pub variables: &'t BoundVars<'t>,
    /// The patterns that the functions know.
    pub patterns: &'t Patterns,
}

/// The value of an expression.
#[tactic(auto, using(crate::proofs::OfTree::of_tree))]
fn value_of<'t, A: Attributes, C: Calls>(
    setting: &Setting<'t, A>,
    expr: &Expr,
    at: At<'t>,
    variables: &'t BoundVars<'t>,
    calls: &mut C,
) -> Result<Sequence<'t>, XFault>
    requires nodes { C.nodes calls.old ≡ length setting.now.tree.now.nodes }
    requires item { IsOfTree (length setting.now.tree.now.nodes) at.item }
    requires variables { VariablesOfTree (length setting.now.tree.now.nodes) (given_of variables.now) }
    ensures nodes { C.nodes calls.new ≡ C.nodes calls.old }
    ensures reply { C.reply calls.new ≡ C.reply calls.old }
    ensures of_tree { IfOk result (λ items. OfTree (length setting.now.tree.now.nodes) (values_of items)) }
    ensures asks { Asks (denotes (around setting.now.tree.now (A.attribute_of setting.now.facts.now) (A.names_of setting.now.facts.now) setting.now.patterns.now) (C.reply calls.old) expr.now at.entry (given_of variables.now)) (C.tells calls.old) (C.tells calls.new) (outcome values_of result) }
{
    let alloc = setting.alloc;
    let mut frames = ListOf::new(alloc);
    let mut at = at;
    let mut scope = Scope::new(alloc, variables);
    let mut next = Next::Instead(Task::Expression(expr));
    for _call in 0..u64::MAX {
        match settle(setting, next, &mut frames, &mut at, &mut scope)? {
            Pause::Done(value) => return Ok(value),
            Pause::Reply(function, arguments) => {
                let node = node_in(&at.item);
                let value = calls.pmd(alloc, function, node, &arguments)?;
                next = Next::Value(value);
            }
        }
    }
    Err(XFault::Ask(AskFault::Memory))
}

/// What the expression denotes at the focus: a sequence or a code (XPath 2.0, with `let`, `||` and `!` of XPath 3.1).
///
/// A code comes exactly where the meaning has it. `Ask(Failed)` comes only where a call of a function of PMD answered it, so
/// where the faults of `calls` rose. The items are of the tree.
pub fn evaluate<'t, A: Attributes, C: Calls>(
    alloc: Global,
    expr: &Expr,
    focus: Focus<'t>,
    tree: &'t SyntaxTree<'t>,
    facts: &'t A,
    calls: &mut C,
) -> Result<Sequence<'t>, XFault>
    requires facts { A.nodes facts.now ≡ length tree.now.nodes }
    requires nodes { C.nodes calls.old ≡ length tree.now.nodes }
    requires item { IsOfTree (length tree.now.nodes) (value_of_item focus.item) }
    requires variables { VariablesOfTree (length tree.now.nodes) (given_of focus.variables.now) }
    ensures nodes { C.nodes calls.new ≡ C.nodes calls.old }
    ensures reply { C.reply calls.new ≡ C.reply calls.old }
    ensures of_tree { IfOk result (λ items. OfTree (length tree.now.nodes) (values_of items)) }
    ensures asks { Asks (denotes (around tree.now (A.attribute_of facts.now) (A.names_of facts.now) focus.entry.patterns.now) (C.reply calls.old) expr.now
        (record { item = value_of_item focus.entry.item; position = focus.entry.position; size = focus.entry.size }) (given_of focus.entry.variables.now)) (C.tells calls.old) (C.tells calls.new) (outcome values_of result) }
{
    let Focus {
        item,
        position,
        size,
        variables,
        patterns,
    } = focus;
    let setting = Setting {
        alloc,
        tree,
        facts,
        patterns,
    };
    let at = At {
        item,
        position,
        size,
    };
    value_of(&setting, expr, at, variables, calls)
}
