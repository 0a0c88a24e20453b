//! Which variables that are declared by `var` are typed before a node: those that its type is made of, the earliest first. So a chain of them, each of the one before,
//! costs no stack.

ghost use Rattle.std.specs.Prelude.{◌≡◌, ◌<◌, ◌≤◌, ◌++◌, ◌+◌, ℕ, [], Bool, length, IfOk, IfSome, IsTrue, OnOk};
ghost use Rattle.pj_names.specs.Told.{Asks, Worlds, seen};
ghost use Rattle.pj_exprtypes.specs.Operands.{operands};
ghost use Rattle.pj_exprtypes.specs.Order.{AddsParts, asked_by, node_of, visits};
ghost use Rattle.pj_exprtypes.specs.Parts.{AsksPart};
ghost use Rattle.pj_exprtypes.specs.Seen.{IsVarInside, seen_typing};
ghost use Rattle.pj_exprtypes.specs.Table.{Keeps};
ghost use Rattle.pj_exprtypes.specs.TypeOf.{earlier, told_by_operands, type_of, typed, var_of};
ghost use Rattle.pj_exprtypes.specs.Typing.{OfVar};

use crate::found::Found;
use crate::held::{Subject, Typed};
use crate::operands::{Nodes, operands, var_operands};
use crate::typing::{once, types_of};
use crate::variables::type_with;
use pj_base::{ListOf, NoMemory};
use pj_calls::arguments_of;
use pj_leaf_types::{first_name, is_var_name};
use pj_names::{AskFault, Oracle, Recorder, TyList};
use pj_outer_names::File;
use pj_tree::{Kind, Node, SyntaxTree, child_of, first_word};
use std::alloc::Global;

/// What is still to do.
#[derive(Clone, Copy)]
enum Pending {
    /// The variables that the type of a node is made of are to be found, of those before a number, where nodes are typed at most so deep within one another.
    Visit { before: u32, left: u32, n: Node },
    /// A variable is to be found. Those that its type is made of are held.
    Find { id: Node },
    /// The variables that the types of the arguments of a call are made of are to be found. Those that the type of its receiver is made of are held.
    Pass { before: u32, left: u32, n: Node },
}

/// What is still to do, the next one last.
type AllPending = ListOf<Pending>;

/// Puts visits of nodes, so that the first one comes next.
fn put_visits(all: &mut AllPending, before: u32, left: u32, nodes: Nodes) -> Result<(), NoMemory>
    ensures { OnOk result (all.new ≡ all.old ++ visits before left nodes) }
{
    let mut rest = nodes;
    while let Some(n) = rest.pop() {
        all.push(Pending::Visit { before, left, n })?;
    }
    Ok(())
}

/// A variable that is declared by `var` is to be found, and before it what its type is made of.
fn put_var(
    alloc: Global,
    tree: &SyntaxTree<'_>,
    all: &mut AllPending,
    id: Node,
) -> Result<(), NoMemory>
    requires inside { id.0 < length tree.now.nodes }
    ensures { (is_told : Bool) (worlds : Worlds) → OnOk result (AddsParts tree.now is_told worlds (var_of tree.now id) all.old all.new) }
{
    let left = tree.len() + 1;
    let nodes = var_operands(alloc, tree, id)?;
    all.push(Pending::Find { id })?;
    put_visits(all, id.0, left, nodes)?;
    Ok(())
}

/// Whether a variable is one that is declared by `var` before a number, and is not held.
fn is_open(tree: &SyntaxTree<'_>, types: &Typed, before: u32, id: Node) -> bool
    requires inside { id.0 < length tree.now.nodes }
    ensures { IsTrue result → id.0 < before }
{
    id.0 < before && is_var_name(tree, id) && types.find(Subject::Var(id)).is_none()
}

/// The variable whose type that of a node may be, as far as the file alone tells.
fn variable_at(file: &File<'_>, n: Node) -> Option<Node>
    requires inside { n.0 < length file.now.nodes }
{
    let tree = file.tree();
    match tree.kind(n) {
        Kind::VariableAccess => {
            let found = file.declarations().variable(first_word(tree, n), n)?;
            Some(found.node)
        }
        Kind::VariableId => Some(n),
        Kind::VariableDeclarator => child_of(tree, n, Kind::VariableId),
        Kind::LocalVariableDeclaration => first_name(tree, n),
        _ => None,
    }
}

/// The same, where it is declared by `var` before a number, and is not held.
fn may_be_open(file: &File<'_>, types: &Typed, before: u32, n: Node) -> bool
    requires inside { n.0 < length file.now.nodes }
{
    let tree = file.tree();
    match variable_at(file, n) {
        Some(id) => id.0 < tree.len() && is_open(tree, types, before, id),
        None => false,
    }
}

/// The variable that is told, where it is declared by `var` before a number and is not held.
fn open_among(tree: &SyntaxTree<'_>, types: &Typed, before: u32, found: Found) -> Option<Node>
    requires inside { IsVarInside (length tree.now.nodes) found }
    ensures value { IfSome result (λ id. seen_typing found ≡ OfVar id) }
    ensures inside { IfSome result (λ id. id.0 < length tree.now.nodes) }
    ensures earlier { IfSome result (λ id. id.0 < before) }
{
    match found {
        Found::Var(id) if is_open(tree, types, before, id) => Some(id),
        Found::Var(_) | Found::Written { .. } | Found::Type(_) | Found::Call(_) => None,
    }
}

/// Visits a node without operands: where its type is that of a variable that is declared by `var` before a number and is not held, that one is to be found.
fn visit_leaf<O: Oracle>(
    alloc: Global,
    file: &File<'_>,
    oracle: &mut O,
    types: &Typed,
    all: &mut AllPending,
    before: u32,
    n: Node,
) -> Result<(), AskFault>
    requires inside { n.0 < length file.now.nodes }
    requires alone { operands file.now n ≡ [] }
    ensures due { (left : ℕ) → OnOk result (AddsParts file.now (O.tells oracle.old).is_told (O.tells oracle.old).world (typed file.now (earlier file.now before) (left + 1) n) all.old all.new) }
    ensures asks { (left : ℕ) → AsksPart (typed file.now (earlier file.now before) (left + 1) n) (O.tells oracle.old) (O.tells oracle.new) result }
{
    // Most nodes are of no such variable, as far as the file alone tells: then nothing is asked.
    if !may_be_open(file, types, before, n) {
        return Ok(());
    }
    let tree = file.tree();
    let found = type_with(alloc, file, oracle, n, TyList::new(alloc))?;
    match open_among(tree, types, before, found) {
        Some(id) => {
            put_var(alloc, tree, all, id)?;
            Ok(())
        }
        None => Ok(()),
    }
}

/// Whether a variable that is declared by `var` before a number and is not held may be among the nodes from one to another, as far as the file alone tells.
fn has_open(file: &File<'_>, types: &Typed, before: u32, from: u32, end: u32) -> bool {
    let count = file.tree().len();
    for n in from..end {
        if n < count && may_be_open(file, types, before, Node(n)) {
            return true;
        }
    }
    false
}

/// The same of the arguments of a call.
fn passes_open(file: &File<'_>, types: &Typed, before: u32, n: Node) -> bool
    requires inside { n.0 < length file.now.nodes }
{
    let tree = file.tree();
    if tree.kind(n) != Kind::MethodCall {
        return false;
    }
    match child_of(tree, n, Kind::ArgumentList) {
        Some(list) => has_open(file, types, before, list.0, tree.subtree_end(list).0),
        None => false,
    }
}

/// Where the arguments of a call may be made of variables that are not held, they are to be looked at behind its receiver. Most are not.
fn put_pass(
    file: &File<'_>,
    types: &Typed,
    all: &mut AllPending,
    before: u32,
    left: u32,
    n: Node,
) -> Result<(), NoMemory>
    requires inside { n.0 < length file.now.nodes }
    ensures { (is_told : Bool) (worlds : Worlds) → OnOk result (AddsParts file.now is_told worlds (typed file.now (earlier file.now before) left n) all.old all.new) }
{
    if !passes_open(file, types, before, n) {
        return Ok(());
    }
    all.push(Pending::Pass { before, left, n })
}

/// Visits the operands of a node, and where it has none, the variable is to be found whose type it has.
fn visit_operands<O: Oracle>(
    alloc: Global,
    file: &File<'_>,
    oracle: &mut O,
    types: &Typed,
    all: &mut AllPending,
    before: u32,
    left: u32,
    n: Node,
) -> Result<(), AskFault>
    requires inside { n.0 < length file.now.nodes }
    ensures due { OnOk result (AddsParts file.now (O.tells oracle.old).is_told (O.tells oracle.old).world (typed file.now (earlier file.now before) left n) all.old all.new) }
    ensures asks { AsksPart (typed file.now (earlier file.now before) left n) (O.tells oracle.old) (O.tells oracle.new) result }
{
    if left == 0 {
        return Ok(());
    }
    let nodes = operands(alloc, file.tree(), n)?;
    if nodes.is_empty() {
        return visit_leaf(alloc, file, oracle, types, all, before, n);
    }
    put_visits(all, before, left - 1, nodes)?;
    Ok(())
}

/// Visits a node: its operands are to be visited, and behind them its arguments. Where its type is held, so are the types that it is made of.
fn visit<O: Oracle>(
    alloc: Global,
    file: &File<'_>,
    oracle: &mut O,
    types: &Typed,
    all: &mut AllPending,
    before: u32,
    left: u32,
    n: Node,
) -> Result<(), AskFault>
    requires inside { n.0 < length file.now.nodes }
    ensures due { OnOk result (AddsParts file.now (O.tells oracle.old).is_told (O.tells oracle.old).world (typed file.now (earlier file.now before) left n) all.old all.new) }
    ensures asks { AsksPart (typed file.now (earlier file.now before) left n) (O.tells oracle.old) (O.tells oracle.new) result }
{
    if types.find(Subject::Expression { before, n }).is_some() {
        return Ok(());
    }
    put_pass(file, types, all, before, left, n)?;
    visit_operands(alloc, file, oracle, types, all, before, left, n)
}

/// Visits the arguments of a call, where it has a candidate: the types of its receiver and of the candidates are told by what is held.
fn pass<'r, O: Oracle>(
    alloc: Global,
    file: &File<'_>,
    oracle: &mut Recorder<'r, O>,
    types: &mut Typed,
    all: &mut AllPending,
    before: u32,
    left: u32,
    n: Node,
) -> Result<(), AskFault>
    requires inside { n.0 < length file.now.nodes }
    requires keeps { Keeps file.now (⟦<Recorder<'r, O> as Oracle>⟧.tells oracle.old) types.old.entries }
    ensures due { OnOk result (AddsParts file.now (⟦<Recorder<'r, O> as Oracle>⟧.tells oracle.old).is_told (⟦<Recorder<'r, O> as Oracle>⟧.tells oracle.old).world (typed file.now (earlier file.now before) left n) all.old all.new) }
    ensures asks { AsksPart (typed file.now (earlier file.now before) left n) (⟦<Recorder<'r, O> as Oracle>⟧.tells oracle.old) (⟦<Recorder<'r, O> as Oracle>⟧.tells oracle.new) result }
    ensures keeps { Keeps file.now (⟦<Recorder<'r, O> as Oracle>⟧.tells oracle.new) types.new.entries }
{
    // No node lies so deep. Of several calls in a row, most arguments are held by now.
    if left == 0 || left > 2000001 || !passes_open(file, types, before, n) {
        return Ok(());
    }
    let found = told_by_operands(alloc, file, oracle, types, before, left - 1, n)?;
    match found {
        Found::Call(_) => {
            let nodes = arguments_of(alloc, file.tree(), n)?;
            put_visits(all, before, left - 1, nodes)?;
            Ok(())
        }
        Found::Type(_) | Found::Var(_) | Found::Written { .. } => Ok(()),
    }
}

/// What tells the type of a node by the types of its operands.
#[tactic(auto, using(pj_names::proofs::AskingLaws::asking_steps))]
fn told_by_operands<'r, O: Oracle>(
    alloc: Global,
    file: &File<'_>,
    oracle: &mut Recorder<'r, O>,
    types: &mut Typed,
    before: u32,
    left: u32,
    n: Node,
) -> Result<Found, AskFault>
    requires inside { n.0 < length file.now.nodes }
    requires left { left ≤ 2000001 }
    requires keeps { Keeps file.now (⟦<Recorder<'r, O> as Oracle>⟧.tells oracle.old) types.old.entries }
    ensures asks { Asks (told_by_operands file.now (typed file.now (earlier file.now before) left) n) (⟦<Recorder<'r, O> as Oracle>⟧.tells oracle.old) (⟦<Recorder<'r, O> as Oracle>⟧.tells oracle.new) (seen seen_typing result) }
    ensures keeps { Keeps file.now (⟦<Recorder<'r, O> as Oracle>⟧.tells oracle.new) types.new.entries }
{
    let nodes = operands(alloc, file.tree(), n)?;
    let operand_types = types_of(alloc, file, oracle, types, before, left, nodes.as_slice())?;
    type_with(alloc, file, oracle, n, operand_types)
}

/// Does what is still to do of one entry, and puts what is to be done before the entries behind it.
fn do_one<'r, O: Oracle>(
    alloc: Global,
    file: &File<'_>,
    oracle: &mut Recorder<'r, O>,
    types: &mut Typed,
    all: &mut AllPending,
    next: Pending,
) -> Result<(), AskFault>
    requires inside { (node_of next).0 < length file.now.nodes }
    requires keeps { Keeps file.now (⟦<Recorder<'r, O> as Oracle>⟧.tells oracle.old) types.old.entries }
    ensures due { OnOk result (AddsParts file.now (⟦<Recorder<'r, O> as Oracle>⟧.tells oracle.old).is_told (⟦<Recorder<'r, O> as Oracle>⟧.tells oracle.old).world (asked_by file.now next) all.old all.new) }
    ensures asks { AsksPart (asked_by file.now next) (⟦<Recorder<'r, O> as Oracle>⟧.tells oracle.old) (⟦<Recorder<'r, O> as Oracle>⟧.tells oracle.new) result }
    ensures keeps { Keeps file.now (⟦<Recorder<'r, O> as Oracle>⟧.tells oracle.new) types.new.entries }
{
    match next {
        Pending::Find { id } => {
            let _ty = once(alloc, file, oracle, types, 0, Subject::Var(id))?;
            Ok(())
        }
        Pending::Pass { before, left, n } => {
            pass(alloc, file, oracle, types, all, before, left, n)
        }
        Pending::Visit { before, left, n } => {
            visit(alloc, file, oracle, types, all, before, left, n)
        }
    }
}

/// Finds and holds the variables that are declared by `var` and that the type of a node is made of, each after those that its own type is made of.
pub(crate) fn type_variables<'r, O: Oracle>(
    alloc: Global,
    file: &File<'_>,
    oracle: &mut Recorder<'r, O>,
    types: &mut Typed,
    n: Node,
) -> Result<(), AskFault>
    requires inside { n.0 < length file.now.nodes }
    requires keeps { Keeps file.now (⟦<Recorder<'r, O> as Oracle>⟧.tells oracle.old) types.old.entries }
    ensures asks { AsksPart (type_of file.now n) (⟦<Recorder<'r, O> as Oracle>⟧.tells oracle.old) (⟦<Recorder<'r, O> as Oracle>⟧.tells oracle.new) result }
    ensures keeps { Keeps file.now (⟦<Recorder<'r, O> as Oracle>⟧.tells oracle.new) types.new.entries }
{
    let count = file.tree().len();
    let mut all = AllPending::new(alloc);
    all.push(Pending::Visit {
        before: count,
        left: count + 1,
        n,
    })?;
    for _ in 0..u64::MAX {
        let Some(next) = all.pop() else {
            return Ok(());
        };
        do_one(alloc, file, oracle, types, &mut all, next)?;
    }
    // So many steps are never made.
    Err(AskFault::Memory)
}
