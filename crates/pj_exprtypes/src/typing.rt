//! The recursion of types: nodes by their operands, and variables that are declared by `var` by those before them.
//!
//! A call recurses as deep as an expression; a variable that is declared by `var` is typed only where those that its own type is made of are held.
//! What recurses no further is not inlined, since else each level of an expression would take what it needs of the stack.

ghost use Rattle.std.specs.Prelude.{◌≡◌, ◌<◌, ◌≤◌, length, IfOk, IsTrue};
ghost use Rattle.std.specs.List.{All};
ghost use Rattle.pj_names.specs.Asking.{Asking, each};
ghost use Rattle.pj_names.specs.ClassName.{name_set};
ghost use Rattle.pj_names.specs.Held.{IsHeld};
ghost use Rattle.pj_names.specs.JavaType.{JavaType, java_type, type_list};
ghost use Rattle.pj_names.specs.Noting.{Notes};
ghost use Rattle.pj_names.specs.Told.{Asks, seen};
ghost use Rattle.pj_tree.specs.declared.node.Node.{Node};
ghost use Rattle.pj_calls.specs.Results.{chosen_result};
ghost use Rattle.pj_calls.specs.Seen.{candidates_view};
ghost use Rattle.pj_leaf_types.specs.Variables.{declared_by};
ghost use Rattle.pj_exprtypes.specs.Calls.{passed_type};
ghost use Rattle.pj_exprtypes.specs.Seen.{IsVarInside, seen_typing};
ghost use Rattle.pj_exprtypes.specs.Fits.{Fits};
ghost use Rattle.pj_exprtypes.specs.Table.{Keeps, meaning_of};
ghost use Rattle.pj_exprtypes.specs.TypeOf.{deep, earlier, final_type, typed, var_of};

use crate::found::Found;
use crate::held::{Subject, Typed, held, remember};
use crate::operands::{is_made_of_others, operands, var_operands};
use crate::variables::{type_with, var_with};
use pj_base::Numbers;
use pj_calls::{Candidates, arguments_of, chosen_result, functions_of};
use pj_leaf_types::declared_by;
use pj_names::{AskFault, ClassNameSet, ClassNames, Oracle, Recorder, Ty, TyList};
use pj_outer_names::File;
use pj_tree::{Node, SyntaxTree};
use std::alloc::Global;

/// Whether the type of a node is held once it is found: where it is made of others, and nodes are typed as deep as any goes.
fn is_to_hold(tree: &SyntaxTree<'_>, left: u32, n: Node) -> bool
    requires inside { n.0 < length tree.now.nodes }
    ensures { IsTrue result → (var : Node → Asking JavaType) → typed tree.now var left n ≡ typed tree.now var (deep tree.now) n }
{
    if left < tree.len() - n.0 {
        return false;
    }
    is_made_of_others(tree, n)
}

/// The result of what is chosen among candidates by the types of arguments.
#[inline(never)]
fn result_among<O: Oracle>(
    alloc: Global,
    oracle: &mut O,
    candidates: Candidates,
    arguments: TyList,
    functions: &Numbers,
) -> Result<Ty, AskFault>
    ensures { Asks (chosen_result (candidates_view candidates) (type_list arguments) functions.now) (O.tells oracle.old) (O.tells oracle.new) (seen java_type result) }
{
    chosen_result(alloc, oracle, candidates, arguments, functions)
}

/// The type that the declaration of a variable writes.
#[inline(never)]
fn written_type<O: Oracle>(
    alloc: Global,
    file: &File<'_>,
    oracle: &mut O,
    id: Node,
    declaration: Node,
) -> Result<Ty, AskFault>
    requires id { id.0 < length file.now.nodes }
    requires declaration { declaration.0 < length file.now.nodes }
    ensures { Asks (declared_by file.now id declaration) (O.tells oracle.old) (O.tells oracle.new) (seen java_type result) }
{
    declared_by(alloc, file, oracle, id, declaration)
}

/// The type of a node, where nodes are typed at most so deep within one another, and variables by `var` are those before a number.
#[cycle(typing)]
#[tactic(auto, using(crate::proofs::Steps::typed_steps))]
pub(crate) fn typed<'r, O: Oracle>(
    alloc: Global,
    file: &File<'_>,
    oracle: &mut Recorder<'r, O>,
    types: &mut Typed,
    before: u32,
    left: u32,
    n: Node,
) -> Result<Ty, AskFault>
    requires inside { n.0 < length file.now.nodes }
    requires left { left ≤ 2000001 }
    requires keeps { Keeps file.now (⟦<Recorder<'r, O> as Oracle>⟧.tells oracle.old) types.old.entries }
    ensures asks { Asks (typed file.now (earlier file.now before) left n) (⟦<Recorder<'r, O> as Oracle>⟧.tells oracle.old) (⟦<Recorder<'r, O> as Oracle>⟧.tells oracle.new) (seen java_type result) }
    ensures keeps { Keeps file.now (⟦<Recorder<'r, O> as Oracle>⟧.tells oracle.new) types.new.entries }
{
    if left == 0 {
        return Ok(Ty::Unknown);
    }
    if is_to_hold(file.tree(), left, n) {
        let subject = Subject::Expression { before, n };
        return once(alloc, file, oracle, types, left, subject);
    }
    by_operands(alloc, file, oracle, types, before, left, n)
}

/// The same by the types of its operands.
#[cycle(typing)]
#[tactic(auto, using(crate::proofs::Steps::typed_steps))]
fn by_operands<'r, O: Oracle>(
    alloc: Global,
    file: &File<'_>,
    oracle: &mut Recorder<'r, O>,
    types: &mut Typed,
    before: u32,
    left: u32,
    n: Node,
) -> Result<Ty, AskFault>
    requires inside { n.0 < length file.now.nodes }
    requires some { 0 < left }
    requires left { left ≤ 2000001 }
    requires keeps { Keeps file.now (⟦<Recorder<'r, O> as Oracle>⟧.tells oracle.old) types.old.entries }
    ensures asks { Asks (typed file.now (earlier file.now before) left n) (⟦<Recorder<'r, O> as Oracle>⟧.tells oracle.old) (⟦<Recorder<'r, O> as Oracle>⟧.tells oracle.new) (seen java_type result) }
    ensures keeps { Keeps file.now (⟦<Recorder<'r, O> as Oracle>⟧.tells oracle.new) types.new.entries }
{
    let nodes = operands(alloc, file.tree(), n)?;
    let operand_types = types_of(
        alloc,
        file,
        oracle,
        types,
        before,
        left - 1,
        nodes.as_slice(),
    )?;
    let found = type_with(alloc, file, oracle, n, operand_types)?;
    final_type(alloc, file, oracle, types, before, left - 1, n, found)
}

/// The types of nodes, one after the other.
#[cycle(typing)]
#[tactic(auto, using(pj_names::proofs::AskingLaws::asking_loops))]
pub(crate) fn types_of<'r, O: Oracle>(
    alloc: Global,
    file: &File<'_>,
    oracle: &mut Recorder<'r, O>,
    types: &mut Typed,
    before: u32,
    left: u32,
    nodes: &[Node],
) -> Result<TyList, AskFault>
    requires inside { All (λ (n : Node). n.0 < length file.now.nodes) nodes.now }
    requires left { left ≤ 2000001 }
    requires keeps { Keeps file.now (⟦<Recorder<'r, O> as Oracle>⟧.tells oracle.old) types.old.entries }
    ensures asks { Asks (each (typed file.now (earlier file.now before) left) nodes.now) (⟦<Recorder<'r, O> as Oracle>⟧.tells oracle.old) (⟦<Recorder<'r, O> as Oracle>⟧.tells oracle.new) (seen type_list result) }
    ensures keeps { Keeps file.now (⟦<Recorder<'r, O> as Oracle>⟧.tells oracle.new) types.new.entries }
{
    let mut found = TyList::new(alloc);
    for n in nodes {
        let ty = typed(alloc, file, oracle, types, before, left, *n)?;
        found.push(ty)?;
    }
    Ok(found)
}

/// The type that is told, or that of a variable, where those before a number have one that are declared by `var`, or that of a call by the types of its arguments.
#[cycle(typing)]
#[tactic(auto, using(crate::proofs::Steps::earlier_steps))]
fn final_type<'r, O: Oracle>(
    alloc: Global,
    file: &File<'_>,
    oracle: &mut Recorder<'r, O>,
    types: &mut Typed,
    before: u32,
    left: u32,
    n: Node,
    found: Found,
) -> Result<Ty, AskFault>
    requires inside { IsVarInside (length file.now.nodes) found }
    requires node { n.0 < length file.now.nodes }
    requires left { left ≤ 2000001 }
    requires keeps { Keeps file.now (⟦<Recorder<'r, O> as Oracle>⟧.tells oracle.old) types.old.entries }
    ensures asks { Asks (final_type file.now (earlier file.now before) (typed file.now (earlier file.now before) left) n (seen_typing found)) (⟦<Recorder<'r, O> as Oracle>⟧.tells oracle.old) (⟦<Recorder<'r, O> as Oracle>⟧.tells oracle.new) (seen java_type result) }
    ensures keeps { Keeps file.now (⟦<Recorder<'r, O> as Oracle>⟧.tells oracle.new) types.new.entries }
{
    match found {
        Found::Type(ty) => Ok(ty),
        Found::Var(id) => {
            if id.0 >= before {
                return Ok(Ty::Unknown);
            }
            once(alloc, file, oracle, types, left, Subject::Var(id))
        }
        Found::Written { id, declaration } => {
            let subject = Subject::Written { id, declaration };
            once(alloc, file, oracle, types, left, subject)
        }
        Found::Call(candidates) => {
            passed_type(alloc, file, oracle, types, before, left, n, candidates)
        }
    }
}

/// The type of a call by the types of its arguments.
#[cycle(typing)]
#[tactic(auto, using(pj_names::proofs::AskingLaws::asking_steps))]
fn passed_type<'r, O: Oracle>(
    alloc: Global,
    file: &File<'_>,
    oracle: &mut Recorder<'r, O>,
    types: &mut Typed,
    before: u32,
    left: u32,
    n: Node,
    candidates: Candidates,
) -> Result<Ty, AskFault>
    requires inside { n.0 < length file.now.nodes }
    requires left { left ≤ 2000001 }
    requires keeps { Keeps file.now (⟦<Recorder<'r, O> as Oracle>⟧.tells oracle.old) types.old.entries }
    ensures asks { Asks (passed_type file.now (typed file.now (earlier file.now before) left) n (candidates_view candidates)) (⟦<Recorder<'r, O> as Oracle>⟧.tells oracle.old) (⟦<Recorder<'r, O> as Oracle>⟧.tells oracle.new) (seen java_type result) }
    ensures keeps { Keeps file.now (⟦<Recorder<'r, O> as Oracle>⟧.tells oracle.new) types.new.entries }
{
    let nodes = arguments_of(alloc, file.tree(), n)?;
    let arguments = types_of(alloc, file, oracle, types, before, left, nodes.as_slice())?;
    let functions = functions_of(alloc, file.tree(), &nodes)?;
    result_among(alloc, oracle, candidates, arguments, &functions)
}

/// A type that is held, or is found and then held. An expression is typed where nodes are typed at most so deep within one another.
#[cycle(typing)]
pub(crate) fn once<'r, O: Oracle>(
    alloc: Global,
    file: &File<'_>,
    oracle: &mut Recorder<'r, O>,
    types: &mut Typed,
    left: u32,
    subject: Subject,
) -> Result<Ty, AskFault>
    requires fits { Fits file.now left subject }
    requires keeps { Keeps file.now (⟦<Recorder<'r, O> as Oracle>⟧.tells oracle.old) types.old.entries }
    ensures asks { Asks (meaning_of file.now subject) (⟦<Recorder<'r, O> as Oracle>⟧.tells oracle.old) (⟦<Recorder<'r, O> as Oracle>⟧.tells oracle.new) (seen java_type result) }
    ensures keeps { Keeps file.now (⟦<Recorder<'r, O> as Oracle>⟧.tells oracle.new) types.new.entries }
{
    if let Some(entry) = types.find(subject) {
        return held(oracle, &entry.ty, &entry.names);
    }
    found_once(alloc, file, oracle, types, left, subject)
}

/// A type that is not held: its names are noted apart, and it is held with them.
#[cycle(typing)]
fn found_once<'r, O: Oracle>(
    alloc: Global,
    file: &File<'_>,
    oracle: &mut Recorder<'r, O>,
    types: &mut Typed,
    left: u32,
    subject: Subject,
) -> Result<Ty, AskFault>
    requires fits { Fits file.now left subject }
    requires keeps { Keeps file.now (⟦<Recorder<'r, O> as Oracle>⟧.tells oracle.old) types.old.entries }
    ensures asks { Asks (meaning_of file.now subject) (⟦<Recorder<'r, O> as Oracle>⟧.tells oracle.old) (⟦<Recorder<'r, O> as Oracle>⟧.tells oracle.new) (seen java_type result) }
    ensures keeps { Keeps file.now (⟦<Recorder<'r, O> as Oracle>⟧.tells oracle.new) types.new.entries }
{
    let found = noted_apart(alloc, file, &mut *oracle.inner, types, left, subject)?;
    Ok(remember(oracle.noted, types, subject, found)?)
}

/// A type, with the names that its definition asks.
#[cycle(typing)]
fn noted_apart<O: Oracle>(
    alloc: Global,
    file: &File<'_>,
    oracle: &mut O,
    types: &mut Typed,
    left: u32,
    subject: Subject,
) -> Result<(Ty, ClassNames), AskFault>
    requires fits { Fits file.now left subject }
    requires keeps { Keeps file.now (O.tells oracle.old) types.old.entries }
    ensures asks { Asks (meaning_of file.now subject) (O.tells oracle.old) (O.tells oracle.new) (seen (λ found. java_type found.0) result) }
    ensures names { IsTrue (O.tells oracle.old).is_told → IfOk result (λ found. IsHeld (O.tells oracle.old).world (meaning_of file.now subject) (java_type found.0) (name_set found.1)) }
    ensures keeps { Keeps file.now (O.tells oracle.new) types.new.entries }
{
    let mut noted = ClassNameSet::new(alloc);
    let ty = noted_in(alloc, file, oracle, &mut noted, types, left, subject)?;
    let names = noted.names(alloc)?;
    Ok((ty, names))
}

/// A type; the names that its definition asks are noted.
#[cycle(typing)]
fn noted_in<O: Oracle>(
    alloc: Global,
    file: &File<'_>,
    oracle: &mut O,
    noted: &mut ClassNameSet,
    types: &mut Typed,
    left: u32,
    subject: Subject,
) -> Result<Ty, AskFault>
    requires fits { Fits file.now left subject }
    requires keeps { Keeps file.now (O.tells oracle.old) types.old.entries }
    ensures asks { Asks (meaning_of file.now subject) (O.tells oracle.old) (O.tells oracle.new) (seen java_type result) }
    ensures notes { Notes (meaning_of file.now subject) (O.tells oracle.old).is_told (O.tells oracle.old).world noted.old noted.new (seen java_type result) }
    ensures keeps { Keeps file.now (O.tells oracle.new) types.new.entries }
{
    let mut recorder = Recorder {
        inner: &mut *oracle,
        noted: &mut *noted,
    };
    subject_type(alloc, file, &mut recorder, types, left, subject)
}

/// The type of what a type is held of.
#[cycle(typing)]
fn subject_type<'r, O: Oracle>(
    alloc: Global,
    file: &File<'_>,
    oracle: &mut Recorder<'r, O>,
    types: &mut Typed,
    left: u32,
    subject: Subject,
) -> Result<Ty, AskFault>
    requires fits { Fits file.now left subject }
    requires keeps { Keeps file.now (⟦<Recorder<'r, O> as Oracle>⟧.tells oracle.old) types.old.entries }
    ensures asks { Asks (meaning_of file.now subject) (⟦<Recorder<'r, O> as Oracle>⟧.tells oracle.old) (⟦<Recorder<'r, O> as Oracle>⟧.tells oracle.new) (seen java_type result) }
    ensures keeps { Keeps file.now (⟦<Recorder<'r, O> as Oracle>⟧.tells oracle.new) types.new.entries }
{
    match subject {
        Subject::Var(id) => var_type(alloc, file, oracle, types, id),
        Subject::Written { id, declaration } => written_type(alloc, file, oracle, id, declaration),
        Subject::Expression { before, n } => {
            by_operands(alloc, file, oracle, types, before, left, n)
        }
    }
}

/// The type of a variable that is declared by `var`, by those before it.
#[cycle(typing)]
#[inline(never)]
#[tactic(auto, using(crate::proofs::Steps::earlier_steps))]
fn var_type<'r, O: Oracle>(
    alloc: Global,
    file: &File<'_>,
    oracle: &mut Recorder<'r, O>,
    types: &mut Typed,
    id: Node,
) -> Result<Ty, AskFault>
    requires inside { id.0 < length file.now.nodes }
    requires keeps { Keeps file.now (⟦<Recorder<'r, O> as Oracle>⟧.tells oracle.old) types.old.entries }
    ensures asks { Asks (var_of file.now id) (⟦<Recorder<'r, O> as Oracle>⟧.tells oracle.old) (⟦<Recorder<'r, O> as Oracle>⟧.tells oracle.new) (seen java_type result) }
    ensures keeps { Keeps file.now (⟦<Recorder<'r, O> as Oracle>⟧.tells oracle.new) types.new.entries }
{
    let left = file.tree().len() + 1;
    let nodes = var_operands(alloc, file.tree(), id)?;
    let operand_types = types_of(alloc, file, oracle, types, id.0, left, nodes.as_slice())?;
    var_with(alloc, file, oracle, id, operand_types)
}
