//! The method or constructor that is chosen for a call.

ghost use Rattle.std.specs.Prelude.{◌≡◌, ◌<◌, length};
ghost use Rattle.std.specs.List.{All};
ghost use Rattle.pj_names.specs.Asking.{each};
ghost use Rattle.pj_names.specs.Expand.{expand};
ghost use Rattle.pj_names.specs.JavaType.{type_list};
ghost use Rattle.pj_names.specs.Told.{Asks, seen};
ghost use Rattle.pj_signatures.specs.Seen.{seen_option};
ghost use Rattle.pj_file_oracle.specs.FileAnswer.{file_answer};
ghost use Rattle.pj_tree.specs.declared.node.Node.{Node};
ghost use Rattle.pj_calls.specs.Calls.{chosen, chosen_with, type_if_any};
ghost use Rattle.pj_calls.specs.Nodes.{receiver_of};
ghost use Rattle.pj_calls.specs.Seen.{candidates_view, seen_candidates, seen_chosen};
ghost use Rattle.pj_exprtypes.specs.Chosen.{chosen_pair, seen_pair};
ghost use Rattle.pj_exprtypes.specs.Table.{Keeps, KeepsOver};
ghost use Rattle.pj_exprtypes.specs.TypeOf.{type_of};

use crate::held::Typed;
use crate::node_types::node_type;
use pj_calls::{
    Candidates, Chosen, arguments_of, candidates_of, chosen_among, functions_of, receiver_of,
};
use pj_file_oracle::FileOracle;
use pj_names::{AskFault, Oracle, Ty, TyList};
use pj_outer_names::File;
use pj_tree::Node;
use pj_types::Method;
use std::alloc::Global;

/// The type of the receiver of a call, where it has one that is typed.
#[tactic(auto, using(pj_names::proofs::AskingLaws::asking_steps))]
fn receiver_type<O: Oracle>(
    alloc: Global,
    file: &File<'_>,
    oracle: &mut O,
    types: &mut Typed,
    n: Node,
) -> Result<Option<Ty>, AskFault>
    requires inside { n.0 < length file.now.nodes }
    requires keeps { Keeps file.now (O.tells oracle.old) types.old.entries }
    ensures asks { Asks (type_if_any file.now (type_of file.now) (receiver_of file.now n)) (O.tells oracle.old) (O.tells oracle.new) (seen seen_option result) }
    ensures keeps { Keeps file.now (O.tells oracle.new) types.new.entries }
{
    match receiver_of(file.tree(), n) {
        Some(receiver) => {
            let ty = node_type(alloc, file, oracle, types, receiver)?;
            Ok(Some(ty))
        }
        None => Ok(None),
    }
}

/// The types of nodes, one after the other.
#[tactic(auto, using(pj_names::proofs::AskingLaws::asking_loops))]
fn node_types<O: Oracle>(
    alloc: Global,
    file: &File<'_>,
    oracle: &mut O,
    types: &mut Typed,
    nodes: &[Node],
) -> Result<TyList, AskFault>
    requires inside { All (λ (n : Node). n.0 < length file.now.nodes) nodes.now }
    requires keeps { Keeps file.now (O.tells oracle.old) types.old.entries }
    ensures asks { Asks (each (type_of file.now) nodes.now) (O.tells oracle.old) (O.tells oracle.new) (seen type_list result) }
    ensures keeps { Keeps file.now (O.tells oracle.new) types.new.entries }
{
    let mut found = TyList::new(alloc);
    for n in nodes {
        let ty = node_type(alloc, file, oracle, types, *n)?;
        found.push(ty)?;
    }
    Ok(found)
}

/// What is chosen among candidates by the types of the arguments.
#[tactic(auto, using(pj_names::proofs::AskingLaws::asking_steps))]
fn chosen_with<O: Oracle>(
    alloc: Global,
    file: &File<'_>,
    oracle: &mut O,
    types: &mut Typed,
    n: Node,
    found: Option<Candidates>,
) -> Result<Option<Chosen>, AskFault>
    requires inside { n.0 < length file.now.nodes }
    requires keeps { Keeps file.now (O.tells oracle.old) types.old.entries }
    ensures asks { Asks (chosen_with file.now (type_of file.now) n (seen_candidates found)) (O.tells oracle.old) (O.tells oracle.new) (seen seen_chosen result) }
    ensures keeps { Keeps file.now (O.tells oracle.new) types.new.entries }
{
    let Some(candidates) = found else {
        return Ok(None);
    };
    let nodes = arguments_of(alloc, file.tree(), n)?;
    let arguments = node_types(alloc, file, oracle, types, nodes.as_slice())?;
    let functions = functions_of(alloc, file.tree(), &nodes)?;
    chosen_among(alloc, oracle, candidates, arguments, &functions)
}

/// What is chosen for a call, over any oracle that answers the classes of the file too.
#[tactic(auto, using(pj_names::proofs::AskingLaws::asking_steps))]
pub(crate) fn node_chosen<O: Oracle>(
    alloc: Global,
    file: &File<'_>,
    oracle: &mut O,
    types: &mut Typed,
    n: Node,
) -> Result<Option<Chosen>, AskFault>
    requires inside { n.0 < length file.now.nodes }
    requires keeps { Keeps file.now (O.tells oracle.old) types.old.entries }
    ensures asks { Asks (chosen file.now (type_of file.now) n) (O.tells oracle.old) (O.tells oracle.new) (seen seen_chosen result) }
    ensures keeps { Keeps file.now (O.tells oracle.new) types.new.entries }
{
    let receiver = receiver_type(alloc, file, oracle, types, n)?;
    let found = candidates_of(alloc, file, oracle, n, receiver)?;
    chosen_with(alloc, file, oracle, types, n, found)
}

/// The same without the types of the arguments.
#[tactic(auto, using(pj_names::proofs::AskingLaws::asking_steps))]
fn node_pair<O: Oracle>(
    alloc: Global,
    file: &File<'_>,
    oracle: &mut O,
    types: &mut Typed,
    n: Node,
) -> Result<Option<(Ty, Method)>, AskFault>
    requires inside { n.0 < length file.now.nodes }
    requires keeps { Keeps file.now (O.tells oracle.old) types.old.entries }
    ensures asks { Asks (chosen_pair file.now n) (O.tells oracle.old) (O.tells oracle.new) (seen seen_pair result) }
    ensures keeps { Keeps file.now (O.tells oracle.new) types.new.entries }
{
    let found = node_chosen(alloc, file, oracle, types, n)?;
    match found {
        Some(chosen) => Ok(Some((chosen.receiver, chosen.method))),
        None => Ok(None),
    }
}

/// The method or constructor that is chosen for a method call, a `new`, or a `this(..)` or `super(..)` at the beginning of a constructor (JLS 8.8.7.1, 15.9.3, 15.12), and before it the type that
/// it was looked for in: that of the receiver of a method call, and else the class that has the candidates, without type arguments. The receiver's type arguments are put into the method; its own type
/// parameters stay. `None` comes exactly where none is chosen, or the node is another one.
///
/// What it asks, holds and keeps is as `type_of` says.
pub fn chosen<O: Oracle>(
    oracle: &mut FileOracle<'_, '_, O>,
    types: &mut Typed,
    n: Node,
) -> Result<Option<(Ty, Method)>, AskFault>
    requires inside { n.0 < length oracle.old.file.now.nodes }
    requires keeps { KeepsOver oracle.old.file.now (O.tells oracle.old.inner.now) types.old.entries }
    ensures asks { Asks (expand (file_answer oracle.old.file.now) (chosen_pair oracle.old.file.now n)) (O.tells oracle.old.inner.now) (O.tells oracle.new.inner.now) (seen seen_pair result) }
    ensures keeps { KeepsOver oracle.old.file.now (O.tells oracle.new.inner.now) types.new.entries }
    ensures file { oracle.new.file.now ≡ oracle.old.file.now }
    ensures held { oracle.new.inner.ghost_name ≡ oracle.old.inner.ghost_name }
    ensures same_table { oracle.new.held.ghost_name ≡ oracle.old.held.ghost_name }
{
    let file = oracle.file;
    node_pair(oracle.alloc, file, oracle, types, n)
}
