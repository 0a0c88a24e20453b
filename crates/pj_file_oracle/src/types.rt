//! The types that a declaration writes, each resolved at its own place.

ghost use Rattle.std.specs.Prelude.{◌≡◌, ◌<◌, length, IfOk};
ghost use Rattle.std.specs.List.{All};
ghost use Rattle.pj_names.specs.Asking.{each};
ghost use Rattle.pj_names.specs.JavaType.{java_type, type_list};
ghost use Rattle.pj_names.specs.Told.{Asks, seen};
ghost use Rattle.pj_tree.specs.declared.node.Node.{Node};
ghost use Rattle.pj_type_names.specs.TypeName.{written_bound};
ghost use Rattle.pj_written.specs.Seen.{all_parameters, parameter_view};
ghost use Rattle.pj_file_oracle.specs.Types.{declared_type, parameter_of, parameter_with, type_parameters};

use pj_base::{NoMemory, Numbers, Text};
use pj_names::{AskFault, Oracle, Ty, TyList};
use pj_outer_names::File;
use pj_tree::{Kind, Node, SyntaxTree, first_word};
use pj_type_names::{written_bound, written_type};
use pj_written::{Parameter, Parameters, below_child, bounds_of, type_child};
use std::alloc::Global;

/// Bounds of a type parameter, one after the other.
#[tactic(auto, using(pj_names::proofs::AskingLaws::asking_loops))]
fn resolved_bounds<O: Oracle>(
    alloc: Global,
    file: &File<'_>,
    oracle: &mut O,
    busy: &Numbers,
    bounds: &[Node],
) -> Result<TyList, AskFault>
    requires inside { All (λ (n : Node). n.0 < length file.now.nodes) bounds.now }
    ensures { Asks (each (written_bound file.now busy.now) bounds.now) (O.tells oracle.old) (O.tells oracle.new) (seen type_list result) }
{
    let mut types = TyList::new(alloc);
    for bound in bounds {
        let ty = written_bound(alloc, file, oracle, busy, *bound)?;
        types.push(ty)?;
    }
    Ok(types)
}

/// A type parameter with these bounds.
fn parameter_with(
    alloc: Global,
    tree: &SyntaxTree<'_>,
    n: Node,
    bounds: TyList,
) -> Result<Parameter, NoMemory>
    requires inside { n.0 < length tree.now.nodes }
    ensures { IfOk result (λ parameter. parameter_view parameter ≡ parameter_with tree.now n (type_list bounds)) }
{
    let name = Text::from_str(alloc, first_word(tree, n))?;
    Ok(Parameter { name, bounds })
}

/// A type parameter with each of its bounds.
#[tactic(auto, using(pj_names::proofs::AskingLaws::asking_steps), unfolding(crate::specs::Types::parameter_of))]
fn parameter_of<O: Oracle>(
    alloc: Global,
    file: &File<'_>,
    oracle: &mut O,
    busy: &Numbers,
    n: Node,
) -> Result<Parameter, AskFault>
    requires inside { n.0 < length file.now.nodes }
    ensures { Asks (parameter_of file.now busy.now n) (O.tells oracle.old) (O.tells oracle.new) (seen parameter_view result) }
{
    let nodes = bounds_of(alloc, file.tree(), n)?;
    let bounds = resolved_bounds(alloc, file, oracle, busy, nodes.as_slice())?;
    let parameter = parameter_with(alloc, file.tree(), n, bounds)?;
    Ok(parameter)
}

/// Type parameters, one after the other.
#[tactic(auto, using(pj_names::proofs::AskingLaws::asking_loops))]
fn listed_parameters<O: Oracle>(
    alloc: Global,
    file: &File<'_>,
    oracle: &mut O,
    busy: &Numbers,
    nodes: &[Node],
) -> Result<Parameters, AskFault>
    requires inside { All (λ (n : Node). n.0 < length file.now.nodes) nodes.now }
    ensures { Asks (each (parameter_of file.now busy.now) nodes.now) (O.tells oracle.old) (O.tells oracle.new) (seen all_parameters result) }
{
    let mut parameters = Parameters::new(alloc);
    for n in nodes {
        let parameter = parameter_of(alloc, file, oracle, busy, *n)?;
        parameters.push(parameter)?;
    }
    Ok(parameters)
}

/// The type parameters of a class, a method or a constructor, where the headers of some classes are being resolved.
#[tactic(auto, using(pj_names::proofs::AskingLaws::asking_steps))]
pub fn type_parameters<O: Oracle>(
    alloc: Global,
    file: &File<'_>,
    oracle: &mut O,
    busy: &Numbers,
    n: Node,
) -> Result<Parameters, AskFault>
    requires inside { n.0 < length file.now.nodes }
    ensures { Asks (type_parameters file.now busy.now n) (O.tells oracle.old) (O.tells oracle.new) (seen all_parameters result) }
{
    let nodes = below_child(alloc, file.tree(), n, Kind::TypeParameters)?;
    listed_parameters(alloc, file, oracle, busy, nodes.as_slice())
}

/// The type that the declaration of a field, a method or a parameter writes, with so many brackets behind the name.
#[tactic(auto, using(pj_names::proofs::AskingLaws::asking_steps), unfolding(crate::specs::Types::declared_type))]
pub fn declared_type<O: Oracle>(
    alloc: Global,
    file: &File<'_>,
    oracle: &mut O,
    behind: u32,
    n: Node,
) -> Result<Ty, AskFault>
    requires inside { n.0 < length file.now.nodes }
    ensures { Asks (declared_type file.now behind n) (O.tells oracle.old) (O.tells oracle.new) (seen java_type result) }
{
    let none = Numbers::new(alloc);
    match type_child(file.tree(), n) {
        Some(ty) => written_type(alloc, file, oracle, &none, behind, ty),
        None => Ok(Ty::Unknown),
    }
}
