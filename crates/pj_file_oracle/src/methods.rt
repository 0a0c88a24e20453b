//! The methods and constructors of a class of the file (JVMS 4.6).

ghost use Rattle.std.specs.Prelude.{◌≡◌, ◌<◌, length, IfOk};
ghost use Rattle.std.specs.List.{All};
ghost use Rattle.pj_names.specs.Asking.{each};
ghost use Rattle.pj_names.specs.JavaType.{java_type, type_list};
ghost use Rattle.pj_names.specs.Told.{Asks, seen};
ghost use Rattle.pj_tree.specs.declared.node.Node.{Node};
ghost use Rattle.pj_file_oracle.specs.Members.{argument_of, argument_types, method_name, method_of, method_with, result_of};
ghost use Rattle.pj_written.specs.Seen.{all_parameters};

use crate::nodes::{formal_parameters, variable_brackets};
use crate::types::{declared_type, type_parameters};
use pj_base::{NoMemory, Numbers, Text};
use pj_names::{AskFault, Member, Oracle, Ty, TyList};
use pj_outer_names::File;
use pj_tree::{Kind, Node, SyntaxTree, first_word, is_kind};
use pj_written::{Parameters, bracket_count, method_flags, method_signature};
use std::alloc::Global;

/// The type of a parameter.
#[tactic(auto, using(pj_names::proofs::AskingLaws::asking_steps))]
fn argument_of<O: Oracle>(
    alloc: Global,
    file: &File<'_>,
    oracle: &mut O,
    parameter: Node,
) -> Result<Ty, AskFault>
    requires inside { parameter.0 < length file.now.nodes }
    ensures { Asks (argument_of file.now parameter) (O.tells oracle.old) (O.tells oracle.new) (seen java_type result) }
{
    let behind = variable_brackets(file.tree(), parameter);
    declared_type(alloc, file, oracle, behind, parameter)
}

/// The types of parameters, one after the other.
#[tactic(auto, using(pj_names::proofs::AskingLaws::asking_loops))]
fn listed_arguments<O: Oracle>(
    alloc: Global,
    file: &File<'_>,
    oracle: &mut O,
    parameters: &[Node],
) -> Result<TyList, AskFault>
    requires inside { All (λ (n : Node). n.0 < length file.now.nodes) parameters.now }
    ensures { Asks (each (argument_of file.now) parameters.now) (O.tells oracle.old) (O.tells oracle.new) (seen type_list result) }
{
    let mut types = TyList::new(alloc);
    for parameter in parameters {
        let ty = argument_of(alloc, file, oracle, *parameter)?;
        types.push(ty)?;
    }
    Ok(types)
}

/// The types of the parameters of a method.
#[tactic(auto, using(pj_names::proofs::AskingLaws::asking_steps))]
fn argument_types<O: Oracle>(
    alloc: Global,
    file: &File<'_>,
    oracle: &mut O,
    n: Node,
) -> Result<TyList, AskFault>
    requires inside { n.0 < length file.now.nodes }
    ensures { Asks (argument_types file.now n) (O.tells oracle.old) (O.tells oracle.new) (seen type_list result) }
{
    let parameters = formal_parameters(alloc, file.tree(), n)?;
    listed_arguments(alloc, file, oracle, parameters.as_slice())
}

/// What a method returns; a constructor returns nothing.
#[tactic(auto, using(pj_names::proofs::AskingLaws::asking_steps))]
fn result_of<O: Oracle>(
    alloc: Global,
    file: &File<'_>,
    oracle: &mut O,
    n: Node,
) -> Result<Ty, AskFault>
    requires inside { n.0 < length file.now.nodes }
    ensures { Asks (result_of file.now n) (O.tells oracle.old) (O.tells oracle.new) (seen java_type result) }
{
    let tree = file.tree();
    if is_kind(tree, Kind::ConstructorDeclaration, n) {
        return Ok(Ty::Void);
    }
    let behind = bracket_count(tree, n);
    declared_type(alloc, file, oracle, behind, n)
}

/// The name of a method, and `<init>` of a constructor.
fn method_name<'t>(tree: &'t SyntaxTree<'_>, n: Node) -> &'t str
    requires inside { n.0 < length tree.now.nodes }
    ensures { result.now ≡ method_name tree.now n }
{
    if is_kind(tree, Kind::ConstructorDeclaration, n) {
        "<init>"
    } else {
        first_word(tree, n)
    }
}

/// A method of these types.
fn method_with(
    alloc: Global,
    tree: &SyntaxTree<'_>,
    n: Node,
    parameters: Parameters,
    arguments: TyList,
    returned: Ty,
) -> Result<Member, NoMemory>
    requires inside { n.0 < length tree.now.nodes }
    ensures { IfOk result (λ method. method ≡ method_with tree.now n (all_parameters parameters) (type_list arguments) (java_type returned)) }
{
    let name = Text::from_str(alloc, method_name(tree, n))?;
    let signature = method_signature(alloc, &parameters, &arguments, &returned)?;
    Ok(Member {
        flags: method_flags(tree, n),
        name,
        signature,
    })
}

/// A method or a constructor: its type parameters, its parameters and then its result are resolved.
#[tactic(auto, using(pj_names::proofs::AskingLaws::asking_steps))]
pub fn method_of<O: Oracle>(
    alloc: Global,
    file: &File<'_>,
    oracle: &mut O,
    n: Node,
) -> Result<Member, AskFault>
    requires inside { n.0 < length file.now.nodes }
    ensures { Asks (method_of file.now n) (O.tells oracle.old) (O.tells oracle.new) result }
{
    let none = Numbers::new(alloc);
    let parameters = type_parameters(alloc, file, oracle, &none, n)?;
    let arguments = argument_types(alloc, file, oracle, n)?;
    let returned = result_of(alloc, file, oracle, n)?;
    let method = method_with(alloc, file.tree(), n, parameters, arguments, returned)?;
    Ok(method)
}
