//! Types that an expression writes.

ghost use Rattle.std.specs.Prelude.{◌≡◌, ◌<◌, length, IfSome};
ghost use Rattle.std.specs.Option.{option_and_then};
ghost use Rattle.pj_names.specs.JavaType.{java_type};
ghost use Rattle.pj_names.specs.Told.{Asks, seen};
ghost use Rattle.pj_tree.specs.Children.{first_child};
ghost use Rattle.pj_file_oracle.specs.Types.{declared_type, type_or_unknown};
ghost use Rattle.pj_leaf_types.specs.Written.{cast, created, first_of_several, literal_of, written};

use pj_base::Numbers;
use pj_names::{AskFault, Oracle, Ty};
use pj_operators::class_literal;
use pj_outer_names::File;
use pj_tree::{Kind, Node, SyntaxTree, child_of, first_child, is_kind};
use pj_type_names::written_type;
use pj_written::type_child;
use std::alloc::Global;

/// The type that a node writes, with so many brackets behind the name that it is the type of, where there is one.
#[tactic(auto, using(pj_names::proofs::AskingLaws::asking_steps))]
pub fn type_or_unknown<O: Oracle>(
    alloc: Global,
    file: &File<'_>,
    oracle: &mut O,
    behind: u32,
    n: Option<Node>,
) -> Result<Ty, AskFault>
    requires inside { IfSome n (λ m. m.0 < length file.now.nodes) }
    ensures { Asks (type_or_unknown file.now behind n) (O.tells oracle.old) (O.tells oracle.new) (seen java_type result) }
{
    let none = Numbers::new(alloc);
    match n {
        Some(n) => written_type(alloc, file, oracle, &none, behind, n),
        None => Ok(Ty::Unknown),
    }
}

/// The type that the declaration of a variable writes, with so many brackets behind the name.
#[tactic(auto, using(pj_names::proofs::AskingLaws::asking_steps), unfolding(pj_file_oracle::specs::Types::declared_type))]
pub fn declared_type<O: Oracle>(
    alloc: Global,
    file: &File<'_>,
    oracle: &mut O,
    behind: u32,
    n: Node,
) -> Result<Ty, AskFault>
    requires inside { n.0 < length file.now.nodes }
    ensures { Asks (declared_type file.now behind n) (O.tells oracle.old) (O.tells oracle.new) (seen java_type result) }
{
    type_or_unknown(alloc, file, oracle, behind, type_child(file.tree(), n))
}

/// The type that a node writes as it is.
#[tactic(auto, using(pj_names::proofs::AskingLaws::asking_steps))]
pub fn written<O: Oracle>(
    alloc: Global,
    file: &File<'_>,
    oracle: &mut O,
    n: Node,
) -> Result<Ty, AskFault>
    requires inside { n.0 < length file.now.nodes }
    ensures { Asks (written file.now n) (O.tells oracle.old) (O.tells oracle.new) (seen java_type result) }
{
    type_or_unknown(alloc, file, oracle, 0, type_child(file.tree(), n))
}

/// The class of a `new` (JLS 15.9).
#[tactic(auto, using(pj_names::proofs::AskingLaws::asking_steps))]
pub fn created<O: Oracle>(
    alloc: Global,
    file: &File<'_>,
    oracle: &mut O,
    n: Node,
) -> Result<Ty, AskFault>
    requires inside { n.0 < length file.now.nodes }
    ensures { Asks (created file.now n) (O.tells oracle.old) (O.tells oracle.new) (seen java_type result) }
{
    let class = child_of(file.tree(), n, Kind::ClassType);
    type_or_unknown(alloc, file, oracle, 0, class)
}

/// Of several types the first.
fn first_of_several(tree: &SyntaxTree<'_>, n: Node) -> Option<Node>
    requires inside { n.0 < length tree.now.nodes }
    ensures value { result ≡ first_of_several tree.now n }
    ensures inside { IfSome result (λ m. m.0 < length tree.now.nodes) }
{
    if is_kind(tree, Kind::IntersectionType, n) {
        first_child(tree, n)
    } else {
        Some(n)
    }
}

/// The first type of a cast.
fn type_of_cast(tree: &SyntaxTree<'_>, n: Node) -> Option<Node>
    requires inside { n.0 < length tree.now.nodes }
    ensures value { result ≡ option_and_then (first_of_several tree.now) (first_child tree.now n) }
    ensures inside { IfSome result (λ m. m.0 < length tree.now.nodes) }
{
    match first_child(tree, n) {
        Some(child) => first_of_several(tree, child),
        None => None,
    }
}

/// The type of a cast (JLS 15.16).
#[tactic(auto, using(pj_names::proofs::AskingLaws::asking_steps))]
pub fn cast<O: Oracle>(
    alloc: Global,
    file: &File<'_>,
    oracle: &mut O,
    n: Node,
) -> Result<Ty, AskFault>
    requires inside { n.0 < length file.now.nodes }
    ensures { Asks (cast file.now n) (O.tells oracle.old) (O.tells oracle.new) (seen java_type result) }
{
    type_or_unknown(alloc, file, oracle, 0, type_of_cast(file.tree(), n))
}

/// The type of a class literal (JLS 15.8.2).
#[tactic(auto, using(pj_names::proofs::AskingLaws::asking_steps))]
pub fn literal_of<O: Oracle>(
    alloc: Global,
    file: &File<'_>,
    oracle: &mut O,
    n: Node,
) -> Result<Ty, AskFault>
    requires inside { n.0 < length file.now.nodes }
    ensures { Asks (literal_of file.now n) (O.tells oracle.old) (O.tells oracle.new) (seen java_type result) }
{
    let ty = written(alloc, file, oracle, n)?;
    let literal = class_literal(alloc, ty)?;
    Ok(literal)
}
