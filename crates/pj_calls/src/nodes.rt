//! The parts of a call.

ghost use Rattle.std.specs.Prelude.{◌≡◌, ◌<◌, ◌+◌, ◌++◌, ◌∷◌, List, length, IfOk, IfSome, OnOk};
ghost use Rattle.std.specs.List.{All};
ghost use Rattle.std.specs.Option.{option_and_then};
ghost use Rattle.pj_tree.specs.declared.node.Node.{Node};
ghost use Rattle.pj_calls.specs.Nodes.{arguments_of, before_dot, functions_from, is_function, receiver_of, unless_arguments};

use pj_base::{NoMemory, Numbers};
use pj_tree::{Kind, Node, SyntaxTree, first_child, is_kind};
use pj_written::{Nodes, below_child};
use std::alloc::Global;

/// A node that is no list of arguments.
fn unless_arguments(tree: &SyntaxTree<'_>, n: Node) -> Option<Node>
    requires inside { n.0 < length tree.now.nodes }
    ensures value { result ≡ unless_arguments tree.now n }
    ensures inside { IfSome result (λ m. m.0 < length tree.now.nodes) }
{
    if is_kind(tree, Kind::ArgumentList, n) {
        None
    } else {
        Some(n)
    }
}

/// What stands before the dot.
fn before_dot(tree: &SyntaxTree<'_>, n: Node) -> Option<Node>
    requires inside { n.0 < length tree.now.nodes }
    ensures value { result ≡ before_dot tree.now n }
    ensures inside { IfSome result (λ m. m.0 < length tree.now.nodes) }
{
    match first_child(tree, n) {
        Some(child) => unless_arguments(tree, child),
        None => None,
    }
}

/// The receiver of a method call (JLS 15.12): what stands before the dot, where something does. Other nodes have none.
pub fn receiver_of(tree: &SyntaxTree<'_>, n: Node) -> Option<Node>
    requires inside { n.0 < length tree.now.nodes }
    ensures value { result ≡ receiver_of tree.now n }
    ensures inside { IfSome result (λ m. m.0 < length tree.now.nodes) }
{
    match tree.kind(n) {
        Kind::MethodCall => before_dot(tree, n),
        _ => None,
    }
}

/// The arguments of a call, in their order.
pub fn arguments_of(alloc: Global, tree: &SyntaxTree<'_>, n: Node) -> Result<Nodes, NoMemory>
    requires inside { n.0 < length tree.now.nodes }
    ensures value { IfOk result (λ nodes. nodes ≡ arguments_of tree.now n) }
    ensures inside { IfOk result (λ nodes. All (λ (m : Node). m.0 < length tree.now.nodes) nodes) }
{
    below_child(alloc, tree, n, Kind::ArgumentList)
}

/// Whether a node is a lambda expression or a method reference (JLS 15.13, 15.27).
fn is_function(tree: &SyntaxTree<'_>, n: Node) -> bool
    requires inside { n.0 < length tree.now.nodes }
    ensures { result ≡ is_function tree.now n }
{
    is_kind(tree, Kind::LambdaExpression, n) || is_kind(tree, Kind::MethodReference, n)
}

/// A place as a number; past 32 bits it wants memory.
fn number_of(place: usize) -> Result<u32, NoMemory>
    ensures { IfOk result (λ number. number ≡ place) }
{
    match u32::try_from(place) {
        Ok(number) => Ok(number),
        Err(_) => Err(NoMemory),
    }
}

/// Puts the place of a node at the end, where it is a lambda expression or a method reference.
fn put_place(
    places: &mut Numbers,
    tree: &SyntaxTree<'_>,
    place: usize,
    n: Node,
) -> Result<(), NoMemory>
    requires inside { n.0 < length tree.now.nodes }
    ensures { OnOk result ((rest : List Node) → places.new ++ functions_from tree.now (place + 1) rest ≡ places.old ++ functions_from tree.now place (n ∷ rest)) }
{
    if !is_function(tree, n) {
        return Ok(());
    }
    places.push(number_of(place)?)
}

/// The places, counted from 0, of the arguments that are lambda expressions or method references.
pub fn functions_of(
    alloc: Global,
    tree: &SyntaxTree<'_>,
    arguments: &Nodes,
) -> Result<Numbers, NoMemory>
    requires inside { All (λ (m : Node). m.0 < length tree.now.nodes) arguments.now }
    ensures { IfOk result (λ places. places ≡ functions_from tree.now 0 arguments.now) }
{
    let mut places = Numbers::new(alloc);
    for (place, argument) in arguments.as_slice().iter().enumerate() {
        put_place(&mut places, tree, place, *argument)?;
    }
    Ok(places)
}
