//! What the headers of the classes of a file write.

ghost use Rattle.std.specs.Prelude.{◌≡◌, ◌<◌, ◌++◌, length, IfOk, IfSome, OnOk};
ghost use Rattle.std.specs.List.{All};
ghost use Rattle.pj_written.specs.Words.{one_or_none};
ghost use Rattle.pj_tree.specs.Tree.{children_of};
ghost use Rattle.pj_symbols.specs.Symbols.{FindsClasses};
ghost use Rattle.pj_written.specs.Headers.{all_bounds, bounds_in, bounds_of, class_text, created, enum_around, enum_of_body, extended, if_bound, implemented, implied_supertypes, is_bound, is_constant_body, listed_bounds, writes_bound, written_supertypes};

use crate::nodes::{Nodes, below_child, put_below, put_nodes};
use pj_base::NoMemory;
use pj_names::{ClassName, ClassNames};
use pj_symbols::{Symbols, class_around};
use pj_tree::{Kind, Node, SyntaxTree, child_of, is_kind};
use std::alloc::Global;

/// Whether a node of the kind is a bound.
fn is_bound(kind: Kind) -> bool
    ensures { result ≡ is_bound kind }
{
    match kind {
        Kind::ClassType | Kind::IntersectionType => true,
        _ => false,
    }
}

/// Whether the node is a bound.
fn writes_bound(tree: &SyntaxTree<'_>, n: Node) -> bool
    requires inside { n.0 < length tree.now.nodes }
    ensures { result ≡ writes_bound tree.now n }
{
    is_bound(tree.kind(n))
}

/// Puts the class types of a bound at the end: those of an intersection, or the one.
fn put_bound(nodes: &mut Nodes, tree: &SyntaxTree<'_>, bound: Node) -> Result<(), NoMemory>
    requires inside { bound.0 < length tree.now.nodes }
    ensures { OnOk result (nodes.new ≡ nodes.old ++ bounds_in tree.now bound) }
{
    if is_kind(tree, Kind::IntersectionType, bound) {
        put_nodes(nodes, tree.children(bound))
    } else {
        nodes.push(bound)
    }
}

/// Puts the class types at the end of what is a bound.
fn put_if_bound(nodes: &mut Nodes, tree: &SyntaxTree<'_>, n: Node) -> Result<(), NoMemory>
    requires inside { n.0 < length tree.now.nodes }
    ensures { OnOk result (nodes.new ≡ nodes.old ++ if_bound tree.now n) }
{
    if writes_bound(tree, n) {
        put_bound(nodes, tree, n)
    } else {
        Ok(())
    }
}

/// Puts the bounds of a type parameter at the end.
fn put_bounds(nodes: &mut Nodes, tree: &SyntaxTree<'_>, parameter: Node) -> Result<(), NoMemory>
    requires inside { parameter.0 < length tree.now.nodes }
    ensures { OnOk result (nodes.new ≡ nodes.old ++ bounds_of tree.now parameter) }
{
    for child in tree.children(parameter) {
        put_if_bound(nodes, tree, child)?;
    }
    Ok(())
}

/// The bounds of a type parameter (JLS 4.4).
pub fn bounds_of(alloc: Global, tree: &SyntaxTree<'_>, parameter: Node) -> Result<Nodes, NoMemory>
    requires inside { parameter.0 < length tree.now.nodes }
    ensures value { IfOk result (λ nodes. nodes ≡ bounds_of tree.now parameter) }
    ensures inside { IfOk result (λ nodes. All (λ (m : Node). m.0 < length tree.now.nodes) nodes) }
{
    let mut nodes = Nodes::new(alloc);
    put_bounds(&mut nodes, tree, parameter)?;
    Ok(nodes)
}

/// Puts the bounds of each type parameter of a list at the end.
fn put_listed_bounds(nodes: &mut Nodes, tree: &SyntaxTree<'_>, list: Node) -> Result<(), NoMemory>
    requires inside { list.0 < length tree.now.nodes }
    ensures { OnOk result (nodes.new ≡ nodes.old ++ listed_bounds tree.now (children_of tree.now list)) }
{
    for parameter in tree.children(list) {
        put_bounds(nodes, tree, parameter)?;
    }
    Ok(())
}

/// Puts the bounds of all type parameters at the end.
fn put_all_bounds(nodes: &mut Nodes, tree: &SyntaxTree<'_>, n: Node) -> Result<(), NoMemory>
    requires inside { n.0 < length tree.now.nodes }
    ensures { OnOk result (nodes.new ≡ nodes.old ++ all_bounds tree.now n) }
{
    match child_of(tree, n, Kind::TypeParameters) {
        Some(list) => put_listed_bounds(nodes, tree, list),
        None => Ok(()),
    }
}

/// The bounds of all type parameters of a class, a method or a constructor.
pub fn all_bounds(alloc: Global, tree: &SyntaxTree<'_>, n: Node) -> Result<Nodes, NoMemory>
    requires inside { n.0 < length tree.now.nodes }
    ensures value { IfOk result (λ nodes. nodes ≡ all_bounds tree.now n) }
    ensures inside { IfOk result (λ nodes. All (λ (m : Node). m.0 < length tree.now.nodes) nodes) }
{
    let mut nodes = Nodes::new(alloc);
    put_all_bounds(&mut nodes, tree, n)?;
    Ok(nodes)
}

/// The class type of the `new` of an anonymous class.
pub fn created(tree: &SyntaxTree<'_>, class: Node) -> Option<Node>
    requires inside { class.0 < length tree.now.nodes }
    ensures value { result ≡ created tree.now class }
    ensures inside { IfSome result (λ n. n.0 < length tree.now.nodes) }
{
    let new = tree.parent(class)?;
    child_of(tree, new, Kind::ClassType)
}

/// The class type of the `new` of an anonymous class, as a list.
fn created_alone(alloc: Global, tree: &SyntaxTree<'_>, class: Node) -> Result<Nodes, NoMemory>
    requires inside { class.0 < length tree.now.nodes }
    ensures { IfOk result (λ nodes. nodes ≡ one_or_none (created tree.now class)) }
{
    let mut nodes = Nodes::new(alloc);
    match created(tree, class) {
        Some(n) => {
            nodes.push(n)?;
            Ok(nodes)
        }
        None => Ok(nodes),
    }
}

/// The supertypes in the two lists of a declaration.
fn listed_supertypes(alloc: Global, tree: &SyntaxTree<'_>, class: Node) -> Result<Nodes, NoMemory>
    requires inside { class.0 < length tree.now.nodes }
    ensures { IfOk result (λ nodes. nodes ≡ extended tree.now class ++ implemented tree.now class) }
{
    let mut nodes = below_child(alloc, tree, class, Kind::ExtendsList)?;
    put_below(&mut nodes, tree, class, Kind::ImplementsList)?;
    Ok(nodes)
}

/// The supertypes that a class writes.
fn supertypes(alloc: Global, tree: &SyntaxTree<'_>, class: Node) -> Result<Nodes, NoMemory>
    requires inside { class.0 < length tree.now.nodes }
    ensures { IfOk result (λ nodes. nodes ≡ written_supertypes tree.now class) }
{
    if is_kind(tree, Kind::AnonymousClassDeclaration, class) {
        created_alone(alloc, tree, class)
    } else {
        listed_supertypes(alloc, tree, class)
    }
}

/// The supertypes that a class writes: of an anonymous one the class of its `new`, and else those behind `extends` and those behind
/// `implements` (JLS 8.1.4, 8.1.5, 9.1.3, 15.9.5).
pub fn written_supertypes(
    alloc: Global,
    tree: &SyntaxTree<'_>,
    class: Node,
) -> Result<Nodes, NoMemory>
    requires inside { class.0 < length tree.now.nodes }
    ensures value { IfOk result (λ nodes. nodes ≡ written_supertypes tree.now class) }
    ensures inside { IfOk result (λ nodes. All (λ (m : Node). m.0 < length tree.now.nodes) nodes) }
{
    let nodes = supertypes(alloc, tree, class)?;
    Ok(nodes)
}

/// Whether an anonymous class is the body of an enum constant (JLS 8.9.1).
pub fn is_constant_body(tree: &SyntaxTree<'_>, class: Node) -> bool
    requires inside { class.0 < length tree.now.nodes }
    ensures { result ≡ is_constant_body tree.now class }
{
    match tree.parent(class) {
        Some(above) => is_kind(tree, Kind::EnumConstant, above),
        None => false,
    }
}

/// The binary name of the class that a node declares, and the empty text of a node that declares none.
pub fn class_text<'s>(tree: &SyntaxTree<'_>, symbols: &'s Symbols, n: Node) -> &'s str
    requires finds { FindsClasses tree.now symbols.now.classes }
    ensures { result.now ≡ class_text tree.now n }
{
    let _tree = tree;
    match symbols.class(n) {
        Some(class) => class.name.as_str(),
        None => "",
    }
}

/// The name of the class around a node, as that of the enum around the body of one of its constants.
pub fn enum_around(
    alloc: Global,
    tree: &SyntaxTree<'_>,
    symbols: &Symbols,
    class: Node,
) -> Result<Option<ClassName>, NoMemory>
    requires inside { class.0 < length tree.now.nodes }
    requires finds { FindsClasses tree.now symbols.now.classes }
    ensures { IfOk result (λ name. one_or_none name ≡ enum_around tree.now class) }
{
    match class_around(tree, class) {
        Some(owner) => ClassName::of(alloc, class_text(tree, symbols, owner)),
        None => Ok(None),
    }
}

/// The name of the enum around the body of a constant; no other anonymous class has one.
fn enum_of_body(
    alloc: Global,
    tree: &SyntaxTree<'_>,
    symbols: &Symbols,
    class: Node,
) -> Result<Option<ClassName>, NoMemory>
    requires inside { class.0 < length tree.now.nodes }
    requires finds { FindsClasses tree.now symbols.now.classes }
    ensures { IfOk result (λ name. one_or_none name ≡ enum_of_body tree.now class) }
{
    if is_constant_body(tree, class) {
        enum_around(alloc, tree, symbols, class)
    } else {
        Ok(None)
    }
}

/// The name of the supertype that a class has without writing it, but `java.lang.Object`.
fn implied_supertype(
    alloc: Global,
    tree: &SyntaxTree<'_>,
    symbols: &Symbols,
    class: Node,
) -> Result<Option<ClassName>, NoMemory>
    requires inside { class.0 < length tree.now.nodes }
    requires finds { FindsClasses tree.now symbols.now.classes }
    ensures { IfOk result (λ name. one_or_none name ≡ implied_supertypes tree.now class) }
{
    match tree.kind(class) {
        Kind::EnumDeclaration => ClassName::of(alloc, "java.lang.Enum"),
        Kind::RecordDeclaration => ClassName::of(alloc, "java.lang.Record"),
        Kind::AnnotationTypeDeclaration => ClassName::of(alloc, "java.lang.annotation.Annotation"),
        Kind::AnonymousClassDeclaration => enum_of_body(alloc, tree, symbols, class),
        _ => Ok(None),
    }
}

/// The supertypes that a class has without writing them, but `java.lang.Object`: one at most.
pub fn implied_supertypes(
    alloc: Global,
    tree: &SyntaxTree<'_>,
    symbols: &Symbols,
    class: Node,
) -> Result<ClassNames, NoMemory>
    requires inside { class.0 < length tree.now.nodes }
    requires finds { FindsClasses tree.now symbols.now.classes }
    ensures { IfOk result (λ names. names ≡ implied_supertypes tree.now class) }
{
    let mut names = ClassNames::new(alloc);
    match implied_supertype(alloc, tree, symbols, class)? {
        Some(name) => {
            names.push(name)?;
            Ok(names)
        }
        None => Ok(names),
    }
}
