//! Nodes of a tree: lists of them, and types among the children of a node.

ghost use Rattle.std.specs.Prelude.{◌≡◌, ◌<◌, ◌≤◌, ◌++◌, None, length, IfOk, IfSome, OnOk};
ghost use Rattle.std.specs.List.{All};
ghost use Rattle.pj_written.specs.Words.{below_child, is_interface, is_regular_interface, is_type_or_void, last_child, last_in, own_brackets, type_child, without_brackets, writes_type};

use pj_base::{ListOf, NoMemory};
use pj_tree::{Children, Kind, Node, SyntaxTree, child_of, has_word, is_kind};
use std::alloc::Global;

/// Nodes, in the order in which they are looked at.
pub type Nodes = ListOf<Node>;

/// Puts nodes at the end.
pub fn put_nodes(nodes: &mut Nodes, more: Children<'_>) -> Result<(), NoMemory>
    ensures { OnOk result (nodes.new ≡ nodes.old ++ more.entry) }
{
    for n in more {
        nodes.push(n)?;
    }
    Ok(())
}

/// Puts the children of the first child of a kind at the end.
pub fn put_below(
    nodes: &mut Nodes,
    tree: &SyntaxTree<'_>,
    n: Node,
    kind: Kind,
) -> Result<(), NoMemory>
    requires inside { n.0 < length tree.now.nodes }
    ensures { OnOk result (nodes.new ≡ nodes.old ++ below_child tree.now n kind) }
{
    match child_of(tree, n, kind) {
        Some(list) => put_nodes(nodes, tree.children(list)),
        None => Ok(()),
    }
}

/// The children of the first child of a kind.
pub fn below_child(
    alloc: Global,
    tree: &SyntaxTree<'_>,
    n: Node,
    kind: Kind,
) -> Result<Nodes, NoMemory>
    requires inside { n.0 < length tree.now.nodes }
    ensures value { IfOk result (λ nodes. nodes ≡ below_child tree.now n kind) }
    ensures inside { IfOk result (λ nodes. All (λ (m : Node). m.0 < length tree.now.nodes) nodes) }
{
    let mut nodes = Nodes::new(alloc);
    put_below(&mut nodes, tree, n, kind)?;
    Ok(nodes)
}

/// The last of some nodes, and none of none.
pub fn last_in(nodes: Children<'_>) -> Option<Node>
    ensures { result ≡ last_in None nodes.entry }
{
    let mut last = None;
    for n in nodes {
        last = Some(n);
    }
    last
}

/// The last child.
pub fn last_child(tree: &SyntaxTree<'_>, n: Node) -> Option<Node>
    requires inside { n.0 < length tree.now.nodes }
    ensures value { result ≡ last_child tree.now n }
    ensures inside { IfSome result (λ child. child.0 < length tree.now.nodes) }
{
    last_in(tree.children(n))
}

/// Whether a node of the kind writes a type, or that a method has no result (JLS 4.1, 8.4.5).
fn is_type_or_void(kind: Kind) -> bool
    ensures { result ≡ is_type_or_void kind }
{
    match kind {
        Kind::PrimitiveType | Kind::VoidType | Kind::ClassType | Kind::ArrayType => true,
        _ => false,
    }
}

/// Whether the node writes a type.
fn writes_type(tree: &SyntaxTree<'_>, n: Node) -> bool
    requires inside { n.0 < length tree.now.nodes }
    ensures { result ≡ writes_type tree.now n }
{
    is_type_or_void(tree.kind(n))
}

/// The type that a declaration writes: the first child that is one.
pub fn type_child(tree: &SyntaxTree<'_>, n: Node) -> Option<Node>
    requires inside { n.0 < length tree.now.nodes }
    ensures value { result ≡ type_child tree.now n }
    ensures inside { IfSome result (λ child. child.0 < length tree.now.nodes) }
{
    for child in tree.children(n) {
        if writes_type(tree, child) {
            return Some(child);
        }
    }
    None
}

/// How many nodes there are.
fn count(nodes: Children<'_>) -> u32
    requires few { length nodes ≤ 2000000 }
    ensures { result ≡ length nodes.entry }
{
    let mut count = 0;
    for n in nodes {
        let _ = n;
        count += 1;
    }
    count
}

/// How many pairs of brackets stand directly below the node.
pub fn bracket_count(tree: &SyntaxTree<'_>, n: Node) -> u32
    requires inside { n.0 < length tree.now.nodes }
    ensures value { result ≡ length (own_brackets tree.now n) }
    ensures few { result ≤ 2000000 }
{
    match child_of(tree, n, Kind::ArrayDimensions) {
        Some(list) => count(tree.children(list)),
        None => 0,
    }
}

/// Of an array type what stands before its brackets, and else the node.
pub fn without_brackets(tree: &SyntaxTree<'_>, n: Node) -> Node
    requires inside { n.0 < length tree.now.nodes }
    ensures value { result ≡ without_brackets tree.now n }
    ensures inside { result.0 < length tree.now.nodes }
{
    if !is_kind(tree, Kind::ArrayType, n) {
        return n;
    }
    match type_child(tree, n) {
        Some(member) => member,
        None => n,
    }
}

/// Whether the node declares an interface that is no annotation interface (JLS 9.1).
pub fn is_regular_interface(tree: &SyntaxTree<'_>, class: Node) -> bool
    requires inside { class.0 < length tree.now.nodes }
    ensures { result ≡ is_regular_interface tree.now class }
{
    is_kind(tree, Kind::ClassDeclaration, class) && has_word(tree, class, "interface")
}

/// Whether the node declares an interface, an annotation interface included (JLS 9.1, 9.6).
pub fn is_interface(tree: &SyntaxTree<'_>, class: Node) -> bool
    requires inside { class.0 < length tree.now.nodes }
    ensures { result ≡ is_interface tree.now class }
{
    is_kind(tree, Kind::AnnotationTypeDeclaration, class) || is_regular_interface(tree, class)
}
