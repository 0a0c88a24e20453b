//! Trees that are built by hand. The values were found by hand.

ghost use Rattle.std.specs.Prelude.{◌≡◌, ◌<◌, [], IfOk, length};
ghost use Rattle.std.specs.List.{fold};
ghost use Rattle.pj_tree.specs.Building.{after_call};
ghost use Rattle.pj_tree.specs.Nested.{Parts, NoMore, Child, calls_of, AreSpansOf};
ghost use Rattle.pj_tree.specs.declared.kind.Kind.TheVariants.{CompilationUnit};

use crate::fixtures::expect;
use pj_base::NoMemory;
use pj_tree::{Builder, Kind, Node, ShapeFault, Span, SyntaxTree};
use std::alloc::{AllocError, Global};
use std::fmt::Write;
use std::test::Fail;

/// Opens and closes nodes, each in the one before.
fn nest(builder: &mut Builder<'_>, depth: u32) -> Result<(), NoMemory>
    ensures { IfOk result (λ _. (inside : Parts) × AreSpansOf [] (Child CompilationUnit 0 inside 0 NoMore) × (builder.new ≡ fold after_call builder.old (calls_of (Child CompilationUnit 0 inside 0 NoMore)))) }
{
    builder.open(Kind::CompilationUnit, 0)?;
    if depth > 1 {
        nest(builder, depth - 1)?;
    }
    builder.close(0);
    Ok(())
}

fn nested(alloc: Global, depth: u32) -> Result<u32, ShapeFault> {
    let mut builder = Builder::new(alloc, "");
    nest(&mut builder, depth)?;
    let tree = builder.finish()?;
    Ok(tree.len())
}

/// Depths, each with the number of nodes, or why there is no tree.
static DEPTHS: [(u32, Result<u32, ShapeFault>); 3] = [
    (1, Ok(1)),
    (1_000, Ok(1_000)),
    (1_001, Err(ShapeFault::TooDeep(1_001))),
];

#[test]
fn depths(rt: HostRuntime) {
    for (depth, wanted) in &DEPTHS {
        assert!(rt; nested(rt.alloc(), *depth) == *wanted);
    }
}

/// The tree of an empty class.
fn class(alloc: Global) -> Result<SyntaxTree<'static>, ShapeFault> {
    let mut builder = Builder::new(alloc, "class A {}");
    builder.open(Kind::CompilationUnit, 0)?;
    builder.open(Kind::ClassDeclaration, 0)?;
    builder.own(Span { from: 0, to: 5 })?;
    builder.open(Kind::ModifierList, 6)?;
    builder.close(6);
    builder.own(Span { from: 6, to: 7 })?;
    builder.open(Kind::ClassBody, 8)?;
    builder.own(Span { from: 8, to: 9 })?;
    builder.own(Span { from: 9, to: 10 })?;
    builder.close(10);
    builder.close(10);
    builder.close(10);
    builder.finish()
}

/// What a tree says of a node alone.
fn write_node(out: &mut String, tree: &SyntaxTree<'_>, n: Node) -> Result<(), AllocError>
    requires { n.0 < length tree.now.nodes }
{
    let kind = tree.kind(n).name();
    let parent = tree.parent(n);
    let span = tree.span(n);
    let text = tree.text(n);
    write!(out, "{kind} {parent:?} {span:?} {text:?}")
}

fn write_children(out: &mut String, tree: &SyntaxTree<'_>, n: Node) -> Result<(), AllocError>
    requires { n.0 < length tree.now.nodes }
{
    for child in tree.children(n) {
        write!(out, " {}", child.0)?;
    }
    Ok(())
}

/// The node behind those below it, the children, and the sibling before it.
fn write_others(out: &mut String, tree: &SyntaxTree<'_>, n: Node) -> Result<(), AllocError>
    requires { n.0 < length tree.now.nodes }
{
    write!(out, " to {:?} children", tree.subtree_end(n))?;
    write_children(out, tree, n)?;
    write!(out, " behind {:?}", tree.preceding_sibling(n))
}

/// The own tokens.
fn write_own(out: &mut String, tree: &SyntaxTree<'_>, n: Node) -> Result<(), AllocError>
    requires { n.0 < length tree.now.nodes }
{
    out.push_str(" own")?;
    for token in tree.own(n) {
        write!(out, " {token}")?;
    }
    Ok(())
}

/// All that a tree says of a node.
fn write_all(out: &mut String, tree: &SyntaxTree<'_>, n: Node) -> Result<(), AllocError>
    requires { n.0 < length tree.now.nodes }
{
    write_node(out, tree, n)?;
    write_others(out, tree, n)?;
    write_own(out, tree, n)
}

/// Whether a tree says this of a node, which it has.
fn says(alloc: Global, tree: &SyntaxTree<'_>, n: u32, wanted: &str) -> Result<bool, AllocError> {
    if n >= tree.len() {
        return Ok(false);
    }
    let mut found = String::new(alloc);
    write_all(&mut found, tree, Node(n))?;
    Ok(found.as_str() == wanted)
}

/// The nodes of the tree of an empty class, in preorder.
static NODES: [&str; 4] = [
    "CompilationUnit None Span { from: 0, to: 10 } \"class A {}\" to Node(4) children 1 behind None own",
    "ClassDeclaration Some(Node(0)) Span { from: 0, to: 10 } \"class A {}\" to Node(4) children 2 3 behind None own class A",
    "ModifierList Some(Node(1)) Span { from: 6, to: 6 } \"\" to Node(3) children behind None own",
    "ClassBody Some(Node(1)) Span { from: 8, to: 10 } \"{}\" to Node(4) children behind Some(Node(2)) own { }",
];

/// Whether a tree says these of its nodes.
fn check_nodes(alloc: Global, tree: &SyntaxTree<'_>) -> Result<(), Fail> {
    for (n, wanted) in NODES.iter().enumerate() {
        expect(says(alloc, tree, n as u32, wanted)?, wanted)?;
    }
    Ok(())
}

#[test]
fn reads(rt: HostRuntime) -> Result<(), Fail> {
    let tree = class(rt.alloc())?;
    assert!(rt; tree.len() == 4);
    check_nodes(rt.alloc(), &tree)
}
