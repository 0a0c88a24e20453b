//! Trees of small texts by a small grammar, found by hand.

ghost use Rattle.std.specs.Prelude.{◌≡◌, ◌<◌, ◌≤◌, IfOk, length};
ghost use Rattle.pj_shape.specs.ShapedTree.{IsDerived};
ghost use Rattle.pj_shape.specs.Words.{AreTokens};

use crate::fixtures::expect;
use crate::pieces::grammar;
use pj_base::NoMemory;
use pj_grammar::Piece;
use pj_peg::run;
use pj_peg_grammar::Derivation;
use pj_shape::{Shape, shape_derivation};
use pj_tree::{Kind, Node, ShapeFault, Span, SyntaxTree};
use std::alloc::{AllocError, Global};
use std::fmt::Write;
use std::test::Fail;

/// Each character that is no space is a token.
fn letters(alloc: Global, text: &str) -> Result<Vec<Span>, NoMemory>
    ensures { IfOk result (λ tokens. AreTokens text.now tokens.items) }
{
    if !text.is_ascii() || text.len() > 10_000 {
        return Err(NoMemory);
    }
    let bytes = text.as_bytes();
    let mut tokens = Vec::new(alloc);
    let mut at = 0;
    while at < bytes.len() {
        if bytes[at] != b' ' {
            let from = at as u32;
            tokens.push(Span { from, to: from + 1 })?;
        }
        at += 1;
    }
    Ok(tokens)
}

/// A letter is a token of kind 1, and any other character one of its own.
fn kind_of(character: u8) -> u16 {
    if character.is_ascii_alphabetic() {
        1
    } else {
        character as u16
    }
}

/// The kinds of the tokens.
fn kinds(alloc: Global, text: &str) -> Result<Vec<u16>, NoMemory> {
    let mut kinds = Vec::new(alloc);
    for character in text.bytes() {
        if character != b' ' {
            kinds.push(kind_of(character))?;
        }
    }
    Ok(kinds)
}

/// Files of declarations `$ a;`, types `: a.B & C;` and sums `(a).b() + c;`.
static PIECES: [Piece; 60] = [
    // 0 a file
    Piece::Star,
    Piece::Rule(1),
    // 1
    Piece::Choice(3),
    Piece::Seq(3),
    Piece::Token(b'$' as u16),
    Piece::Rule(2),
    Piece::Token(b';' as u16),
    Piece::Seq(3),
    Piece::Token(b':' as u16),
    Piece::Rule(5),
    Piece::Token(b';' as u16),
    Piece::Seq(2),
    Piece::Rule(8),
    Piece::Token(b';' as u16),
    // 2 a declaration
    Piece::Seq(2),
    Piece::Rule(3),
    Piece::Rule(4),
    // 3 its modifiers, of which there are none
    Piece::Seq(0),
    // 4 its name
    Piece::Token(1),
    // 5 types
    Piece::Seq(2),
    Piece::Rule(6),
    Piece::Star,
    Piece::Seq(2),
    Piece::Token(b'&' as u16),
    Piece::Rule(6),
    // 6 a type
    Piece::Seq(2),
    Piece::Rule(7),
    Piece::Star,
    Piece::Seq(2),
    Piece::Token(b'.' as u16),
    Piece::Rule(7),
    // 7 a segment of it
    Piece::Token(1),
    // 8 a sum
    Piece::Seq(2),
    Piece::Rule(10),
    Piece::Star,
    Piece::Rule(9),
    // 9
    Piece::Seq(2),
    Piece::Token(b'+' as u16),
    Piece::Rule(10),
    // 10 a name or a sum in parentheses, with calls and fields behind it
    Piece::Seq(2),
    Piece::Rule(11),
    Piece::Star,
    Piece::Choice(2),
    Piece::Rule(13),
    Piece::Rule(14),
    // 11
    Piece::Choice(2),
    Piece::Rule(12),
    Piece::Seq(3),
    Piece::Token(b'(' as u16),
    Piece::Rule(8),
    Piece::Token(b')' as u16),
    // 12 a name
    Piece::Token(1),
    // 13 a call
    Piece::Seq(4),
    Piece::Token(b'.' as u16),
    Piece::Token(1),
    Piece::Token(b'(' as u16),
    Piece::Token(b')' as u16),
    // 14 a field
    Piece::Seq(2),
    Piece::Token(b'.' as u16),
    Piece::Token(1),
];

const SHAPES: [Shape; 15] = [
    Shape::Node(Kind::CompilationUnit),
    Shape::Pass,
    Shape::Node(Kind::LocalVariableDeclaration),
    Shape::Node(Kind::ModifierList),
    Shape::Node(Kind::VariableId),
    Shape::Joined(Kind::IntersectionType),
    Shape::Pass,
    Shape::Segment(Kind::ClassType),
    Shape::Pass,
    Shape::Turn(Kind::InfixExpression),
    Shape::Pass,
    Shape::Pass,
    Shape::Node(Kind::VariableAccess),
    Shape::Turn(Kind::MethodCall),
    Shape::Turn(Kind::FieldAccess),
];

/// The derivation of tokens of these kinds. Where there is none, that is want of memory, which no row wants.
fn derived_of(alloc: Global, kinds: &[u16]) -> Result<Derivation, NoMemory>
    requires few { length kinds.now ≤ 200000 }
    ensures derived { IfOk result (λ derivation. IsDerived (length kinds.now) derivation) }
{
    let Ok(grammar) = grammar(alloc, &PIECES) else {
        return Err(NoMemory);
    };
    match run(alloc, &grammar, kinds) {
        Ok(Some(derivation)) => Ok(derivation),
        _ => Err(NoMemory),
    }
}

/// The derivation of a text of so many tokens.
fn derived(alloc: Global, text: &str, count: usize) -> Result<Derivation, NoMemory>
    ensures derived { IfOk result (λ derivation. IsDerived count derivation) }
{
    let kinds = kinds(alloc, text)?;
    if kinds.len() != count || count > 200_000 {
        return Err(NoMemory);
    }
    derived_of(alloc, &kinds)
}

/// The tree of a text, or why there is none.
fn tree<'s>(alloc: Global, text: &'s str) -> Result<SyntaxTree<'s>, ShapeFault> {
    if text.len() > 10_000 {
        return Err(ShapeFault::Memory);
    }
    let tokens = letters(alloc, text)?;
    let derivation = derived(alloc, text, tokens.len())?;
    shape_derivation(alloc, text, &tokens, &SHAPES, &derivation)
}

/// A node: the number of its parent, or 0 for the root, its kind, its text and where it begins.
fn write_node(list: &mut String, tree: &SyntaxTree<'_>, node: Node) -> Result<(), AllocError>
    requires { node.0 < length tree.now.nodes }
{
    let parent = tree.parent(node).map_or(0, |parent| parent.0);
    let kind = tree.kind(node).name();
    let from = tree.span(node).from;
    write!(list, "{parent} {kind} {} {from}", tree.text(node))
}

/// The own tokens of a node, each behind a space.
fn write_own(list: &mut String, tree: &SyntaxTree<'_>, node: Node) -> Result<(), AllocError>
    requires { node.0 < length tree.now.nodes }
{
    for token in tree.own(node) {
        write!(list, " {token}")?;
    }
    list.push('\n')
}

/// Each node in a line, with its own tokens behind it.
fn write_tree(list: &mut String, tree: &SyntaxTree<'_>) -> Result<(), AllocError> {
    for n in 0..tree.len() {
        write_node(list, tree, Node(n))?;
        write_own(list, tree, Node(n))?;
    }
    Ok(())
}

/// The tree of a text, or why there is none.
fn write_outcome(list: &mut String, alloc: Global, text: &str) -> Result<(), AllocError> {
    match tree(alloc, text) {
        Ok(tree) => write_tree(list, &tree),
        Err(fault) => write!(list, "{fault:?}"),
    }
}

fn has_tree(alloc: Global, text: &str, wanted: &str) -> Result<bool, AllocError> {
    let mut list = String::new(alloc);
    write_outcome(&mut list, alloc, text)?;
    Ok(list.as_str() == wanted)
}

/// Texts, each with its tree.
static TREES: [(&str, &str); 13] = [
    ("", "0 CompilationUnit  0\n"),
    (" ", "0 CompilationUnit  1\n"),
    // a fold nests to the left
    (
        "a + b+c;",
        "0 CompilationUnit a + b+c; 0 ;\n0 InfixExpression a + b+c 0 +\n1 InfixExpression a + b 0 +\n2 VariableAccess a 0 a\n2 VariableAccess b 4 b\n1 VariableAccess c 6 c\n",
    ),
    // parentheses lie inside the span of what stands around them, and outside that of what they hold
    (
        "(a) +b;",
        "0 CompilationUnit (a) +b; 0 ;\n0 InfixExpression (a) +b 0 ( ) +\n1 VariableAccess a 1 a\n1 VariableAccess b 5 b\n",
    ),
    // no modifiers stand before the next token
    (
        "$  a;",
        "0 CompilationUnit $  a; 0 $ ;\n0 LocalVariableDeclaration a 3\n1 ModifierList  3\n1 VariableId a 3 a\n",
    ),
    // two types are joined, and one is not; a package is no type
    (
        ":a.b;",
        "0 CompilationUnit :a.b; 0 : ;\n0 ClassType a.b 1 a . b\n",
    ),
    (
        ":a.B.C & D;",
        "0 CompilationUnit :a.B.C & D; 0 : ;\n0 IntersectionType a.B.C & D 1 &\n1 ClassType a.B.C 1 . C\n2 ClassType a.B 1 a . B\n1 ClassType D 9 D\n",
    ),
    // names that begin with a class
    (
        "a.B.C;",
        "0 CompilationUnit a.B.C; 0 ;\n0 FieldAccess a.B.C 0 . C\n1 TypeExpression a.B 0\n2 ClassType a.B 0 a . B\n",
    ),
    (
        "a.B.c();",
        "0 CompilationUnit a.B.c(); 0 ;\n0 MethodCall a.B.c() 0 . c ( )\n1 TypeExpression a.B 0\n2 ClassType a.B 0 a . B\n",
    ),
    // nothing follows the class; parentheses; a variable has the first name
    (
        "a.B;",
        "0 CompilationUnit a.B; 0 ;\n0 FieldAccess a.B 0 . B\n1 VariableAccess a 0 a\n",
    ),
    (
        "(B).c;",
        "0 CompilationUnit (B).c; 0 ;\n0 FieldAccess (B).c 0 ( ) . c\n1 VariableAccess B 1 B\n",
    ),
    (
        "a.B.c;$a;",
        "0 CompilationUnit a.B.c;$a; 0 ; $ ;\n0 FieldAccess a.B.c 0 . c\n1 FieldAccess a.B 0 . B\n2 VariableAccess a 0 a\n0 LocalVariableDeclaration a 7\n4 ModifierList  7\n4 VariableId a 7 a\n",
    ),
    (
        "a.B.c;$B;",
        "0 CompilationUnit a.B.c;$B; 0 ; $ ;\n0 FieldAccess a.B.c 0 . c\n1 TypeExpression a.B 0\n2 ClassType a.B 0 a . B\n0 LocalVariableDeclaration B 7\n4 ModifierList  7\n4 VariableId B 7 B\n",
    ),
];

#[test]
fn trees(rt: HostRuntime) -> Result<(), Fail> {
    for (text, wanted) in &TREES {
        expect(has_tree(rt.alloc(), text, wanted)?, text)?;
    }
    Ok(())
}

/// The text of a sum of so many names.
fn sum(alloc: Global, names: u32) -> Result<String, NoMemory> {
    let mut text = String::new(alloc);
    for _ in 1..names {
        text.push_str("a+")?;
    }
    text.push_str("a;")?;
    Ok(text)
}

/// How many nodes the tree of a sum of so many names has, or why there is none.
fn nodes_of_sum(alloc: Global, names: u32) -> Result<u32, ShapeFault> {
    let text = sum(alloc, names)?;
    match tree(alloc, text.as_str()) {
        Ok(tree) => Ok(tree.len()),
        Err(fault) => Err(fault),
    }
}

/// Numbers of names, each with the number of nodes of their sum, or why there is none.
static DEPTHS: [(u32, Result<u32, ShapeFault>); 2] = [
    (999, Ok(1_998)),
    (1_000, Err(ShapeFault::TooDeep(1_001))),
];

#[test]
fn depths(rt: HostRuntime) {
    for (names, wanted) in &DEPTHS {
        assert!(rt; nodes_of_sum(rt.alloc(), *names) == *wanted);
    }
}
