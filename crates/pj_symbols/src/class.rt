//! Classes: where each stands, and its name.

ghost use Rattle.std.specs.Prelude.{◌≡◌, ◌<◌, ◌++◌, length, Some, true, IfSome, IfOk, MatchOption};
ghost use Rattle.pj_symbols.specs.Classes.{nesting_of, nesting_below, nesting_in, class_around, around_name, binary_name, named_in};
ghost use Rattle.pj_symbols.specs.Kinds.{declares_class};
ghost use Rattle.pj_symbols.specs.Names.{package_name, package_prefix};

use crate::kinds::is_class;
use pj_base::{NoMemory, Text};
use pj_tree::{Kind, Node, SyntaxTree, kind_above, last_word};
use std::alloc::Global;

/// A class or an interface that a file declares.
#[derive(Debug, Drop)]
pub struct Class {
    /// Its declaration.
    pub node: Node,
    /// Its binary name, with dots between the parts of the package (JLS 13.1).
    pub name: Text,
    /// The class directly around it, if there is one.
    pub owner: Option<Node>,
}

/// Where a class is declared.
#[derive(Clone, Copy, Debug, PartialEq, Eq)]
pub enum Nesting {
    /// Directly in the file (JLS 7.6).
    TopLevel,
    /// As a member of a class (JLS 8.5).
    Nested,
    /// In a block (JLS 14.3).
    Local,
    /// In an expression or an enum constant, without a name (JLS 15.9.5, 8.9.1).
    Anonymous,
}

/// Where the class is declared that the node declares.
pub fn nesting_of(tree: &SyntaxTree<'_>, n: Node) -> Nesting
    requires inside { n.0 < length tree.now.nodes }
    ensures { result ≡ nesting_of tree.now n }
{
    match tree.kind(n) {
        Kind::AnonymousClassDeclaration => Nesting::Anonymous,
        _ => nesting_below(kind_above(tree, n)),
    }
}

/// Where a class with a name is declared, by the kind of the node above its declaration.
fn nesting_below(above: Option<Kind>) -> Nesting
    ensures { result ≡ nesting_below above }
{
    match above {
        Some(kind) => nesting_in(kind),
        None => Nesting::TopLevel,
    }
}

/// How a class stands below a node of this kind.
fn nesting_in(above: Kind) -> Nesting
    ensures { result ≡ nesting_in above }
{
    match above {
        Kind::CompilationUnit => Nesting::TopLevel,
        Kind::LocalClassStatement => Nesting::Local,
        _ => Nesting::Nested,
    }
}

/// The class directly around the node: the innermost one that is declared above it, if there is one. It takes a step for
/// each node between.
pub fn class_around(tree: &SyntaxTree<'_>, n: Node) -> Option<Node>
    requires inside { n.0 < length tree.now.nodes }
    ensures value { result ≡ class_around tree.now n }
    ensures before { IfSome result (λ owner. owner.0 < n.0) }
    ensures class { IfSome result (λ owner. declares_class tree.now owner ≡ true) }
    ensures name { MatchOption result (around_name tree.now n ≡ package_prefix (package_name tree.now)) (λ owner. around_name tree.now n ≡ binary_name tree.now owner) }
{
    let _nodes = tree.len();
    let mut at = n;
    while let Some(above) = tree.parent(at) {
        if is_class(tree.kind(above)) {
            return Some(above);
        }
        at = above;
    }
    None
}

/// The name of the class that the node declares, within what has this name.
pub(crate) fn name_within(
    alloc: Global,
    tree: &SyntaxTree<'_>,
    n: Node,
    around: &str,
) -> Result<Text, NoMemory>
    requires inside { n.0 < length tree.now.nodes }
    ensures { IfOk result (λ name. name ≡ named_in tree.now n around.now) }
{
    let mut name = Text::from_str(alloc, around)?;
    match nesting_of(tree, n) {
        Nesting::TopLevel => name.push_str(last_word(tree, n))?,
        Nesting::Nested => {
            name.push_str("$")?;
            name.push_str(last_word(tree, n))?;
        }
        Nesting::Local | Nesting::Anonymous => {
            let number = n.0.to_string(alloc)?;
            name.push_str("$$")?;
            name.push_str(number.as_str())?;
        }
    }
    Ok(name)
}
