//! Names, by the own tokens of a node.

ghost use Rattle.std.specs.Prelude.{◌≡◌, ◌<◌, [], length, MatchOption, IfOk};
ghost use Rattle.pj_symbols.specs.Names.{is_of_name, joined_name, package_of, package_name, package_prefix};

use pj_base::{NoMemory, Text};
use pj_tree::{Kind, Node, OwnTokens, SyntaxTree};
use std::alloc::Global;

/// Whether a token of a package declaration is of the name.
fn is_of_name(word: &str) -> bool
    ensures { result ≡ is_of_name word.now }
{
    match word {
        "package" | ";" => false,
        _ => true,
    }
}

/// The tokens of the name, joined.
fn joined_name(alloc: Global, words: OwnTokens<'_>) -> Result<Text, NoMemory>
    ensures { IfOk result (λ name. name ≡ joined_name words.entry) }
{
    let mut name = Text::new(alloc);
    for word in words {
        if is_of_name(word) {
            name.push_str(word)?;
        }
    }
    Ok(name)
}

/// The package declaration of the file, if it has one: the node behind the root.
fn package_of(tree: &SyntaxTree<'_>) -> Option<Node>
    ensures value { result ≡ package_of tree.now }
    ensures inside { MatchOption result (package_of tree.now ≡ result) (λ n. n.0 < length tree.now.nodes) }
{
    if tree.len() < 2 {
        return None;
    }
    match tree.kind(Node(1)) {
        Kind::PackageDeclaration => Some(Node(1)),
        _ => None,
    }
}

/// The name of the package (JLS 7.4), and the empty text for the unnamed one.
pub(crate) fn package_name(alloc: Global, tree: &SyntaxTree<'_>) -> Result<Text, NoMemory>
    ensures { IfOk result (λ name. name ≡ package_name tree.now) }
{
    match package_of(tree) {
        Some(n) => joined_name(alloc, tree.own(n)),
        None => Ok(Text::new(alloc)),
    }
}

/// What stands before the names of the top level classes of a package.
pub(crate) fn package_prefix(alloc: Global, name: &str) -> Result<Text, NoMemory>
    ensures { IfOk result (λ prefix. prefix ≡ package_prefix name.now) }
{
    let mut prefix = Text::from_str(alloc, name)?;
    if !name.is_empty() {
        prefix.push_str(".")?;
    }
    Ok(prefix)
}
