//! Modifiers that are written.

ghost use Rattle.std.specs.Prelude.{◌≡◌, ◌<◌, [], length, IfSome};
ghost use Rattle.pj_tree.specs.Words.{words_of, has};
ghost use Rattle.pj_modifiers.specs.Explicit.{bearer_of, modifier_list, is_explicit_at, is_explicit, is_written, has_sealed, word_of};

use pj_symbols::declaration_of;
use pj_tree::{Kind, Node, OwnTokens, SyntaxTree, first_child, has_word, is_kind};
use pj_xvalue::Modifier;

/// The node that has the modifiers of the node: for the name of a variable the variable's declaration, and else the node.
pub fn bearer_of(tree: &SyntaxTree<'_>, n: Node) -> Option<Node>
    requires inside { n.0 < length tree.now.nodes }
    ensures value { result ≡ bearer_of tree.now n }
    ensures inside { IfSome result (λ bearer. bearer.0 < length tree.now.nodes) }
{
    if is_kind(tree, Kind::VariableId, n) {
        declaration_of(tree, n)
    } else {
        Some(n)
    }
}

/// The list of the modifiers that are written at the node, if it has one.
fn modifier_list(tree: &SyntaxTree<'_>, n: Node) -> Option<Node>
    requires inside { n.0 < length tree.now.nodes }
    ensures value { result ≡ modifier_list tree.now n }
    ensures inside { IfSome result (λ list. list.0 < length tree.now.nodes) }
{
    let child = first_child(tree, n)?;
    if is_kind(tree, Kind::ModifierList, child) {
        Some(child)
    } else {
        None
    }
}

/// The word of the modifier; for `non-sealed` its first word.
fn word_of(modifier: Modifier) -> &'static str
    ensures { result.now ≡ word_of modifier }
{
    match modifier {
        Modifier::Abstract => "abstract",
        Modifier::Default => "default",
        Modifier::Final => "final",
        Modifier::Native => "native",
        Modifier::NonSealed => "non",
        Modifier::Private => "private",
        Modifier::Protected => "protected",
        Modifier::Public => "public",
        Modifier::Sealed => "sealed",
        Modifier::Static => "static",
        Modifier::Strictfp => "strictfp",
        Modifier::Synchronized => "synchronized",
        Modifier::Transient => "transient",
        Modifier::Volatile => "volatile",
    }
}

/// Whether `sealed` is among the words, but as the end of `non-sealed`.
fn has_sealed(words: OwnTokens<'_>) -> bool
    ensures { result ≡ has_sealed [] words.entry }
{
    let mut before = "";
    for word in words {
        if word == "sealed" && before != "-" {
            return true;
        }
        before = word;
    }
    false
}

/// Whether the modifier is written at the node itself.
pub(crate) fn is_explicit_at(tree: &SyntaxTree<'_>, n: Node, modifier: Modifier) -> bool
    requires inside { n.0 < length tree.now.nodes }
    ensures { result ≡ is_explicit_at tree.now n modifier }
{
    match modifier_list(tree, n) {
        Some(list) => is_written(tree, list, modifier),
        None => false,
    }
}

/// Whether the modifier is among the words of a list of modifiers.
fn is_written(tree: &SyntaxTree<'_>, list: Node, modifier: Modifier) -> bool
    requires inside { list.0 < length tree.now.nodes }
    ensures { result ≡ is_written modifier (words_of tree.now list) }
{
    match modifier {
        Modifier::Sealed => has_sealed(tree.own(list)),
        _ => has_word(tree, list, word_of(modifier)),
    }
}

/// Whether the modifier is written at the node, or at the declaration of the variable that the node names.
pub fn is_explicit(tree: &SyntaxTree<'_>, n: Node, modifier: Modifier) -> bool
    requires inside { n.0 < length tree.now.nodes }
    ensures { result ≡ is_explicit tree.now n modifier }
{
    match bearer_of(tree, n) {
        Some(bearer) => is_explicit_at(tree, bearer, modifier),
        None => false,
    }
}
