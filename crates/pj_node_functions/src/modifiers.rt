//! The modifiers of a node, as words.
ghost use Rattle.std.specs.Prelude.{◌≡◌, ◌<◌, ◌++◌, IfOk, OnOk, length};
ghost use Rattle.std.specs.Option.{ForSome};
ghost use Rattle.pj_node_functions.specs.ModifierWords.{all_modifiers, modifiers_at, word_of, words_among, words_of};
ghost use Rattle.pj_xvalue.specs.Items.{values_of};

use pj_base::NoMemory;
use pj_tree::{Kind, Node, SyntaxTree, has_child};
use pj_xvalue::{Attributes, Item, Modifier, Modifiers, Sequence};
use std::alloc::Global;

/// All modifiers, in the byte order of their words.
static ALL_MODIFIERS: [Modifier; 14] = [
    Modifier::Abstract,
    Modifier::Default,
    Modifier::Final,
    Modifier::Native,
    Modifier::NonSealed,
    Modifier::Private,
    Modifier::Protected,
    Modifier::Public,
    Modifier::Sealed,
    Modifier::Static,
    Modifier::Strictfp,
    Modifier::Synchronized,
    Modifier::Transient,
    Modifier::Volatile,
];

/// The word of a modifier (JLS 8.1.1, 8.3.1, 8.4.3, 9.4).
fn word_of(modifier: Modifier) -> &'static str
    ensures { result.now ≡ word_of modifier }
{
    match modifier {
        Modifier::Abstract => "abstract",
        Modifier::Default => "default",
        Modifier::Final => "final",
        Modifier::Native => "native",
        Modifier::NonSealed => "non-sealed",
        Modifier::Private => "private",
        Modifier::Protected => "protected",
        Modifier::Public => "public",
        Modifier::Sealed => "sealed",
        Modifier::Static => "static",
        Modifier::Strictfp => "strictfp",
        Modifier::Synchronized => "synchronized",
        Modifier::Transient => "transient",
        Modifier::Volatile => "volatile",
    }
}

/// The words of those of some modifiers that are in a set.
fn words_among(
    alloc: Global,
    set: Modifiers,
    modifiers: &[Modifier],
) -> Result<Sequence<'static>, NoMemory>
    ensures { IfOk result (λ words. values_of words ≡ words_among set modifiers.now) }
{
    let mut words = Sequence::new(alloc);
    for modifier in modifiers {
        if set.contains(*modifier) {
            words.push(Item::Borrowed(word_of(*modifier)))?;
        }
    }
    Ok(words)
}

/// The words of a set of modifiers, in byte order.
fn words_of(alloc: Global, set: Modifiers) -> Result<Sequence<'static>, NoMemory>
    ensures { IfOk result (λ words. values_of words ≡ words_of set) }
{
    words_among(alloc, set, &ALL_MODIFIERS)
}

/// The words of the context node's modifiers in byte order, the effective ones or those that are written. A node without a ModifierList has none, and so
/// has no node.
pub fn modifiers_at<A: Attributes>(
    alloc: Global,
    tree: &SyntaxTree<'_>,
    facts: &A,
    at: Option<Node>,
    effective: bool,
) -> Result<Sequence<'static>, NoMemory>
    requires inside { ForSome at (λ n. n.0 < length tree.now.nodes) }
    requires of_tree { A.nodes facts.now ≡ length tree.now.nodes }
    ensures { IfOk result (λ words. values_of words ≡ modifiers_at (λ n. A.modifiers_of facts.now n effective) tree.now at) }
{
    match at {
        Some(n) => {
            if has_child(tree, n, Kind::ModifierList) {
                words_of(alloc, facts.modifiers(n, effective))
            } else {
                Ok(Sequence::new(alloc))
            }
        }
        None => Ok(Sequence::new(alloc)),
    }
}
