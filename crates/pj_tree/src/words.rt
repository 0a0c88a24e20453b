//! The words of a node: the texts of its own tokens.

ghost use Rattle.std.specs.Prelude.{◌≡◌, ◌<◌, [], length};
ghost use Rattle.pj_tree.specs.Words.{words_of, first_of, last_of, has};

use crate::{Node, OwnTokens, SyntaxTree};

/// The first word, or no text where there is none.
fn first_of<'t>(words: OwnTokens<'t>) -> &'t str
    ensures { result.now ≡ first_of words.entry }
{
    let mut words = words;
    match words.next() {
        Some(word) => word,
        None => "",
    }
}

/// The first word of the node, and the empty text where it has none.
pub fn first_word<'t>(tree: &'t SyntaxTree<'_>, n: Node) -> &'t str
    requires inside { n.0 < length tree.now.nodes }
    ensures { result.now ≡ first_of (words_of tree.now n) }
{
    first_of(tree.own(n))
}

/// The last word, or no text where there is none.
fn last_of<'t>(words: OwnTokens<'t>) -> &'t str
    ensures { result.now ≡ last_of [] words.entry }
{
    let mut last = "";
    for word in words {
        last = word;
    }
    last
}

/// The last word of the node, and the empty text where it has none.
pub fn last_word<'t>(tree: &'t SyntaxTree<'_>, n: Node) -> &'t str
    requires inside { n.0 < length tree.now.nodes }
    ensures { result.now ≡ last_of [] (words_of tree.now n) }
{
    last_of(tree.own(n))
}

/// Whether a text is among the words.
fn has(words: OwnTokens<'_>, text: &str) -> bool
    ensures { result ≡ has text.now words.entry }
{
    for word in words {
        if word == text {
            return true;
        }
    }
    false
}

/// Whether one of the words of the node is this text.
pub fn has_word(tree: &SyntaxTree<'_>, n: Node, text: &str) -> bool
    requires inside { n.0 < length tree.now.nodes }
    ensures { result ≡ has text.now (words_of tree.now n) }
{
    has(tree.own(n), text)
}
