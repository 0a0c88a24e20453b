//! Texts beside each other.
ghost use Rattle.std.specs.Prelude.{◌≡◌, ◌<◌, length, map};
ghost use Rattle.pj_tree.specs.Words.{words_of};
ghost use Rattle.pj_suppress.specs.Words.{contains, same_texts};

use pj_tree::{Node, OwnTokens, SyntaxTree};

/// Whether the words are these texts, in this order and no others.
fn are_texts(words: OwnTokens<'_>, wanted: &[&str]) -> bool
    ensures { result ≡ same_texts words.entry (map (λ word. word.now) wanted.now) }
{
    let mut words = words;
    for word in wanted {
        match words.next() {
            Some(next) if next == *word => {}
            _ => return false,
        }
    }
    words.next().is_none()
}

/// Whether the words of the node are these.
pub fn has_words(tree: &SyntaxTree<'_>, n: Node, wanted: &[&str]) -> bool
    requires inside { n.0 < length tree.now.nodes }
    ensures { result ≡ same_texts (words_of tree.now n) (map (λ word. word.now) wanted.now) }
{
    are_texts(tree.own(n), wanted)
}

/// Whether the text contains the part.
pub fn contains(text: &[u8], part: &[u8]) -> bool
    ensures { result ≡ contains part.now text.now }
{
    let mut rest = text;
    while let [_, behind @ ..] = rest {
        if rest.starts_with(part) {
            return true;
        }
        rest = behind;
    }
    rest.starts_with(part)
}
