//! Operators.

ghost use Rattle.std.specs.Prelude.{◌≡◌, ◌<◌, ◌≤◌, [], length, filter};
ghost use Rattle.std.specs.Option.{option_copied, option_map};
ghost use Rattle.pj_tree.specs.Words.{last_of};
ghost use Rattle.pj_properties.specs.Texts.{is_sign, shift_of, operator_of};
ghost use Rattle.pj_properties.specs.Flags.{begins_with, is_prefix, is_compound};

use pj_tree::{Node, OwnTokens, SyntaxTree};

/// Whether a word is no parenthesis.
fn is_sign(word: &str) -> bool
    ensures { result ≡ is_sign word.now }
{
    !(word == "(" || word == ")")
}

/// How many of the words are no parentheses.
fn sign_count(words: OwnTokens<'_>) -> u32
    requires few { length words ≤ 4294967294 }
    ensures { result ≡ length (filter is_sign words.entry) }
{
    let mut count = 0;
    for word in words {
        if is_sign(word) {
            count += 1;
        }
    }
    count
}

/// The last of the words that is no parenthesis, and the empty text where there is none.
fn last_sign<'t>(words: OwnTokens<'t>) -> &'t str
    ensures { result.now ≡ last_of [] (filter is_sign words.entry) }
{
    let mut last = "";
    for word in words {
        if is_sign(word) {
            last = word;
        }
    }
    last
}

/// The operator that begins with `>` and is that many tokens.
fn shift_of(count: u32, assigns: bool) -> Option<&'static str>
    ensures { option_copied result ≡ shift_of count assigns }
{
    if count == 2 {
        Some(if assigns { ">=" } else { ">>" })
    } else if count == 3 {
        Some(if assigns { ">>=" } else { ">>>" })
    } else if count == 4 {
        Some(">>>=")
    } else {
        None
    }
}

/// The operator of the expression that the node is: the text of its tokens, joined.
pub fn operator_of<'t>(tree: &'t SyntaxTree<'_>, n: Node) -> Option<&'t str>
    requires inside { n.0 < length tree.now.nodes }
    ensures { option_copied result ≡ operator_of tree.now n }
{
    let count = sign_count(tree.own(n));
    let last = last_sign(tree.own(n));
    if count == 1 {
        Some(last)
    } else {
        shift_of(count, last == "=")
    }
}

/// Whether the operator stands before its operand.
pub fn is_prefix(tree: &SyntaxTree<'_>, n: Node) -> bool
    requires inside { n.0 < length tree.now.nodes }
    ensures { result ≡ is_prefix tree.now n }
{
    match operator_of(tree, n) {
        Some(operator) => begins_with(operator, tree.text(n)),
        None => false,
    }
}

/// Whether an operator begins with a text.
fn begins_with(operator: &str, text: &str) -> bool
    ensures { result ≡ begins_with operator.now text.now }
{
    text.as_bytes().starts_with(operator.as_bytes())
}

/// Whether the operator of an assignment is more than `=`.
pub fn is_compound(tree: &SyntaxTree<'_>, n: Node) -> bool
    requires inside { n.0 < length tree.now.nodes }
    ensures { result ≡ is_compound tree.now n }
{
    match operator_of(tree, n) {
        Some(operator) => operator != "=",
        None => false,
    }
}
