//! Names of nodes.

ghost use Rattle.std.specs.Prelude.{◌≡◌, ◌<◌, [], length};
ghost use Rattle.std.specs.Option.{option_copied};
ghost use Rattle.pj_parse.specs.PoolText.{IsPoolOf};
ghost use Rattle.pj_tree.specs.Words.{words_of};
ghost use Rattle.pj_properties.specs.Texts.{last_name, imported_simple_name, before_last_dot, imported_package, is_on_demand, variable_name, type_name, pair_name, second_of_three};

use pj_parse::Pool;
use pj_tree::{Kind, Node, OwnTokens, SyntaxTree, child_of, first_word, has_word, last_word};

/// Whether an import is one on demand (JLS 7.5.2, 7.5.4).
fn is_on_demand(tree: &SyntaxTree<'_>, n: Node) -> bool
    requires inside { n.0 < length tree.now.nodes }
    ensures { result ≡ is_on_demand tree.now n }
{
    has_word(tree, n, "*")
}

/// The last of the words that is no semicolon.
fn last_name<'t>(words: OwnTokens<'t>) -> &'t str
    ensures { result.now ≡ last_name [] words.entry }
{
    let mut last = "";
    for word in words {
        if word != ";" {
            last = word;
        }
    }
    last
}

/// The name that an import brings into scope; one on demand names none.
pub fn imported_simple_name<'t>(tree: &'t SyntaxTree<'_>, n: Node) -> Option<&'t str>
    requires inside { n.0 < length tree.now.nodes }
    ensures { option_copied result ≡ imported_simple_name tree.now n }
{
    if is_on_demand(tree, n) {
        None
    } else {
        Some(last_name(tree.own(n)))
    }
}

/// The text before the last dot, or no text where there is no dot.
fn before_last_dot<'t>(text: &'t str) -> &'t str
    ensures { result.now ≡ before_last_dot text.now }
{
    match text.rsplit_once('.') {
        Some((front, _)) => front,
        None => "",
    }
}

/// The name before the last one that is imported, or the whole name of an import on demand.
pub fn imported_package<'t>(tree: &'t SyntaxTree<'_>, pool: &'t Pool, n: Node) -> Option<&'t str>
    requires inside { n.0 < length tree.now.nodes }
    requires pool { IsPoolOf tree.now pool.now }
    ensures { option_copied result ≡ imported_package tree.now n }
{
    match pool.text(n) {
        None => None,
        Some(text) => {
            if is_on_demand(tree, n) {
                Some(text)
            } else {
                Some(before_last_dot(text))
            }
        }
    }
}

/// The name of the variable that is declared.
pub fn variable_name<'t>(tree: &'t SyntaxTree<'_>, n: Node) -> Option<&'t str>
    requires inside { n.0 < length tree.now.nodes }
    ensures { option_copied result ≡ variable_name tree.now n }
{
    match child_of(tree, n, Kind::VariableId) {
        Some(child) => Some(first_word(tree, child)),
        None => None,
    }
}

/// The last name of the class type that a node has.
pub fn type_name<'t>(tree: &'t SyntaxTree<'_>, n: Node) -> Option<&'t str>
    requires inside { n.0 < length tree.now.nodes }
    ensures { option_copied result ≡ type_name tree.now n }
{
    match child_of(tree, n, Kind::ClassType) {
        Some(child) => Some(last_word(tree, child)),
        None => None,
    }
}

/// The name of a member of an annotation, which is `value` where only the value is written (JLS 9.7.3).
pub fn pair_name<'t>(tree: &'t SyntaxTree<'_>, n: Node) -> &'t str
    requires inside { n.0 < length tree.now.nodes }
    ensures { result.now ≡ pair_name tree.now n }
{
    if has_word(tree, n, "=") {
        first_word(tree, n)
    } else {
        "value"
    }
}

/// The second of three words or more.
fn second_of_three<'t>(words: OwnTokens<'t>) -> Option<&'t str>
    ensures { option_copied result ≡ second_of_three words.entry }
{
    let mut words = words;
    let _ = words.next()?;
    let second = words.next()?;
    let _ = words.next()?;
    Some(second)
}

/// The label of a `break` or `continue`, where there is one.
pub fn jump_label<'t>(tree: &'t SyntaxTree<'_>, n: Node) -> Option<&'t str>
    requires inside { n.0 < length tree.now.nodes }
    ensures { option_copied result ≡ second_of_three (words_of tree.now n) }
{
    second_of_three(tree.own(n))
}
