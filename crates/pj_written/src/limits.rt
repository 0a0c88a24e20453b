//! Which written types are past the bounds of signatures.

ghost use Rattle.std.specs.Prelude.{◌≡◌, ◌<◌, ◌≤◌, length};
ghost use Rattle.std.specs.List.{list_all};
ghost use Rattle.pj_written.specs.Fits.{argument_by, bare, brackets, fits, fits_within, inner_brackets, listed_fit};
ghost use Rattle.pj_tree.specs.Tree.{children_of};

use crate::nodes::{bracket_count, last_child, without_brackets};
use pj_tree::{Kind, Node, SyntaxTree, child_count, child_of, has_word, is_kind};

/// The most signs that are open at one place of a signature, and the most arguments in one list (JVMS 4.7.9.1 has no bound;
/// the readers of signatures have these).
pub const MOST_SIGNS: u32 = 255;

/// Of an array type the brackets directly below it.
fn inner_brackets(tree: &SyntaxTree<'_>, n: Node) -> u32
    requires inside { n.0 < length tree.now.nodes }
    ensures value { result ≡ length (inner_brackets tree.now n) }
    ensures few { result ≤ 2000000 }
{
    if is_kind(tree, Kind::ArrayType, n) {
        bracket_count(tree, n)
    } else {
        0
    }
}

/// Of an array type the pairs of brackets in all.
pub fn brackets(tree: &SyntaxTree<'_>, n: Node) -> u32
    requires inside { n.0 < length tree.now.nodes }
    ensures value { result ≡ brackets tree.now n }
    ensures few { result ≤ 4000000 }
{
    if !is_kind(tree, Kind::ArrayType, n) {
        return 0;
    }
    bracket_count(tree, n) + inner_brackets(tree, without_brackets(tree, n))
}

/// What stands before all brackets of a type.
pub fn bare(tree: &SyntaxTree<'_>, n: Node) -> Node
    requires inside { n.0 < length tree.now.nodes }
    ensures value { result ≡ bare tree.now n }
    ensures inside { result.0 < length tree.now.nodes }
{
    without_brackets(tree, without_brackets(tree, n))
}

/// Whether a type fits where so many signs are open around it, and at most so many lists of arguments stand in one another.
#[cycle(fitting)]
#[tactic(auto, using(crate::specs::Fits::most_signs_is))]
fn fits_within(tree: &SyntaxTree<'_>, deep: u32, around: u32, n: Node) -> bool
    requires inside { n.0 < length tree.now.nodes }
    requires few { around ≤ 2000000 }
    ensures { result ≡ fits_within tree.now deep around n }
{
    if deep == 0 {
        return false;
    }
    let open = around + brackets(tree, n);
    if open > MOST_SIGNS {
        return false;
    }
    match child_of(tree, bare(tree, n), Kind::TypeArguments) {
        Some(list) => listed_fit(tree, deep - 1, open + 1, list),
        None => true,
    }
}

/// Whether a list with so many signs open inside it fits: it has no arguments, or the signs and the arguments are few, and each fits.
#[cycle(fitting)]
#[tactic(auto, using(crate::specs::Fits::most_signs_is))]
fn listed_fit(tree: &SyntaxTree<'_>, deep: u32, around: u32, list: Node) -> bool
    requires inside { list.0 < length tree.now.nodes }
    requires few { around ≤ 2000000 }
    ensures { result ≡ listed_fit tree.now around (argument_by tree.now (fits_within tree.now deep around)) (children_of tree.now list) }
{
    let count = child_count(tree, list);
    (count == 0 || around <= MOST_SIGNS)
        && (count <= MOST_SIGNS && arguments_fit(tree, deep, around, list))
}

/// Whether each argument of a list fits.
#[cycle(fitting)]
fn arguments_fit(tree: &SyntaxTree<'_>, deep: u32, around: u32, list: Node) -> bool
    requires inside { list.0 < length tree.now.nodes }
    requires few { around ≤ 2000000 }
    ensures { result ≡ list_all (argument_by tree.now (fits_within tree.now deep around)) (children_of tree.now list) }
{
    for argument in tree.children(list) {
        if !argument_fits(tree, deep, around, argument) {
            return false;
        }
    }
    true
}

/// Whether what a type argument stands for fits.
#[cycle(fitting)]
fn argument_fits(tree: &SyntaxTree<'_>, deep: u32, around: u32, n: Node) -> bool
    requires inside { n.0 < length tree.now.nodes }
    requires few { around ≤ 2000000 }
    ensures { result ≡ argument_by tree.now (fits_within tree.now deep around) n }
{
    if !is_kind(tree, Kind::WildcardType, n) {
        return fits_within(tree, deep, around, n);
    }
    if !has_word(tree, n, "extends") {
        return true;
    }
    match last_child(tree, n) {
        Some(bound) => fits_within(tree, deep, around, bound),
        None => true,
    }
}

/// Whether a type fits where so many signs are open around it. Its calls go as deep as lists of arguments that may stand in one another.
pub fn fits(tree: &SyntaxTree<'_>, around: u32, n: Node) -> bool
    requires inside { n.0 < length tree.now.nodes }
    requires few { around ≤ 2000000 }
    ensures { result ≡ fits tree.now around n }
{
    fits_within(tree, MOST_SIGNS + 1, around, n)
}
