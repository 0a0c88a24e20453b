//! Access flags of a class of the file and of its members (JVMS 4.1, 4.5, 4.6).

ghost use Rattle.std.specs.Prelude.{◌≡◌, ◌<◌, ◌≤◌, false, length};
ghost use Rattle.std.specs.List.{list_any};
ghost use Rattle.pj_tree.specs.Tree.{children_of};
ghost use Rattle.pj_written.specs.Flags.{class_flags, field_flags, flag_if, has_variable_arity, is_ellipsis, is_variable_arity, is_written, last_parameter, member_flags, method_flags, written_flag};

use crate::nodes::{is_interface, type_child};
use pj_tree::{Kind, Node, SyntaxTree, child_of, has_word, is_kind};

/// The flags of an enum constant.
pub const CONSTANT_FLAGS: u16 = 0x4000;

/// Whether a modifier is written in the list of a declaration.
fn is_written(tree: &SyntaxTree<'_>, n: Node, word: &str) -> bool
    requires inside { n.0 < length tree.now.nodes }
    ensures { result ≡ is_written tree.now n word.now }
{
    match child_of(tree, n, Kind::ModifierList) {
        Some(list) => has_word(tree, list, word),
        None => false,
    }
}

/// A flag, where it is set.
fn flag_if(set: bool, flag: u16) -> u16
    ensures value { result ≡ flag_if set flag }
    ensures small { result ≤ flag }
{
    if set { flag } else { 0 }
}

/// A flag, where the word is written.
fn written_flag(tree: &SyntaxTree<'_>, n: Node, word: &str, flag: u16) -> u16
    requires inside { n.0 < length tree.now.nodes }
    ensures value { result ≡ written_flag tree.now n word.now flag }
    ensures small { result ≤ flag }
{
    flag_if(is_written(tree, n, word), flag)
}

/// The flags of a class (JVMS 4.1).
pub fn class_flags(tree: &SyntaxTree<'_>, class: Node) -> u16
    requires inside { class.0 < length tree.now.nodes }
    ensures { result ≡ class_flags tree.now class }
{
    let is_interface = is_interface(tree, class);
    let is_abstract = is_interface || is_written(tree, class, "abstract");
    written_flag(tree, class, "public", 1)
        + (written_flag(tree, class, "final", 16)
            + (flag_if(!is_interface, 32)
                + (flag_if(is_interface, 512)
                    + (flag_if(is_abstract, 1024)
                        + (flag_if(is_kind(tree, Kind::AnnotationTypeDeclaration, class), 8192)
                            + flag_if(is_kind(tree, Kind::EnumDeclaration, class), 16384))))))
}

/// The flags that fields and methods have alike.
fn member_flags(tree: &SyntaxTree<'_>, n: Node) -> u16
    requires inside { n.0 < length tree.now.nodes }
    ensures value { result ≡ member_flags tree.now n }
    ensures small { result ≤ 31 }
{
    written_flag(tree, n, "public", 1)
        + (written_flag(tree, n, "private", 2)
            + (written_flag(tree, n, "protected", 4)
                + (written_flag(tree, n, "static", 8) + written_flag(tree, n, "final", 16))))
}

/// The flags of a field (JVMS 4.5).
pub fn field_flags(tree: &SyntaxTree<'_>, n: Node) -> u16
    requires inside { n.0 < length tree.now.nodes }
    ensures { result ≡ field_flags tree.now n }
{
    member_flags(tree, n)
        + (written_flag(tree, n, "volatile", 64) + written_flag(tree, n, "transient", 128))
}

/// Whether brackets are written as `...`.
fn is_ellipsis(tree: &SyntaxTree<'_>, brackets: Node) -> bool
    requires inside { brackets.0 < length tree.now.nodes }
    ensures { result ≡ is_ellipsis tree.now brackets }
{
    has_word(tree, brackets, "...")
}

/// Whether one of the brackets of a list is written as `...`.
fn has_ellipsis(tree: &SyntaxTree<'_>, list: Node) -> bool
    requires inside { list.0 < length tree.now.nodes }
    ensures { result ≡ list_any (is_ellipsis tree.now) (children_of tree.now list) }
{
    for brackets in tree.children(list) {
        if is_ellipsis(tree, brackets) {
            return true;
        }
    }
    false
}

/// Whether the type of a parameter is written with `...`.
fn is_variable_arity(tree: &SyntaxTree<'_>, parameter: Node) -> bool
    requires inside { parameter.0 < length tree.now.nodes }
    ensures { result ≡ is_variable_arity tree.now parameter }
{
    let Some(ty) = type_child(tree, parameter) else {
        return false;
    };
    match child_of(tree, ty, Kind::ArrayDimensions) {
        Some(list) => has_ellipsis(tree, list),
        None => false,
    }
}

/// Whether the last parameter of a list has variable arity.
fn last_has_variable_arity(tree: &SyntaxTree<'_>, list: Node) -> bool
    requires inside { list.0 < length tree.now.nodes }
    ensures { result ≡ last_parameter tree.now false (children_of tree.now list) }
{
    let mut last = false;
    for parameter in tree.children(list) {
        if is_kind(tree, Kind::FormalParameter, parameter) {
            last = is_variable_arity(tree, parameter);
        }
    }
    last
}

/// Whether the last parameter of a method has variable arity.
fn has_variable_arity(tree: &SyntaxTree<'_>, n: Node) -> bool
    requires inside { n.0 < length tree.now.nodes }
    ensures { result ≡ has_variable_arity tree.now n }
{
    match child_of(tree, n, Kind::FormalParameters) {
        Some(list) => last_has_variable_arity(tree, list),
        None => false,
    }
}

/// The flags of a method or a constructor (JVMS 4.6).
pub fn method_flags(tree: &SyntaxTree<'_>, n: Node) -> u16
    requires inside { n.0 < length tree.now.nodes }
    ensures { result ≡ method_flags tree.now n }
{
    member_flags(tree, n)
        + (written_flag(tree, n, "synchronized", 32)
            + (flag_if(has_variable_arity(tree, n), 128)
                + (written_flag(tree, n, "native", 256) + written_flag(tree, n, "abstract", 1024))))
}
