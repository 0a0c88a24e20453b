//! Interfaces, and the members of interfaces.

ghost use Rattle.std.specs.Prelude.{◌≡◌, ◌<◌, length, IfSome};
ghost use Rattle.pj_modifiers.specs.Implied.{is_interface, class_above, in_interface, in_enum, is_static_class, has_constant_body, is_constant_body, constant_body_among};

use pj_tree::{Kind, Node, SyntaxTree, child_of, has_child, has_word, is_kind};

/// Whether the node declares an interface, an annotation interface included (JLS 9.1, 9.6).
pub fn is_interface(tree: &SyntaxTree<'_>, n: Node) -> bool
    requires inside { n.0 < length tree.now.nodes }
    ensures { result ≡ is_interface tree.now n }
{
    is_kind(tree, Kind::AnnotationTypeDeclaration, n)
        || (is_kind(tree, Kind::ClassDeclaration, n) && has_word(tree, n, "interface"))
}

/// The declaration of the class of which the node is a member: the node above the body that it stands in.
fn class_above(tree: &SyntaxTree<'_>, n: Node) -> Option<Node>
    requires inside { n.0 < length tree.now.nodes }
    ensures value { result ≡ class_above tree.now n }
    ensures inside { IfSome result (λ class. class.0 < length tree.now.nodes) }
{
    let body = tree.parent(n)?;
    tree.parent(body)
}

/// Whether the node is a member of an interface.
pub fn in_interface(tree: &SyntaxTree<'_>, n: Node) -> bool
    requires inside { n.0 < length tree.now.nodes }
    ensures { result ≡ in_interface tree.now n }
{
    match class_above(tree, n) {
        Some(class) => is_interface(tree, class),
        None => false,
    }
}

/// Whether the node stands in the body of an enum class.
pub fn in_enum(tree: &SyntaxTree<'_>, n: Node) -> bool
    requires inside { n.0 < length tree.now.nodes }
    ensures { result ≡ in_enum tree.now n }
{
    match tree.parent(n) {
        Some(body) => is_kind(tree, Kind::EnumBody, body),
        None => false,
    }
}

/// Whether the node declares an enum class, a record class or an interface.
pub fn is_static_class(tree: &SyntaxTree<'_>, n: Node) -> bool
    requires inside { n.0 < length tree.now.nodes }
    ensures { result ≡ is_static_class tree.now n }
{
    is_kind(tree, Kind::EnumDeclaration, n)
        || is_kind(tree, Kind::RecordDeclaration, n)
        || is_interface(tree, n)
}

/// Whether the node is an enum constant with a class body.
fn is_constant_body(tree: &SyntaxTree<'_>, n: Node) -> bool
    requires inside { n.0 < length tree.now.nodes }
    ensures { result ≡ is_constant_body tree.now n }
{
    is_kind(tree, Kind::EnumConstant, n) && has_child(tree, n, Kind::AnonymousClassDeclaration)
}

/// Whether a constant of the enum class that the node declares has a class body.
pub fn has_constant_body(tree: &SyntaxTree<'_>, n: Node) -> bool
    requires inside { n.0 < length tree.now.nodes }
    ensures { result ≡ has_constant_body tree.now n }
{
    match child_of(tree, n, Kind::EnumBody) {
        Some(body) => constant_body_among(tree, body),
        None => false,
    }
}

/// Whether an enum constant in the body of an enum has a class body.
fn constant_body_among(tree: &SyntaxTree<'_>, body: Node) -> bool
    requires inside { body.0 < length tree.now.nodes }
    ensures { result ≡ constant_body_among tree.now body }
{
    for constant in tree.children(body) {
        if is_constant_body(tree, constant) {
            return true;
        }
    }
    false
}
