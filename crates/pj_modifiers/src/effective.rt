//! Modifiers that hold by the rules of Java, beside those that are written.

ghost use Rattle.std.specs.Prelude.{◌≡◌, ◌<◌, length};
ghost use Rattle.pj_modifiers.specs.Implied.{is_public_member, is_abstract_member, is_top_level, is_top_level_class, is_implied_static, is_implied_final, is_in_resource, field_implied, method_implied, class_implied, constant_implied, component_implied, constructor_implied, local_implied, catch_implied, implied_by, is_implied, is_effective_at, is_effective};

use crate::explicit::{bearer_of, is_explicit_at};
use crate::interface::{has_constant_body, in_enum, in_interface, is_interface, is_static_class};
use pj_symbols::{Nesting, nesting_of};
use pj_tree::{Kind, Node, SyntaxTree, has_child, is_kind};
use pj_xvalue::Modifier;

/// Whether a member is public since it stands in an interface (JLS 9.3, 9.4, 9.5).
fn is_public_member(tree: &SyntaxTree<'_>, n: Node) -> bool
    requires inside { n.0 < length tree.now.nodes }
    ensures { result ≡ is_public_member tree.now n }
{
    in_interface(tree, n) && !is_explicit_at(tree, n, Modifier::Private)
}

/// The modifiers that a field has without their being written (JLS 9.3).
fn field_implied(tree: &SyntaxTree<'_>, n: Node, modifier: Modifier) -> bool
    requires inside { n.0 < length tree.now.nodes }
    ensures { result ≡ field_implied tree.now n modifier }
{
    match modifier {
        Modifier::Public => is_public_member(tree, n),
        Modifier::Static => in_interface(tree, n),
        Modifier::Final => in_interface(tree, n),
        _ => false,
    }
}

/// Whether a method is abstract since it stands in an interface without a body (JLS 9.4).
fn is_abstract_member(tree: &SyntaxTree<'_>, n: Node) -> bool
    requires inside { n.0 < length tree.now.nodes }
    ensures { result ≡ is_abstract_member tree.now n }
{
    in_interface(tree, n)
        && !has_child(tree, n, Kind::Block)
        && !is_explicit_at(tree, n, Modifier::Static)
        && !is_explicit_at(tree, n, Modifier::Default)
        && !is_explicit_at(tree, n, Modifier::Private)
}

/// The modifiers that a method has without their being written (JLS 9.4).
fn method_implied(tree: &SyntaxTree<'_>, n: Node, modifier: Modifier) -> bool
    requires inside { n.0 < length tree.now.nodes }
    ensures { result ≡ method_implied tree.now n modifier }
{
    match modifier {
        Modifier::Public => is_public_member(tree, n),
        Modifier::Abstract => is_abstract_member(tree, n),
        _ => false,
    }
}

/// Whether a class with this nesting stands in no other one.
fn is_top_level_class(nesting: Nesting) -> bool
    ensures { result ≡ is_top_level_class nesting }
{
    match nesting {
        Nesting::TopLevel => true,
        _ => false,
    }
}

/// Whether the class is a top level class.
fn is_top_level(tree: &SyntaxTree<'_>, n: Node) -> bool
    requires inside { n.0 < length tree.now.nodes }
    ensures { result ≡ is_top_level tree.now n }
{
    is_top_level_class(nesting_of(tree, n))
}

/// Whether a class is static without its being written (JLS 8.5.1, 8.9, 8.10, 9.5).
fn is_implied_static(tree: &SyntaxTree<'_>, n: Node) -> bool
    requires inside { n.0 < length tree.now.nodes }
    ensures { result ≡ is_implied_static tree.now n }
{
    in_interface(tree, n) || (is_static_class(tree, n) && !is_top_level(tree, n))
}

/// Whether a class is final without its being written (JLS 8.9, 8.10).
fn is_implied_final(tree: &SyntaxTree<'_>, n: Node) -> bool
    requires inside { n.0 < length tree.now.nodes }
    ensures { result ≡ is_implied_final tree.now n }
{
    is_kind(tree, Kind::RecordDeclaration, n)
        || (is_kind(tree, Kind::EnumDeclaration, n) && !has_constant_body(tree, n))
}

/// The modifiers that a class or interface has without their being written.
fn class_implied(tree: &SyntaxTree<'_>, n: Node, modifier: Modifier) -> bool
    requires inside { n.0 < length tree.now.nodes }
    ensures { result ≡ class_implied tree.now n modifier }
{
    match modifier {
        Modifier::Public => is_public_member(tree, n),
        Modifier::Static => is_implied_static(tree, n),
        Modifier::Final => is_implied_final(tree, n),
        Modifier::Abstract => is_interface(tree, n),
        _ => false,
    }
}

/// The modifiers of an enum constant (JLS 8.9.3).
fn constant_implied(modifier: Modifier) -> bool
    ensures { result ≡ constant_implied modifier }
{
    match modifier {
        Modifier::Public | Modifier::Static | Modifier::Final => true,
        _ => false,
    }
}

/// The modifiers of the field of a record component (JLS 8.10.3).
fn component_implied(modifier: Modifier) -> bool
    ensures { result ≡ component_implied modifier }
{
    match modifier {
        Modifier::Private | Modifier::Final => true,
        _ => false,
    }
}

/// The modifiers that a constructor has without their being written (JLS 8.9.2).
fn constructor_implied(tree: &SyntaxTree<'_>, n: Node, modifier: Modifier) -> bool
    requires inside { n.0 < length tree.now.nodes }
    ensures { result ≡ constructor_implied tree.now n modifier }
{
    match modifier {
        Modifier::Private => in_enum(tree, n),
        _ => false,
    }
}

/// Whether the variable is that of a resource (JLS 14.20.3).
fn is_in_resource(tree: &SyntaxTree<'_>, n: Node) -> bool
    requires inside { n.0 < length tree.now.nodes }
    ensures { result ≡ is_in_resource tree.now n }
{
    match tree.parent(n) {
        Some(above) => is_kind(tree, Kind::Resource, above),
        None => false,
    }
}

/// The modifiers that a local variable has without their being written (JLS 14.20.3).
fn local_implied(tree: &SyntaxTree<'_>, n: Node, modifier: Modifier) -> bool
    requires inside { n.0 < length tree.now.nodes }
    ensures { result ≡ local_implied tree.now n modifier }
{
    match modifier {
        Modifier::Final => is_in_resource(tree, n),
        _ => false,
    }
}

/// The modifiers that the parameter of a `catch` has without their being written (JLS 14.20).
fn catch_implied(tree: &SyntaxTree<'_>, n: Node, modifier: Modifier) -> bool
    requires inside { n.0 < length tree.now.nodes }
    ensures { result ≡ catch_implied tree.now n modifier }
{
    match modifier {
        Modifier::Final => has_child(tree, n, Kind::UnionType),
        _ => false,
    }
}

/// The modifiers that a declaration of this kind has without their being written.
fn implied_by(kind: Kind, tree: &SyntaxTree<'_>, n: Node, modifier: Modifier) -> bool
    requires inside { n.0 < length tree.now.nodes }
    ensures { result ≡ implied_by kind tree.now n modifier }
{
    match kind {
        Kind::FieldDeclaration => field_implied(tree, n, modifier),
        Kind::MethodDeclaration => method_implied(tree, n, modifier),
        Kind::ClassDeclaration
        | Kind::EnumDeclaration
        | Kind::RecordDeclaration
        | Kind::AnnotationTypeDeclaration => class_implied(tree, n, modifier),
        Kind::EnumConstant => constant_implied(modifier),
        Kind::ConstructorDeclaration => constructor_implied(tree, n, modifier),
        Kind::LocalVariableDeclaration => local_implied(tree, n, modifier),
        Kind::CatchParameter => catch_implied(tree, n, modifier),
        Kind::RecordComponent => component_implied(modifier),
        _ => false,
    }
}

/// Whether a modifier holds of the node, written or not.
fn is_effective_at(tree: &SyntaxTree<'_>, n: Node, modifier: Modifier) -> bool
    requires inside { n.0 < length tree.now.nodes }
    ensures { result ≡ is_effective_at tree.now n modifier }
{
    is_explicit_at(tree, n, modifier) || implied_by(tree.kind(n), tree, n, modifier)
}

/// Whether the modifier is written at the node, or holds there by the rules of Java. The name of a variable has the
/// modifiers of its declaration.
pub fn is_effective(tree: &SyntaxTree<'_>, n: Node, modifier: Modifier) -> bool
    requires inside { n.0 < length tree.now.nodes }
    ensures { result ≡ is_effective tree.now n modifier }
{
    match bearer_of(tree, n) {
        Some(bearer) => is_effective_at(tree, bearer, modifier),
        None => false,
    }
}
