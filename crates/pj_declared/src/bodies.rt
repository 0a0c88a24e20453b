//! Bodies of classes, and the scopes of their members.

ghost use Rattle.std.specs.Prelude.{◌≡◌, ◌<◌, ◌≤◌, length, IfSome};
ghost use Rattle.std.specs.Option.{option_map};
ghost use Rattle.pj_declared.specs.Scope.{scope_from};
ghost use Rattle.pj_declared.specs.Bodies.{body_kind, body_of, member_scopes, is_body, shows_members, class_at};

use crate::scope::{Scope, Scopes, scope_from};
use pj_tree::{Kind, Node, SyntaxTree, child_of};

/// What the body of a class is, by what declares the class (JLS 8.1.7, 8.9.1, 8.10.2, 9.1.5, 9.6.1, 15.9.5).
pub fn body_kind(declaration: Kind) -> Option<Kind>
    ensures { result ≡ body_kind declaration }
{
    match declaration {
        Kind::ClassDeclaration | Kind::AnonymousClassDeclaration => Some(Kind::ClassBody),
        Kind::EnumDeclaration => Some(Kind::EnumBody),
        Kind::RecordDeclaration => Some(Kind::RecordBody),
        Kind::AnnotationTypeDeclaration => Some(Kind::AnnotationTypeBody),
        _ => None,
    }
}

/// The body of the class.
fn body_of(tree: &SyntaxTree<'_>, class: Node) -> Option<Node>
    requires inside { class.0 < length tree.now.nodes }
    ensures { result ≡ body_of tree.now class }
{
    let kind = body_kind(tree.kind(class))?;
    child_of(tree, class, kind)
}

/// The scope of a member, or of the class itself, within a part of the class.
fn within_part(declared: Node, class: Node, part: Option<Node>) -> Option<Scope>
    ensures { result ≡ option_map (scope_from declared class.0) part }
{
    let part = part?;
    Some(scope_from(declared, class.0, part))
}

/// The scopes of a member of the class: its body, and the header of a record (JLS 6.3).
pub fn member_scopes(tree: &SyntaxTree<'_>, declared: Node, class: Node) -> Scopes
    requires inside { class.0 < length tree.now.nodes }
    ensures { result ≡ member_scopes tree.now declared class }
{
    Scopes {
        first: within_part(
            declared,
            class,
            child_of(tree, class, Kind::RecordComponentList),
        ),
        second: within_part(declared, class, body_of(tree, class)),
    }
}

/// Whether a node of the kind is the body of a class.
pub fn is_body(kind: Kind) -> bool
    ensures { result ≡ is_body kind }
{
    match kind {
        Kind::ClassBody | Kind::EnumBody | Kind::RecordBody | Kind::AnnotationTypeBody => true,
        _ => false,
    }
}

/// Whether the members of a class are in scope in a node of the kind below its declaration.
fn shows_members(kind: Kind) -> bool
    ensures { result ≡ shows_members kind }
{
    match kind {
        Kind::RecordComponentList => true,
        _ => is_body(kind),
    }
}

/// The innermost class whose members are in scope at the place: the class in whose body, or record header, it is. It takes
/// a step for each node between.
pub fn class_at(tree: &SyntaxTree<'_>, place: Node) -> Option<Node>
    requires inside { place.0 < length tree.now.nodes }
    ensures value { result ≡ class_at tree.now place }
    ensures before { IfSome result (λ class. class.0 < place.0) }
{
    let _nodes = tree.len();
    let mut at = place;
    loop {
        if shows_members(tree.kind(at)) {
            return tree.parent(at);
        }
        match tree.parent(at) {
            Some(above) => at = above,
            None => return None,
        }
    }
}
