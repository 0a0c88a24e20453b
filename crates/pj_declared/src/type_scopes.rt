//! The scopes of classes and type parameters (JLS 6.3).

ghost use Rattle.std.specs.Prelude.{◌≡◌, ◌<◌, length};
ghost use Rattle.pj_declared.specs.TypeScopes.{type_parameter_scope, top_level_scope, local_class_scope, declared_scopes, own_scopes};

use crate::bodies::member_scopes;
use crate::scope::{Scope, Scopes, no_scopes, one_scope, scope_from, scope_of_all};
use pj_symbols::{Nesting, class_around, nesting_of};
use pj_tree::{Node, SyntaxTree};

/// The scope of a type parameter: the declaration that has it, but its modifiers (JLS 8.1.2, 8.4.4).
pub fn type_parameter_scope(tree: &SyntaxTree<'_>, parameter: Node) -> Option<Scope>
    requires inside { parameter.0 < length tree.now.nodes }
    ensures { result ≡ type_parameter_scope tree.now parameter }
{
    let parameters = tree.parent(parameter)?;
    let declaration = tree.parent(parameters)?;
    Some(scope_from(parameter, parameters.0, declaration))
}

/// The scope of a class of the file: the whole file (JLS 7.6).
fn top_level_scope(tree: &SyntaxTree<'_>, class: Node) -> Option<Scope>
    requires inside { class.0 < length tree.now.nodes }
    ensures { result ≡ top_level_scope tree.now class }
{
    let file = tree.parent(class)?;
    Some(scope_of_all(class, file))
}

/// The scope of a local class: its own declaration, and the rest of the block that has its statement (JLS 14.3).
fn local_class_scope(tree: &SyntaxTree<'_>, class: Node) -> Option<Scope>
    requires inside { class.0 < length tree.now.nodes }
    ensures { result ≡ local_class_scope tree.now class }
{
    let _nodes = tree.len();
    let statement = tree.parent(class)?;
    let block = tree.parent(statement)?;
    Some(scope_from(class, class.0 + 1, block))
}

/// The scopes of a class where it is declared.
pub fn declared_scopes(tree: &SyntaxTree<'_>, class: Node) -> Scopes
    requires inside { class.0 < length tree.now.nodes }
    ensures { result ≡ declared_scopes tree.now class }
{
    match nesting_of(tree, class) {
        Nesting::TopLevel => one_scope(top_level_scope(tree, class)),
        Nesting::Local => one_scope(local_class_scope(tree, class)),
        Nesting::Nested => match class_around(tree, class) {
            Some(owner) => member_scopes(tree, class, owner),
            None => no_scopes(),
        },
        Nesting::Anonymous => no_scopes(),
    }
}

/// The scopes of a class within itself: as of its members.
pub fn own_scopes(tree: &SyntaxTree<'_>, class: Node) -> Scopes
    requires inside { class.0 < length tree.now.nodes }
    ensures { result ≡ own_scopes tree.now class }
{
    member_scopes(tree, class, class)
}
