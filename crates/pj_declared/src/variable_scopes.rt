//! The scopes of variables (JLS 6.3).

ghost use Rattle.std.specs.Prelude.{◌≡◌, ◌<◌, length, IfSome};
ghost use Rattle.std.specs.Option.{option_map};
ghost use Rattle.pj_declared.specs.Behind.{behind};
ghost use Rattle.pj_declared.specs.Scope.{scope_from};
ghost use Rattle.pj_declared.specs.VariableScopes.{above_declaration, around_declaration, field_scopes, block_of, local_scope, for_scope, repeated_scope, foreach_scope, try_block, resource_scopes, parameter_scope, lambda_scope, catch_scope, pattern_scope, binding_scope, variable_scopes};

use crate::behind::behind;
use crate::bindings::binding_end;
use crate::bodies::member_scopes;
use crate::scope::{Scope, Scopes, no_scopes, one_scope, scope_from, scope_of_all};
use pj_symbols::{VariableKind, class_around, declaration_of, variable_kind};
use pj_tree::{Kind, Node, SyntaxTree, child_of, second_child};

/// The node above the declaration of the variable.
fn above_declaration(tree: &SyntaxTree<'_>, id: Node) -> Option<Node>
    requires inside { id.0 < length tree.now.nodes }
    ensures value { result ≡ above_declaration tree.now id }
    ensures before { IfSome result (λ above. above.0 < length tree.now.nodes) }
{
    let declaration = declaration_of(tree, id)?;
    tree.parent(declaration)
}

/// The node above that.
fn around_declaration(tree: &SyntaxTree<'_>, id: Node) -> Option<Node>
    requires inside { id.0 < length tree.now.nodes }
    ensures value { result ≡ around_declaration tree.now id }
    ensures before { IfSome result (λ around. around.0 < length tree.now.nodes) }
{
    let above = above_declaration(tree, id)?;
    tree.parent(above)
}

/// The scopes of a field, an enum constant or a record component: as of a member of the class around.
fn field_scopes(tree: &SyntaxTree<'_>, id: Node) -> Scopes
    requires inside { id.0 < length tree.now.nodes }
    ensures { result ≡ field_scopes tree.now id }
{
    match class_around(tree, id) {
        Some(class) => member_scopes(tree, id, class),
        None => no_scopes(),
    }
}

/// What the local variables of a block, or of a branch of a switch of the old form, have as their block.
fn block_of(tree: &SyntaxTree<'_>, n: Node) -> Option<Node>
    requires inside { n.0 < length tree.now.nodes }
    ensures { result ≡ block_of tree.now n }
{
    match tree.kind(n) {
        Kind::Block => Some(n),
        Kind::SwitchFallthroughBranch => tree.parent(n),
        _ => None,
    }
}

/// The scope of a local variable: the rest of its block (JLS 14.4.2).
fn local_scope(tree: &SyntaxTree<'_>, id: Node) -> Option<Scope>
    requires inside { id.0 < length tree.now.nodes }
    ensures { result ≡ local_scope tree.now id }
{
    let above = above_declaration(tree, id)?;
    let block = block_of(tree, above)?;
    Some(scope_from(id, behind(tree, id), block))
}

/// The scope of a variable of a basic `for`: the rest of the statement (JLS 14.14.1).
fn for_scope(tree: &SyntaxTree<'_>, id: Node) -> Option<Scope>
    requires inside { id.0 < length tree.now.nodes }
    ensures { result ≡ for_scope tree.now id }
{
    let statement = around_declaration(tree, id)?;
    Some(scope_from(id, behind(tree, id), statement))
}

/// The scope of the variable of an enhanced `for` that is this statement.
fn repeated_scope(tree: &SyntaxTree<'_>, id: Node, statement: Node) -> Option<Scope>
    requires inside { statement.0 < length tree.now.nodes }
    ensures { result ≡ repeated_scope tree.now id statement }
{
    let expression = second_child(tree, statement)?;
    Some(scope_from(id, behind(tree, expression), statement))
}

/// The scope of the variable of an enhanced `for`: the statement that it repeats (JLS 14.14.2).
fn foreach_scope(tree: &SyntaxTree<'_>, id: Node) -> Option<Scope>
    requires inside { id.0 < length tree.now.nodes }
    ensures { result ≡ foreach_scope tree.now id }
{
    let statement = above_declaration(tree, id)?;
    repeated_scope(tree, id, statement)
}

/// The block of the `try` with the resources.
fn try_block(tree: &SyntaxTree<'_>, resources: Node) -> Option<Node>
    requires inside { resources.0 < length tree.now.nodes }
    ensures { result ≡ try_block tree.now resources }
{
    let statement = tree.parent(resources)?;
    child_of(tree, statement, Kind::Block)
}

/// The scope of a resource within a part of the `try`.
fn resource_scope(tree: &SyntaxTree<'_>, id: Node, part: Option<Node>) -> Option<Scope>
    requires inside { id.0 < length tree.now.nodes }
    ensures { result ≡ option_map (scope_from id (behind tree.now id)) part }
{
    let part = part?;
    Some(scope_from(id, behind(tree, id), part))
}

/// The scopes of a resource: the rest of the resources, and the block (JLS 14.20.3).
fn resource_scopes(tree: &SyntaxTree<'_>, id: Node) -> Scopes
    requires inside { id.0 < length tree.now.nodes }
    ensures { result ≡ resource_scopes tree.now id }
{
    let resources = around_declaration(tree, id);
    let block = match resources {
        Some(resources) => try_block(tree, resources),
        None => None,
    };
    Scopes {
        first: resource_scope(tree, id, resources),
        second: resource_scope(tree, id, block),
    }
}

/// The scope of a parameter of a method or constructor: its body (JLS 8.4.1).
fn parameter_scope(tree: &SyntaxTree<'_>, id: Node) -> Option<Scope>
    requires inside { id.0 < length tree.now.nodes }
    ensures { result ≡ parameter_scope tree.now id }
{
    let method = around_declaration(tree, id)?;
    let body = child_of(tree, method, Kind::Block)?;
    Some(scope_of_all(id, body))
}

/// The scope of a parameter of a lambda expression: its body (JLS 15.27.2).
fn lambda_scope(tree: &SyntaxTree<'_>, id: Node) -> Option<Scope>
    requires inside { id.0 < length tree.now.nodes }
    ensures { result ≡ lambda_scope tree.now id }
{
    let lambda = around_declaration(tree, id)?;
    let body = second_child(tree, lambda)?;
    Some(scope_of_all(id, body))
}

/// The scope of the parameter of a `catch`: its block (JLS 14.20).
fn catch_scope(tree: &SyntaxTree<'_>, id: Node) -> Option<Scope>
    requires inside { id.0 < length tree.now.nodes }
    ensures { result ≡ catch_scope tree.now id }
{
    let clause = above_declaration(tree, id)?;
    let block = child_of(tree, clause, Kind::Block)?;
    Some(scope_of_all(id, block))
}

/// The scope of the variable of the pattern. It is opened by its name, which ends the pattern: what stands directly behind may be the body of a
/// class, which opens scopes of its own.
fn pattern_scope(tree: &SyntaxTree<'_>, id: Node, pattern: Node) -> Option<Scope>
    requires inside { pattern.0 < length tree.now.nodes }
    ensures { result ≡ pattern_scope tree.now id pattern }
{
    let end = binding_end(tree, pattern)?;
    Some(scope_from(id, id.0, end))
}

/// The scope of a pattern variable (JLS 14.30.1).
fn binding_scope(tree: &SyntaxTree<'_>, id: Node) -> Option<Scope>
    requires inside { id.0 < length tree.now.nodes }
    ensures { result ≡ binding_scope tree.now id }
{
    let pattern = declaration_of(tree, id)?;
    pattern_scope(tree, id, pattern)
}

/// The scopes of the variable whose name the node is.
pub fn variable_scopes(tree: &SyntaxTree<'_>, id: Node) -> Scopes
    requires inside { id.0 < length tree.now.nodes }
    ensures { result ≡ variable_scopes tree.now id }
{
    match variable_kind(tree, id) {
        VariableKind::Field | VariableKind::EnumConstant | VariableKind::RecordComponent => {
            field_scopes(tree, id)
        }
        VariableKind::Resource => resource_scopes(tree, id),
        VariableKind::LocalVariable => one_scope(local_scope(tree, id)),
        VariableKind::ForLoopVariable => one_scope(for_scope(tree, id)),
        VariableKind::ForeachVariable => one_scope(foreach_scope(tree, id)),
        VariableKind::FormalParameter => one_scope(parameter_scope(tree, id)),
        VariableKind::LambdaParameter => one_scope(lambda_scope(tree, id)),
        VariableKind::ExceptionParameter => one_scope(catch_scope(tree, id)),
        VariableKind::PatternBinding => one_scope(binding_scope(tree, id)),
    }
}
