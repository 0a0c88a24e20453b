//! The names that a file declares, with their scopes, in the order of the nodes.

ghost use Rattle.std.specs.Prelude.{◌≡◌, ◌++◌, ◌<◌, length, IfOk, OnOk};
ghost use Rattle.std.specs.Option.{option_copied};
ghost use Rattle.pj_declared.specs.Rows.{in_scope, named, variables_at, type_parameters_at, classes_at, types_at, variables_of, types_of};

use crate::named::{Named, name_first, name_last};
use crate::scope::{Scope, Scopes, one_scope};
use crate::type_scopes::{declared_scopes, own_scopes, type_parameter_scope};
use crate::variable_scopes::variable_scopes;
use pj_base::{NoMemory, Text};
use pj_symbols::is_class;
use pj_tree::{Kind, Node, SyntaxTree};
use std::alloc::Global;

/// Puts the name with the scope at the end, if there is one.
fn put_scope(
    alloc: Global,
    rows: &mut Vec<Named>,
    name: &str,
    scope: Option<Scope>,
) -> Result<(), NoMemory>
    ensures { OnOk result (rows.new.items ≡ rows.old.items ++ in_scope name.now scope) }
{
    if let Some(scope) = scope {
        let name = Text::from_str(alloc, name)?;
        rows.push(Named { name, scope })?;
    }
    Ok(())
}

/// Puts the name with its scopes at the end, if there is a name.
pub fn put_named(
    alloc: Global,
    rows: &mut Vec<Named>,
    name: Option<&str>,
    scopes: Scopes,
) -> Result<(), NoMemory>
    ensures { OnOk result (rows.new.items ≡ rows.old.items ++ named (option_copied name.entry) scopes) }
{
    if let Some(name) = name {
        put_scope(alloc, rows, name, scopes.first)?;
        put_scope(alloc, rows, name, scopes.second)?;
    }
    Ok(())
}

/// Puts the variable at the end whose name the node is, if it is one.
fn put_variable(
    alloc: Global,
    rows: &mut Vec<Named>,
    tree: &SyntaxTree<'_>,
    n: Node,
) -> Result<(), NoMemory>
    requires inside { n.0 < length tree.now.nodes }
    ensures { OnOk result (rows.new.items ≡ rows.old.items ++ variables_at tree.now n) }
{
    match tree.kind(n) {
        Kind::VariableId => put_named(alloc, rows, name_first(tree, n), variable_scopes(tree, n)),
        _ => Ok(()),
    }
}

/// Puts the type parameter at the end that the node declares, if it declares one.
fn put_type_parameter(
    alloc: Global,
    rows: &mut Vec<Named>,
    tree: &SyntaxTree<'_>,
    n: Node,
) -> Result<(), NoMemory>
    requires inside { n.0 < length tree.now.nodes }
    ensures { OnOk result (rows.new.items ≡ rows.old.items ++ type_parameters_at tree.now n) }
{
    match tree.kind(n) {
        Kind::TypeParameter => {
            let scopes = one_scope(type_parameter_scope(tree, n));
            put_named(alloc, rows, name_first(tree, n), scopes)
        }
        _ => Ok(()),
    }
}

/// Puts the class at the end that the node declares, if it declares one: with its scopes within itself, and where it is
/// declared.
fn put_class(
    alloc: Global,
    rows: &mut Vec<Named>,
    tree: &SyntaxTree<'_>,
    n: Node,
) -> Result<(), NoMemory>
    requires inside { n.0 < length tree.now.nodes }
    ensures { OnOk result (rows.new.items ≡ rows.old.items ++ classes_at tree.now n) }
{
    if is_class(tree.kind(n)) {
        put_named(alloc, rows, name_last(tree, n), own_scopes(tree, n))?;
        put_named(alloc, rows, name_last(tree, n), declared_scopes(tree, n))?;
    }
    Ok(())
}

/// Puts the type parameter or class at the end that the node declares, if it declares one.
fn put_type(
    alloc: Global,
    rows: &mut Vec<Named>,
    tree: &SyntaxTree<'_>,
    n: Node,
) -> Result<(), NoMemory>
    requires inside { n.0 < length tree.now.nodes }
    ensures { OnOk result (rows.new.items ≡ rows.old.items ++ types_at tree.now n) }
{
    put_type_parameter(alloc, rows, tree, n)?;
    put_class(alloc, rows, tree, n)
}

/// The variables of the file.
pub fn variables_of(alloc: Global, tree: &SyntaxTree<'_>) -> Result<Vec<Named>, NoMemory>
    ensures { IfOk result (λ rows. rows.items ≡ variables_of tree.now) }
{
    let mut rows = Vec::new(alloc);
    for n in 0..tree.len() {
        put_variable(alloc, &mut rows, tree, Node(n))?;
    }
    Ok(rows)
}

/// The classes and type parameters of the file.
pub fn types_of(alloc: Global, tree: &SyntaxTree<'_>) -> Result<Vec<Named>, NoMemory>
    ensures { IfOk result (λ rows. rows.items ≡ types_of tree.now) }
{
    let mut rows = Vec::new(alloc);
    for n in 0..tree.len() {
        put_type(alloc, &mut rows, tree, Node(n))?;
    }
    Ok(rows)
}
