//! Imports of one name (JLS 7.5.1, 7.5.3).

ghost use Rattle.std.specs.Prelude.{◌≡◌, ◌++◌, ◌<◌, length, IfOk, OnOk};
ghost use Rattle.std.specs.Option.{option_copied};
ghost use Rattle.pj_declared.specs.Imports.{imported_name, is_single, import_scope, imports_at, imports_of};

use crate::gather::put_named;
use crate::named::Named;
use crate::scope::{Scope, one_scope, scope_of_all};
use pj_base::NoMemory;
use pj_tree::{Kind, Node, SyntaxTree, has_word};
use std::alloc::Global;

/// What is imported by an import of one name.
#[derive(Clone, Copy, Debug, PartialEq, Eq)]
pub enum ImportSort {
    /// A class or interface (JLS 7.5.1).
    OfType,
    /// Static members of a class or interface, by `static` (JLS 7.5.3).
    Static,
}

/// The simple name that the import imports: the last word before its `;`.
pub fn imported_name<'t>(tree: &'t SyntaxTree<'_>, n: Node) -> Option<&'t str>
    requires inside { n.0 < length tree.now.nodes }
    ensures { option_copied result ≡ imported_name tree.now n }
{
    let mut last = None;
    for word in tree.own(n) {
        if word != ";" {
            last = Some(word);
        }
    }
    last
}

/// Whether the import is one of a single name, of the sort.
pub fn is_single(tree: &SyntaxTree<'_>, sort: ImportSort, n: Node) -> bool
    requires inside { n.0 < length tree.now.nodes }
    ensures { result ≡ is_single tree.now sort n }
{
    if has_word(tree, n, "*") {
        return false;
    }
    match sort {
        ImportSort::OfType => !has_word(tree, n, "static"),
        ImportSort::Static => has_word(tree, n, "static"),
    }
}

/// The scope of what the import imports: the whole file.
fn import_scope(tree: &SyntaxTree<'_>, n: Node) -> Option<Scope>
    requires inside { n.0 < length tree.now.nodes }
    ensures { result ≡ import_scope tree.now n }
{
    let file = tree.parent(n)?;
    Some(scope_of_all(n, file))
}

/// Puts the name at the end that the node imports, if it is an import of one name, of the sort.
fn put_import(
    alloc: Global,
    rows: &mut Vec<Named>,
    tree: &SyntaxTree<'_>,
    sort: ImportSort,
    n: Node,
) -> Result<(), NoMemory>
    requires inside { n.0 < length tree.now.nodes }
    ensures { OnOk result (rows.new.items ≡ rows.old.items ++ imports_at tree.now sort n) }
{
    match tree.kind(n) {
        Kind::ImportDeclaration => {
            if !is_single(tree, sort, n) {
                return Ok(());
            }
            let scopes = one_scope(import_scope(tree, n));
            put_named(alloc, rows, imported_name(tree, n), scopes)
        }
        _ => Ok(()),
    }
}

/// The imports of one name of the file, of the sort.
pub fn imports_of(
    alloc: Global,
    tree: &SyntaxTree<'_>,
    sort: ImportSort,
) -> Result<Vec<Named>, NoMemory>
    ensures { IfOk result (λ rows. rows.items ≡ imports_of tree.now sort) }
{
    let mut rows = Vec::new(alloc);
    for n in 0..tree.len() {
        put_import(alloc, &mut rows, tree, sort, Node(n))?;
    }
    Ok(rows)
}
