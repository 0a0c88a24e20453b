//! Variables by their declarations: the types that are written, and which are declared by `var`.

ghost use Rattle.std.specs.Prelude.{◌≡◌, ◌<◌, false, length, IfSome};
ghost use Rattle.std.specs.Option.{option_and_then, option_map_or};
ghost use Rattle.pj_symbols.specs.Variables.{declaration_of};
ghost use Rattle.pj_names.specs.JavaType.{java_type};
ghost use Rattle.pj_names.specs.Told.{Asks, seen};
ghost use Rattle.pj_tree.specs.Tree.{parent_of, is_descendant};
ghost use Rattle.pj_leaf_types.specs.Variables.{declared_by, first_name, initializer_of, is_in_own_initializer, is_var, is_var_name, statement_of};

use crate::classes::class_or_unknown;
use crate::written::declared_type;
use pj_names::{AskFault, Oracle, Ty};
use pj_outer_names::File;
use pj_symbols::{class_around, declaration_of};
use pj_tree::{Kind, Node, SyntaxTree, child_of, is_kind, second_child};
use pj_written::{bracket_count, type_child};
use std::alloc::Global;

/// Whether a declaration is one by `var` (JLS 14.4.1).
pub fn is_var(tree: &SyntaxTree<'_>, declaration: Node) -> bool
    requires inside { declaration.0 < length tree.now.nodes }
    ensures { result ≡ is_var tree.now declaration }
{
    is_kind(tree, Kind::LocalVariableDeclaration, declaration)
        && type_child(tree, declaration).is_none()
}

/// Whether a name is that of a variable that is declared by `var`.
pub fn is_var_name(tree: &SyntaxTree<'_>, id: Node) -> bool
    requires inside { id.0 < length tree.now.nodes }
    ensures { result ≡ is_var_name tree.now id }
{
    match declaration_of(tree, id) {
        Some(declaration) => is_var(tree, declaration),
        None => false,
    }
}

/// Whether a node stands below another one.
fn is_below(tree: &SyntaxTree<'_>, place: Node, above: Node) -> bool
    requires inside { above.0 < length tree.now.nodes }
    ensures { result ≡ is_descendant tree.now place above }
{
    let end = tree.subtree_end(above);
    above.0 < place.0 && place.0 < end.0
}

/// Whether a place stands below the parent of a name.
fn is_below_parent(tree: &SyntaxTree<'_>, place: Node, id: Node) -> bool
    requires inside { id.0 < length tree.now.nodes }
    ensures { result ≡ option_map_or (is_descendant tree.now place) (parent_of tree.now id) false }
{
    match tree.parent(id) {
        Some(declarator) => is_below(tree, place, declarator),
        None => false,
    }
}

/// Whether a place stands in the initializer of a variable that is declared by `var`.
pub fn is_in_own_initializer(tree: &SyntaxTree<'_>, place: Node, id: Node) -> bool
    requires inside { id.0 < length tree.now.nodes }
    ensures { result ≡ is_in_own_initializer tree.now place id }
{
    is_var_name(tree, id) && is_below_parent(tree, place, id)
}

/// The type that a declaration writes for a name. An enum constant has the enum.
#[tactic(auto, using(pj_names::proofs::AskingLaws::asking_steps))]
pub fn declared_by<O: Oracle>(
    alloc: Global,
    file: &File<'_>,
    oracle: &mut O,
    id: Node,
    declaration: Node,
) -> Result<Ty, AskFault>
    requires id { id.0 < length file.now.nodes }
    requires declaration { declaration.0 < length file.now.nodes }
    ensures { Asks (declared_by file.now id declaration) (O.tells oracle.old) (O.tells oracle.new) (seen java_type result) }
{
    if is_kind(file.tree(), Kind::EnumConstant, declaration) {
        let ty = class_or_unknown(alloc, file, class_around(file.tree(), declaration))?;
        return Ok(ty);
    }
    let behind = bracket_count(file.tree(), id);
    declared_type(alloc, file, oracle, behind, declaration)
}

/// The initializer of a variable (JLS 8.3, 14.4): only a declarator has one, and no parameter or constant of an enum.
pub fn initializer_of(tree: &SyntaxTree<'_>, id: Node) -> Option<Node>
    requires inside { id.0 < length tree.now.nodes }
    ensures value { result ≡ initializer_of tree.now id }
    ensures inside { IfSome result (λ n. n.0 < length tree.now.nodes) }
{
    let _nodes = tree.len();
    match tree.parent(id) {
        Some(above) => {
            if is_kind(tree, Kind::VariableDeclarator, above) {
                second_child(tree, above)
            } else {
                None
            }
        }
        None => None,
    }
}

/// What stands above the declaration of a variable.
fn above_declaration(tree: &SyntaxTree<'_>, id: Node) -> Option<Node>
    requires inside { id.0 < length tree.now.nodes }
    ensures value { result ≡ option_and_then (parent_of tree.now) (declaration_of tree.now id) }
    ensures inside { IfSome result (λ n. n.0 < length tree.now.nodes) }
{
    let _nodes = tree.len();
    match declaration_of(tree, id) {
        Some(declaration) => tree.parent(declaration),
        None => None,
    }
}

/// The enhanced `for` that a variable is of.
pub fn statement_of(tree: &SyntaxTree<'_>, id: Node) -> Option<Node>
    requires inside { id.0 < length tree.now.nodes }
    ensures value { result ≡ statement_of tree.now id }
    ensures inside { IfSome result (λ n. n.0 < length tree.now.nodes) }
{
    match above_declaration(tree, id) {
        Some(above) => {
            if is_kind(tree, Kind::ForeachStatement, above) {
                Some(above)
            } else {
                None
            }
        }
        None => None,
    }
}

/// The name of the first variable of a declaration.
pub fn first_name(tree: &SyntaxTree<'_>, declaration: Node) -> Option<Node>
    requires inside { declaration.0 < length tree.now.nodes }
    ensures value { result ≡ first_name tree.now declaration }
    ensures inside { IfSome result (λ n. n.0 < length tree.now.nodes) }
{
    match child_of(tree, declaration, Kind::VariableDeclarator) {
        Some(declarator) => child_of(tree, declarator, Kind::VariableId),
        None => None,
    }
}
