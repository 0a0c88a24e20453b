//! Types of variables, and parameters of variable arity.

ghost use Rattle.std.specs.Prelude.{◌≡◌, ◌<◌, length, IfSome};
ghost use Rattle.pj_properties.specs.Flags.{has_ellipsis, is_varargs, varargs_among, is_varargs_method, is_type, has_type, is_inferred, may_be_inferred, is_inferred_in, is_variable_inferred, has_array_type, has_array_declaration, is_array_variable};

use pj_symbols::declaration_of;
use pj_tree::{Kind, Node, SyntaxTree, child_of, has_child, has_word, is_kind, second_child};

/// Whether a parameter is written with `...`.
fn has_ellipsis(tree: &SyntaxTree<'_>, n: Node) -> bool
    requires inside { n.0 < length tree.now.nodes }
    ensures { result ≡ has_ellipsis tree.now n }
{
    has_word(tree, n, "...")
}

/// Whether the parameter or component that the node is, is of variable arity.
pub fn is_varargs(tree: &SyntaxTree<'_>, n: Node) -> bool
    requires inside { n.0 < length tree.now.nodes }
    ensures { result ≡ is_varargs tree.now n }
{
    let Some(array) = child_of(tree, n, Kind::ArrayType) else {
        return false;
    };
    let Some(dimensions) = child_of(tree, array, Kind::ArrayDimensions) else {
        return false;
    };
    match child_of(tree, dimensions, Kind::ArrayTypeDim) {
        Some(dimension) => has_ellipsis(tree, dimension),
        None => false,
    }
}

/// Whether one of the parameters is of variable arity.
fn varargs_among(tree: &SyntaxTree<'_>, parameters: Node) -> bool
    requires inside { parameters.0 < length tree.now.nodes }
    ensures { result ≡ varargs_among tree.now parameters }
{
    for parameter in tree.children(parameters) {
        if is_varargs(tree, parameter) {
            return true;
        }
    }
    false
}

/// Whether a parameter of the method or constructor that the node declares is of variable arity.
pub fn is_varargs_method(tree: &SyntaxTree<'_>, n: Node) -> bool
    requires inside { n.0 < length tree.now.nodes }
    ensures { result ≡ is_varargs_method tree.now n }
{
    match child_of(tree, n, Kind::FormalParameters) {
        Some(parameters) => varargs_among(tree, parameters),
        None => false,
    }
}

/// Whether a kind is one of types.
fn is_type(kind: Kind) -> bool
    ensures { result ≡ is_type kind }
{
    match kind {
        Kind::ClassType
        | Kind::PrimitiveType
        | Kind::ArrayType
        | Kind::UnionType
        | Kind::IntersectionType => true,
        _ => false,
    }
}

/// Whether the type of a variable is written in its declaration.
fn has_type(tree: &SyntaxTree<'_>, declaration: Node) -> bool
    requires inside { declaration.0 < length tree.now.nodes }
    ensures { result ≡ has_type tree.now declaration }
{
    match second_child(tree, declaration) {
        Some(child) => is_type(tree.kind(child)),
        None => false,
    }
}

/// Whether no type is written in the declaration.
pub fn is_inferred(tree: &SyntaxTree<'_>, declaration: Node) -> bool
    requires inside { declaration.0 < length tree.now.nodes }
    ensures { result ≡ is_inferred tree.now declaration }
{
    !has_type(tree, declaration)
}

/// Whether the declaration is one of a local variable or a lambda parameter, and has no written type.
fn is_inferred_in(tree: &SyntaxTree<'_>, declaration: Node) -> bool
    requires inside { declaration.0 < length tree.now.nodes }
    ensures { result ≡ is_inferred_in tree.now declaration }
{
    (is_kind(tree, Kind::LocalVariableDeclaration, declaration)
        || is_kind(tree, Kind::LambdaParameter, declaration))
        && is_inferred(tree, declaration)
}

/// Whether the variable that the node names is a local variable or a lambda parameter without a written type.
pub fn is_variable_inferred(tree: &SyntaxTree<'_>, n: Node) -> bool
    requires inside { n.0 < length tree.now.nodes }
    ensures { result ≡ is_variable_inferred tree.now n }
{
    match declaration_of(tree, n) {
        Some(declaration) => is_inferred_in(tree, declaration),
        None => false,
    }
}

/// Whether the written type in a declaration is an array.
fn has_array_type(tree: &SyntaxTree<'_>, declaration: Node) -> bool
    requires inside { declaration.0 < length tree.now.nodes }
    ensures { result ≡ has_array_type tree.now declaration }
{
    match second_child(tree, declaration) {
        Some(child) => is_kind(tree, Kind::ArrayType, child),
        None => false,
    }
}

/// Whether that holds of the declaration of the variable.
fn has_array_declaration(tree: &SyntaxTree<'_>, n: Node) -> bool
    requires inside { n.0 < length tree.now.nodes }
    ensures { result ≡ has_array_declaration tree.now n }
{
    match declaration_of(tree, n) {
        Some(declaration) => has_array_type(tree, declaration),
        None => false,
    }
}

/// Whether the variable that the node names is an array by how it is written.
pub fn is_array_variable(tree: &SyntaxTree<'_>, n: Node) -> bool
    requires inside { n.0 < length tree.now.nodes }
    ensures { result ≡ is_array_variable tree.now n }
{
    has_child(tree, n, Kind::ArrayDimensions) || has_array_declaration(tree, n)
}
