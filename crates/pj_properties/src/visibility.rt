//! Visibility (JLS 6.6.1).

ghost use Rattle.std.specs.Prelude.{◌≡◌, ◌<◌, length};
ghost use Rattle.pj_properties.specs.Texts.{member_visibility, class_visibility_in, class_visibility, variable_visibility_of, variable_visibility};

use pj_modifiers::is_effective;
use pj_symbols::{Nesting, VariableKind, nesting_of, variable_kind};
use pj_tree::{Node, SyntaxTree};
use pj_xvalue::Modifier;

/// The visibility of a member, by the modifiers that hold of it.
pub fn member_visibility(tree: &SyntaxTree<'_>, n: Node) -> &'static str
    requires inside { n.0 < length tree.now.nodes }
    ensures { result.now ≡ member_visibility tree.now n }
{
    if is_effective(tree, n, Modifier::Public) {
        "public"
    } else if is_effective(tree, n, Modifier::Protected) {
        "protected"
    } else if is_effective(tree, n, Modifier::Private) {
        "private"
    } else {
        "package"
    }
}

/// The visibility of a class that stands so.
fn class_visibility_in(nesting: Nesting, tree: &SyntaxTree<'_>, n: Node) -> &'static str
    requires inside { n.0 < length tree.now.nodes }
    ensures { result.now ≡ class_visibility_in nesting tree.now n }
{
    match nesting {
        Nesting::Local => "local",
        Nesting::Anonymous => "anonymous",
        _ => member_visibility(tree, n),
    }
}

/// The visibility of a class.
pub fn class_visibility(tree: &SyntaxTree<'_>, n: Node) -> &'static str
    requires inside { n.0 < length tree.now.nodes }
    ensures { result.now ≡ class_visibility tree.now n }
{
    class_visibility_in(nesting_of(tree, n), tree, n)
}

/// The visibility of a variable of a kind.
fn variable_visibility_of(kind: VariableKind, tree: &SyntaxTree<'_>, n: Node) -> &'static str
    requires inside { n.0 < length tree.now.nodes }
    ensures { result.now ≡ variable_visibility_of kind tree.now n }
{
    match kind {
        VariableKind::Field => member_visibility(tree, n),
        VariableKind::EnumConstant => member_visibility(tree, n),
        VariableKind::RecordComponent => "private",
        _ => "local",
    }
}

/// The visibility of a variable.
pub fn variable_visibility(tree: &SyntaxTree<'_>, n: Node) -> &'static str
    requires inside { n.0 < length tree.now.nodes }
    ensures { result.now ≡ variable_visibility tree.now n }
{
    variable_visibility_of(variable_kind(tree, n), tree, n)
}
