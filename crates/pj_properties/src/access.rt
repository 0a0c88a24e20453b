//! Whether a variable is read or written.

ghost use Rattle.std.specs.Prelude.{◌≡◌, ◌<◌, length};
ghost use Rattle.pj_properties.specs.Texts.{is_left_side, is_stepped, is_written, access_type};

use pj_tree::{Kind, Node, SyntaxTree, first_child, has_word, is_kind};

/// Whether the node is the left side of the assignment above it (JLS 15.26).
fn is_left_side(tree: &SyntaxTree<'_>, above: Node, n: Node) -> bool
    requires inside { above.0 < length tree.now.nodes }
    ensures { result ≡ is_left_side tree.now above n }
{
    if !is_kind(tree, Kind::AssignmentExpression, above) {
        return false;
    }
    match first_child(tree, above) {
        Some(child) => child.0 == n.0,
        None => false,
    }
}

/// Whether the node above is `++` or `--` (JLS 15.14.2, 15.14.3, 15.15.1, 15.15.2).
fn is_stepped(tree: &SyntaxTree<'_>, above: Node) -> bool
    requires inside { above.0 < length tree.now.nodes }
    ensures { result ≡ is_stepped tree.now above }
{
    is_kind(tree, Kind::UnaryExpression, above)
        && (has_word(tree, above, "++") || has_word(tree, above, "--"))
}

/// Whether the variable is written there.
fn is_written(tree: &SyntaxTree<'_>, n: Node) -> bool
    requires inside { n.0 < length tree.now.nodes }
    ensures { result ≡ is_written tree.now n }
{
    match tree.parent(n) {
        Some(above) => is_left_side(tree, above, n) || is_stepped(tree, above),
        None => false,
    }
}

/// `WRITE` at the left side of an assignment and at the operand of `++` or `--`, and else `READ`.
pub fn access_type(tree: &SyntaxTree<'_>, n: Node) -> &'static str
    requires inside { n.0 < length tree.now.nodes }
    ensures { result.now ≡ access_type tree.now n }
{
    if is_written(tree, n) { "WRITE" } else { "READ" }
}
