//! Sets of modifiers.

ghost use Rattle.std.specs.Prelude.{◌≡◌, ◌<◌, ◌≤◌, length};
ghost use Rattle.pj_modifiers.specs.Sets.{explicit_modifiers, effective_modifiers, bit};

use crate::effective::is_effective;
use crate::explicit::is_explicit;
use pj_tree::{Node, SyntaxTree};
use pj_xvalue::{Modifier, Modifiers};

/// The value of a bit of a set, where it is in it.
fn bit(value: u16, is_member: bool) -> u16
    ensures value { result ≡ bit value is_member }
    ensures small { result ≤ value }
{
    if is_member { value } else { 0 }
}

/// The modifiers that are written at the node, or at the declaration of the variable that the node names.
pub fn explicit_modifiers(tree: &SyntaxTree<'_>, n: Node) -> Modifiers
    requires inside { n.0 < length tree.now.nodes }
    ensures { result ≡ explicit_modifiers tree.now n }
{
    let first = bit(1, is_explicit(tree, n, Modifier::Abstract))
        + bit(2, is_explicit(tree, n, Modifier::Default))
        + bit(4, is_explicit(tree, n, Modifier::Final))
        + bit(8, is_explicit(tree, n, Modifier::Native))
        + bit(16, is_explicit(tree, n, Modifier::NonSealed))
        + bit(32, is_explicit(tree, n, Modifier::Private))
        + bit(64, is_explicit(tree, n, Modifier::Protected));
    let second = bit(128, is_explicit(tree, n, Modifier::Public))
        + bit(256, is_explicit(tree, n, Modifier::Sealed))
        + bit(512, is_explicit(tree, n, Modifier::Static))
        + bit(1024, is_explicit(tree, n, Modifier::Strictfp))
        + bit(2048, is_explicit(tree, n, Modifier::Synchronized))
        + bit(4096, is_explicit(tree, n, Modifier::Transient))
        + bit(8192, is_explicit(tree, n, Modifier::Volatile));
    Modifiers(first + second)
}

/// The modifiers that are written, and those that hold by the rules of Java.
pub fn effective_modifiers(tree: &SyntaxTree<'_>, n: Node) -> Modifiers
    requires inside { n.0 < length tree.now.nodes }
    ensures { result ≡ effective_modifiers tree.now n }
{
    let first = bit(1, is_effective(tree, n, Modifier::Abstract))
        + bit(2, is_effective(tree, n, Modifier::Default))
        + bit(4, is_effective(tree, n, Modifier::Final))
        + bit(8, is_effective(tree, n, Modifier::Native))
        + bit(16, is_effective(tree, n, Modifier::NonSealed))
        + bit(32, is_effective(tree, n, Modifier::Private))
        + bit(64, is_effective(tree, n, Modifier::Protected));
    let second = bit(128, is_effective(tree, n, Modifier::Public))
        + bit(256, is_effective(tree, n, Modifier::Sealed))
        + bit(512, is_effective(tree, n, Modifier::Static))
        + bit(1024, is_effective(tree, n, Modifier::Strictfp))
        + bit(2048, is_effective(tree, n, Modifier::Synchronized))
        + bit(4096, is_effective(tree, n, Modifier::Transient))
        + bit(8192, is_effective(tree, n, Modifier::Volatile));
    Modifiers(first + second)
}
