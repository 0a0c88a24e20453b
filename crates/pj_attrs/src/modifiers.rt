//! The modifiers of a parsed file.

ghost use Rattle.std.specs.Prelude.{◌≡◌, ◌<◌, length};
ghost use Rattle.pj_modifiers.specs.Sets as sets;

use pj_parse::Parsed;
use pj_tree::Node;
use pj_xvalue::Modifiers;

/// The modifiers that are written at the node, or at the declaration of the variable that the node names; none where there
/// is no place for modifiers.
pub fn explicit_modifiers(parsed: &Parsed<'_>, n: Node) -> Modifiers
    requires inside { n.0 < length parsed.now.tree.nodes }
    ensures { result ≡ sets.explicit_modifiers parsed.now.tree n }
{
    pj_modifiers::explicit_modifiers(&parsed.tree, n)
}

/// The same, with those that hold by the rules of Java.
pub fn effective_modifiers(parsed: &Parsed<'_>, n: Node) -> Modifiers
    requires inside { n.0 < length parsed.now.tree.nodes }
    ensures { result ≡ sets.effective_modifiers parsed.now.tree n }
{
    pj_modifiers::effective_modifiers(&parsed.tree, n)
}
