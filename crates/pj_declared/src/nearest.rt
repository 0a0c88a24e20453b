//! Which of several declarations is the nearest.

ghost use Rattle.std.specs.Prelude.{◌≡◌, Some};
ghost use Rattle.pj_declared.specs.Nearest.{declared_by, is_nearer, nearer};

use crate::scope::Scope;
use pj_tree::Node;

/// What a name means at a place.
#[derive(Clone, Copy, Debug, PartialEq, Eq)]
pub struct Declared {
    /// What declares it: the `VariableId` of a variable, the declaration of a class, or a `TypeParameter`.
    pub node: Node,
    /// The number of the node that opens its scope. A member is opened by its class; so where a class around the place has
    /// a greater number, what that class inherits stands further in. Nothing else is opened by the number of a class but its members.
    pub opened: u32,
}

/// The declaration of a scope.
pub fn declared_by(scope: Scope) -> Declared
    ensures { result ≡ declared_by scope }
{
    Declared {
        node: scope.declared,
        opened: scope.opened,
    }
}

/// Whether one declaration is nearer than another one, where both are in scope (JLS 6.4.1).
fn is_nearer(one: Declared, other: Declared) -> bool
    ensures { result ≡ is_nearer one other }
{
    other.opened < one.opened || (one.opened == other.opened && one.node.0 < other.node.0)
}

/// The nearer one of two declarations that are in scope.
pub fn nearer(one: Declared, other: Option<Declared>) -> Declared
    ensures { result ≡ nearer one other }
{
    match other {
        Some(other) if is_nearer(other, one) => other,
        _ => one,
    }
}
