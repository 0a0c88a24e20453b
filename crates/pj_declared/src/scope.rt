//! Scopes (JLS 6.3).

ghost use Rattle.std.specs.Prelude.{◌≡◌};
ghost use Rattle.pj_declared.specs.Scope.{scope_from, scope_of_all, no_scopes, one_scope};

use pj_tree::Node;

/// A scope of a declaration: the nodes within a node, itself included, from a number on.
///
/// In this order a search finds the scopes of a name: all within one node stand together, by what opens them.
#[derive(Clone, Copy, Debug, PartialEq, Eq, PartialOrd, Ord)]
pub struct Scope {
    /// The node within which the scope lies.
    pub within: Node,
    /// The number of the node that opens the scope. Nothing before it is in the scope.
    pub opened: u32,
    /// What is declared: the `VariableId` of a variable, the declaration of a class, or a `TypeParameter`.
    pub declared: Node,
}

/// The scopes of a declaration: none, one, or two that have no node in common.
#[derive(Clone, Copy, Debug, PartialEq, Eq)]
pub struct Scopes {
    pub first: Option<Scope>,
    pub second: Option<Scope>,
}

/// The scope of all within a node from a number on.
pub fn scope_from(declared: Node, opened: u32, within: Node) -> Scope
    ensures { result ≡ scope_from declared opened within }
{
    Scope {
        within,
        opened,
        declared,
    }
}

/// The scope of a node and all below.
pub fn scope_of_all(declared: Node, within: Node) -> Scope
    ensures { result ≡ scope_of_all declared within }
{
    scope_from(declared, within.0, within)
}

/// No scope.
pub fn no_scopes() -> Scopes
    ensures { result ≡ no_scopes }
{
    Scopes {
        first: None,
        second: None,
    }
}

/// One scope, if there is one.
pub fn one_scope(scope: Option<Scope>) -> Scopes
    ensures { result ≡ one_scope scope }
{
    Scopes {
        first: scope,
        second: None,
    }
}
