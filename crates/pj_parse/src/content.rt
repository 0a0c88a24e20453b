//! What is kept of a node.

ghost use Rattle.std.specs.Prelude.{◌≡◌};
ghost use Rattle.pj_parse.specs.PoolText.{content_of};

use pj_tree::Kind;

/// What is kept of a node, by its kind.
#[derive(Clone, Copy, Debug, PartialEq, Eq)]
pub enum Content {
    /// The value of the literal that the node is (JLS 3.10.4 to 3.10.7).
    Value,
    /// The name that is written, its identifiers with dots between (JLS 6.2).
    Name,
    /// The same of what stands before the last identifier, if there is any: the package of a class type (JLS 6.5.5.2).
    Qualifier,
    /// Nothing.
    Nothing,
}

/// What is kept of a node of the kind.
pub(crate) fn content_of(kind: Kind) -> Content
    ensures { result ≡ content_of kind }
{
    match kind {
        Kind::CharLiteral | Kind::StringLiteral => Content::Value,
        Kind::PackageDeclaration | Kind::ImportDeclaration => Content::Name,
        Kind::ClassType => Content::Qualifier,
        _ => Content::Nothing,
    }
}
