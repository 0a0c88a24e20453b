//! Kinds of nodes.

ghost use Rattle.std.specs.Prelude.{◌≡◌};
ghost use Rattle.pj_symbols.specs.Kinds.{is_class};

use pj_tree::Kind;

/// Whether a node of the kind declares a class or an interface, an anonymous class included (JLS 8.1, 8.9, 8.10, 9.1, 9.6,
/// 15.9.5).
pub fn is_class(kind: Kind) -> bool
    ensures { result ≡ is_class kind }
{
    match kind {
        Kind::ClassDeclaration
        | Kind::EnumDeclaration
        | Kind::RecordDeclaration
        | Kind::AnnotationTypeDeclaration
        | Kind::AnonymousClassDeclaration => true,
        _ => false,
    }
}
