//! Kinds of nodes by which the names of types are told.

ghost use Rattle.std.specs.Prelude.{◌≡◌};
ghost use Rattle.pj_shape.specs.Kinds.{is_variable_access, is_field_access, is_variable_id, may_follow_type};

use pj_tree::Kind;

/// Whether a node of the kind is a name alone.
pub fn is_name(kind: Kind) -> bool
    ensures { result ≡ is_variable_access kind }
{
    kind == Kind::VariableAccess
}

/// Whether a node of the kind is what stands before it, a dot, and a name.
pub fn is_field(kind: Kind) -> bool
    ensures { result ≡ is_field_access kind }
{
    kind == Kind::FieldAccess
}

/// Whether a node of the kind is the name of a variable that is declared.
pub fn is_variable(kind: Kind) -> bool
    ensures { result ≡ is_variable_id kind }
{
    kind == Kind::VariableId
}

/// Whether a node of the kind stands over names that may end with a type.
pub fn follows_type(kind: Kind) -> bool
    ensures { result ≡ may_follow_type kind }
{
    matches!(
        kind,
        Kind::FieldAccess | Kind::MethodCall | Kind::MethodReference
    )
}
