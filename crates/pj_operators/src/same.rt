//! Whether two types are the same.

ghost use Rattle.std.specs.Prelude.{◌≡◌};
ghost use Rattle.pj_names.specs.JavaType.{java_type, java_types};
ghost use Rattle.pj_operators.specs.Same.{same_arguments, same_type};

use pj_names::{Ty, Types};

/// Whether two types are the same, with their arguments.
#[cycle(same)]
pub fn same_type(ty: &Ty, other: &Ty) -> bool
    ensures { result ≡ same_type (java_type ty.now) (java_type other.now) }
{
    match (ty, other) {
        (Ty::Prim(a), Ty::Prim(b)) => a == b,
        (Ty::Void, Ty::Void) => true,
        (Ty::Null, Ty::Null) => true,
        (Ty::Class(a, arguments), Ty::Class(b, others)) => {
            a.as_str() == b.as_str() && same_arguments(arguments, others)
        }
        (Ty::Array(a), Ty::Array(b)) => same_type(a, b),
        (Ty::Var(a, bound), Ty::Var(b, upper)) => a.as_str() == b.as_str()
            && same_type(bound, upper),
        (Ty::Unknown, Ty::Unknown) => true,
        _ => false,
    }
}

/// Whether two lists of type arguments are the same.
#[cycle(same)]
fn same_arguments(arguments: &Types, others: &Types) -> bool
    ensures { result ≡ same_arguments (java_types arguments.now) (java_types others.now) }
{
    match (arguments, others) {
        (Types::End, Types::End) => true,
        (Types::More(a, rest), Types::More(b, more)) => same_type(a, b)
            && same_arguments(rest, more),
        _ => false,
    }
}
