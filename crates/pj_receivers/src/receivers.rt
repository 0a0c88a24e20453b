//! Types of receivers (JLS 4.4).

ghost use Rattle.std.specs.Prelude.{◌≡◌};
ghost use Rattle.pj_names.specs.JavaType.{java_type};
ghost use Rattle.pj_receivers.specs.Receivers.{as_receiver};

use pj_names::Ty;

/// A receiver's type: a type variable counts as its bound, and a bound that is one as its own.
pub fn as_receiver(ty: &Ty) -> &Ty
    ensures { java_type result.now ≡ as_receiver (java_type ty.now) }
{
    match ty {
        Ty::Var(_, bound) => as_receiver(bound),
        other => other,
    }
}
