//! Equality of texts.
ghost use Rattle.std.specs.Prelude.{◌≡◌, ◌↔◌, IsTrue, nat_eq};
ghost use Rattle.std.specs.Cmp.Lexicographic.{pointwise};
ghost use Rattle.std.specs.Str.{chars};

/// Whether both texts are the same: byte by byte, which is character by character.
pub fn is_same_text(text: &str, other: &str) -> bool
    ensures exact { IsTrue result ↔ (text.now ≡ other.now) }
    ensures bytes { result ≡ pointwise nat_eq text.now other.now }
    ensures chars { result ≡ pointwise nat_eq (chars text.now) (chars other.now) }
{
    text == other
}
