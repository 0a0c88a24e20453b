//! A text, character by character from its front on.
ghost use Rattle.std.specs.Prelude.{◌≡◌, ◌+◌, ◌<◌, ◌∷◌, [], false, length, IfSome, MatchOption};
ghost use Rattle.std.specs.Char.{len_utf8};
ghost use Rattle.std.specs.Str.{chars};
ghost use Rattle.pj_base.specs.Front.{starts_with};

/// The first character, and the text behind it; `None` of the empty text.
pub fn split_first<'s>(text: &'s str) -> Option<(char, &'s str)>
    ensures chars { MatchOption result (chars text.now ≡ []) (λ p. chars text.now ≡ p.0 ∷ chars p.1.now) }
    ensures len { MatchOption result (length text.now ≡ 0) (λ p. length text.now ≡ len_utf8 p.0 + length p.1.now) }
    ensures shorter { IfSome result (λ p. length p.1.now < length text.now) }
{
    let mut all = text.chars();
    match all.next() {
        Some(c) => Some((c, all.as_str())),
        None => None,
    }
}

/// What stands behind the character, where the text begins with it.
pub fn strip<'s>(text: &'s str, first: char) -> Option<&'s str>
    ensures chars { MatchOption result (starts_with first (chars text.now) ≡ false) (λ behind. chars text.now ≡ first ∷ chars behind.now) }
    ensures len { MatchOption result (starts_with first (chars text.now) ≡ false) (λ behind. length text.now ≡ len_utf8 first + length behind.now) }
{
    match split_first(text) {
        Some((c, behind)) => { if c == first { Some(behind) } else { None } }
        None => None,
    }
}

/// Whether the text begins with the character.
pub fn begins_with(text: &str, c: char) -> bool
    ensures { result ≡ starts_with c (chars text.now) }
{
    match split_first(text) {
        Some((first, _)) => first == c,
        None => false,
    }
}
