//! Texts cut at signs.
ghost use Rattle.std.specs.Prelude.{◌≡◌, ◌+◌, ◌<◌, IfSome, length};
ghost use Rattle.pj_signature_patterns.specs.Cuts.{before_last, cut, seen_pair, seen_text};

/// What stands before the first of an ASCII sign, and behind it; `None` where none stands there.
#[tactic(auto, using(crate::proofs::Cutting::cut_shorter))]
pub(crate) fn cut<'s>(text: &'s str, sign: char) -> Option<(&'s str, &'s str)>
    requires { sign < 128 }
    ensures value { seen_pair result ≡ cut sign text.now }
    ensures shorter { IfSome result (λ pair. length pair.1.now < length text.now) }
{
    text.split_once(sign)
}

/// What stands before an ASCII sign at the end; `None` where the text does not end with it.
#[tactic(auto, using(crate::proofs::Cutting::last_shorter))]
pub(crate) fn before_last(text: &str, sign: char) -> Option<&str>
    requires { sign < 128 }
    ensures value { seen_text result ≡ before_last sign text.now }
    ensures shorter { IfSome result (λ front. length front.now < length text.now) }
{
    text.strip_suffix(sign)
}
