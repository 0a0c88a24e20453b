//! A text from its front on, character by character.

ghost use Rattle.std.specs.Prelude.{◌≡◌, ◌<◌, [], ◌∷◌, ◌++◌, MatchOption, IfSome, IsFalse, length};
ghost use Rattle.std.specs.Str.{chars};
ghost use Rattle.pj_xtokens.specs.Gaps.{begins_with};
ghost use Rattle.pj_xtokens.specs.Scanning.{IsBehind};
ghost use Rattle.pj_xtokens.specs.Size.{size};

use pj_base::split_first;

/// The text behind these two characters, where it begins with them.
pub fn behind_pair<'t>(text: &'t str, first: char, second: char) -> Option<&'t str>
    ensures split { MatchOption result (IsFalse (begins_with first second (chars text.now))) (λ behind. chars text.now ≡ first ∷ second ∷ chars behind.now) }
    ensures shorter { IfSome result (λ behind. length behind.now < length text.now) }
{
    let (c, behind) = split_first(text)?;
    let (d, behind) = split_first(behind)?;
    if c == first && d == second {
        Some(behind)
    } else {
        None
    }
}

/// The front of the text before the given end of it.
pub fn before<'t>(text: &'t str, behind: &'t str) -> &'t str
    requires { IsBehind (chars behind.now) (chars text.now) }
    ensures split { chars text.now ≡ chars result.now ++ chars behind.now }
    ensures len { length result.now ≡ size (chars result.now) }
{
    let (front, _) = text.split_at(text.len() - behind.len());
    front
}
