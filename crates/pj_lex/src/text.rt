//! A text from its front on, character by character.

ghost use Rattle.std.specs.Prelude.{◌≡◌, ◌+◌, Bool, ℕ, List, [], ◌∷◌, ◌++◌, MatchOption, length};
ghost use Rattle.std.specs.Str.{chars};
ghost use Rattle.pj_lex.specs.Characters.{is_white};
ghost use Rattle.pj_lex.specs.Scanning.{run, past_run, IsBehind};
ghost use Rattle.pj_lex.specs.Size.{size};

use crate::characters::is_white;
use pj_base::split_first;

/// What stands behind the white space at the text's front.
pub fn skip_white<'s>(text: &'s str) -> &'s str
    ensures behind { chars result.now ≡ past_run is_white (chars text.now) }
    ensures bytes { length text.now ≡ size (run is_white (chars text.now)) + length result.now }
{
    let mut rest = text;
    while let Some((c, behind)) = split_first(rest) {
        if !is_white(c) {
            break;
        }
        rest = behind;
    }
    rest
}

/// The front of the text before the given end of it.
pub fn before<'s>(text: &'s str, behind: &'s str) -> &'s str
    requires { IsBehind (chars behind.now) (chars text.now) }
    ensures split { chars text.now ≡ chars result.now ++ chars behind.now }
    ensures bytes { length text.now ≡ size (chars result.now) + length behind.now }
    ensures len { length result.now ≡ size (chars result.now) }
{
    let (front, _) = text.split_at(text.len() - behind.len());
    front
}
