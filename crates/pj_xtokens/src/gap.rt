//! White space and comments.

ghost use Rattle.std.specs.Prelude.{◌≡◌, ◌<◌, ◌^◌, ℕ, List, ◌∷◌, MatchOption, IfSome, length};
ghost use Rattle.std.specs.Str.{chars};
ghost use Rattle.pj_xtokens.specs.Gaps.{Comment, Past, IsSolid};

use crate::characters::is_white;
use crate::text::behind_pair;
use pj_base::split_first;

/// What stands behind the comment whose inside the text goes on with, where it ends (XPath 2.0, 2.6).
fn past_comment<'t>(inside: &'t str) -> Option<&'t str>
    requires { length inside.now < 2 ^ 32 }
    ensures value { MatchOption result ((behind : List ℕ) → Comment 0 (chars inside.now) behind → ⊥) (λ behind. Comment 0 (chars inside.now) (chars behind.now)) }
    ensures shorter { IfSome result (λ behind. length behind.now < length inside.now) }
{
    let mut rest = inside;
    let mut open: u32 = 0;
    while let Some((_, further)) = split_first(rest) {
        if let Some(behind) = behind_pair(rest, ':', ')') {
            if open == 0 {
                return Some(behind);
            }
            open -= 1;
            rest = behind;
        } else if let Some(behind) = behind_pair(rest, '(', ':') {
            open += 1;
            rest = behind;
        } else {
            rest = further;
        }
    }
    None
}

/// What stands behind the white space or the comment at the text's front.
fn past_one<'t>(text: &'t str) -> Option<&'t str>
    requires { length text.now < 2 ^ 32 }
    ensures past { MatchOption result (IsSolid (chars text.now)) (λ rest. (body : List ℕ) → Past (chars rest.now) body → Past (chars text.now) body) }
    ensures shorter { IfSome result (λ rest. length rest.now < length text.now) }
{
    let (c, behind) = split_first(text)?;
    if is_white(c) {
        return Some(behind);
    }
    let inside = behind_pair(text, '(', ':')?;
    past_comment(inside)
}

/// What stands behind all white space and comments at the text's front.
pub fn skip_gap<'t>(text: &'t str) -> &'t str
    requires { length text.now < 2 ^ 32 }
    ensures past { Past (chars text.now) (chars result.now) }
    ensures solid { IsSolid (chars result.now) }
{
    let mut rest = text;
    while let Some(behind) = past_one(rest) {
        rest = behind;
    }
    rest
}
