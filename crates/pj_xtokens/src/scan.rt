//! What a text begins with.

ghost use Rattle.std.specs.Prelude.{◌≡◌, ◌∷◌, ◌++◌, ◌⊎◌, IsTrue, IsFalse, List, ℕ, Option, None, MatchOption};
ghost use Rattle.std.specs.Str.{chars};
ghost use Rattle.pj_xtokens.specs.Gaps.{opens};
ghost use Rattle.pj_xtokens.specs.Scanning.{scanned, seen};
ghost use Rattle.pj_xtokens.specs.Tokens.{IsLongest, IsUnspelled, is_joined};
ghost use Rattle.pj_xtokens.specs.declared.state.State.TheVariants.{Start};

use crate::characters::starts_name;
use crate::laws::scanner_follows_the_rules;
use crate::state::{State, spelled, step};
use crate::text::behind_pair;
use crate::token::TokenKind;
use pj_base::split_first;

/// The longest word at the text's front that a rule spells, and what stands behind it.
fn longest_word<'t>(text: &'t str) -> Option<(TokenKind, &'t str)>
    ensures { seen result ≡ scanned (chars text.now) Start None }
{
    let mut state = State::Start;
    let mut rest = text;
    let mut found = None;
    while let Some((c, behind)) = split_first(rest) {
        let Some(next) = step(state, c) else {
            break;
        };
        if let Some(kind) = spelled(next) {
            found = Some((kind, behind));
        }
        state = next;
        rest = behind;
    }
    found
}

/// The token that the text begins with and what stands behind it, or `None` where no token begins: a comment that does
/// not end is none.
pub fn scan<'t>(text: &'t str) -> Option<(TokenKind, &'t str)>
    ensures { MatchOption result (IsTrue (opens (chars text.now)) ⊎ IsUnspelled (chars text.now)) (λ p. IsFalse (opens (chars text.now)) × ((w : List ℕ) × (chars text.now ≡ w ++ chars p.1.now) × IsLongest (chars text.now) p.0 w)) }
{
    if let Some(_) = behind_pair(text, '(', ':') {
        return None;
    }
    scanner_follows_the_rules();
    longest_word(text)
}

/// Whether a number is directly followed by a name (XPath 2.0, A.2.2).
pub fn is_joined(kind: TokenKind, behind: &str) -> bool
    ensures { result ≡ is_joined kind (chars behind.now) }
{
    match kind {
        TokenKind::Integer | TokenKind::Decimal | TokenKind::Double => match split_first(behind) {
            Some((c, _)) => starts_name(c),
            None => false,
        },
        TokenKind::Name | TokenKind::String | TokenKind::Sign(_) => false,
    }
}
