//! What a text begins with.

ghost use Rattle.std.specs.Prelude.{◌≡◌, Option, None, MatchResult};
ghost use Rattle.std.specs.Str.{chars};
ghost use Rattle.pj_lex.specs.Characters.{continues_name};
ghost use Rattle.pj_lex.specs.Rules.{outcome, greater_kind, heads};
ghost use Rattle.pj_lex.specs.Scanning.{IsFault, scanned, seen};
ghost use Rattle.pj_lex.specs.Tokens.{Begins};
ghost use Rattle.pj_lex.specs.declared.state.State.TheVariants.{Start};

use crate::category::{Category, NO_TOKEN, NUMBER_GOES_ON};
use crate::characters::continues_name;
use crate::reserved_words::name_kind;
use crate::state::{State, category, step};
use crate::text::before;
use crate::token::TokenKind;
use pj_base::split_first;

/// The longest word at the text's front that a rule spells, and what stands behind it.
fn longest_word<'s>(text: &'s str) -> Option<(Category, &'s str)>
    ensures { seen result ≡ scanned (chars text.now) Start None }
{
    let mut state = State::Start;
    let mut rest = text;
    let mut found = None;
    while let Some((c, behind)) = split_first(rest) {
        let Some(next) = step(state, c) else {
            break;
        };
        if let Some(category) = category(next) {
            found = Some((category, behind));
        }
        state = next;
        rest = behind;
    }
    found
}

/// Whether a name could go on with the text.
fn goes_on_as_name(behind: &str) -> bool
    ensures { result ≡ heads continues_name (chars behind.now) }
{
    match split_first(behind) {
        Some((c, _)) => continues_name(c),
        None => false,
    }
}

/// The kind of a `>`, by what stands behind it.
fn greater_kind(behind: &str) -> TokenKind
    ensures { result ≡ greater_kind (chars behind.now) }
{
    match split_first(behind) {
        Some(('>' | '=', _)) => TokenKind::GreaterJoined,
        _ => TokenKind::Greater,
    }
}

/// What the word is that is spelled so, before the text behind it.
fn outcome(category: Category, word: &str, behind: &str) -> Result<TokenKind, u8>
    ensures { result ≡ outcome category (chars word.now) (chars behind.now) }
{
    match category {
        Category::Name => Ok(name_kind(word)),
        Category::Number(kind) => {
            if goes_on_as_name(behind) {
                Err(NUMBER_GOES_ON)
            } else {
                Ok(kind)
            }
        }
        Category::Token(kind) => Ok(kind),
        Category::Greater => Ok(greater_kind(behind)),
        Category::Fault(fault) => Err(fault),
    }
}

/// What the text begins with and what stands behind it, or the fault at its beginning.
pub fn scan<'s>(text: &'s str) -> Result<(TokenKind, &'s str), u8>
    ensures { MatchResult result (λ p. Begins (chars text.now) (Ok p.0) (chars p.1.now)) (λ f. IsFault (chars text.now) f) }
{
    let Some((category, behind)) = longest_word(text) else {
        return Err(NO_TOKEN);
    };
    match outcome(category, before(text, behind), behind) {
        Ok(kind) => Ok((kind, behind)),
        Err(fault) => Err(fault),
    }
}
