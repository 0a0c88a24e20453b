//! The first of some tokens.

ghost use Rattle.std.specs.Prelude.{◌≡◌, map};
ghost use Rattle.std.specs.Str.{chars, encode_utf8_all};
ghost use Rattle.pj_xtokens.specs.Answer.{lexed_of};
ghost use Rattle.pj_xtokens.specs.First.{behind_first, first_text, first_from, is_name, is_parenthesis, begins_with_name, begins_with_parenthesis};

use crate::token::{Sign, Token, TokenKind};

/// The text, whose bytes are those of its characters.
fn as_written(text: &str) -> &str
    ensures { result.now ≡ encode_utf8_all (chars text.now) }
{
    text
}

/// The characters of the first token; where there is none, no characters.
pub fn first_text<'t>(tokens: &[Token<'t>]) -> &'t str
    ensures { result.now ≡ first_text (map lexed_of tokens.now) }
{
    match tokens {
        [token, ..] => as_written(token.text),
        [] => "",
    }
}

/// The offset of the first token, in bytes from 0; where there is none, 0.
pub fn first_from(tokens: &[Token<'_>]) -> u32
    ensures { result ≡ first_from (map lexed_of tokens.now) }
{
    match tokens {
        [token, ..] => token.from,
        [] => 0,
    }
}

/// Whether a token is `(`.
fn is_parenthesis(kind: TokenKind) -> bool
    ensures { result ≡ is_parenthesis kind }
{
    match kind {
        TokenKind::Sign(Sign::LeftParenthesis) => true,
        _ => false,
    }
}

/// Whether the first token is `(`.
pub fn begins_with_parenthesis(tokens: &[Token<'_>]) -> bool
    ensures { result ≡ begins_with_parenthesis (map lexed_of tokens.now) }
{
    match tokens {
        [token, ..] => is_parenthesis(token.kind),
        [] => false,
    }
}

/// Whether a token is a name.
fn is_name(kind: TokenKind) -> bool
    ensures { result ≡ is_name kind }
{
    match kind {
        TokenKind::Name => true,
        _ => false,
    }
}

/// Whether the first token is a name.
pub fn begins_with_name(tokens: &[Token<'_>]) -> bool
    ensures { result ≡ begins_with_name (map lexed_of tokens.now) }
{
    match tokens {
        [token, ..] => is_name(token.kind),
        [] => false,
    }
}

/// The tokens behind the first one.
pub fn behind_first<'a, 't>(tokens: &'a [Token<'t>]) -> &'a [Token<'t>]
    ensures { map lexed_of result.now ≡ behind_first (map lexed_of tokens.now) }
{
    match tokens {
        [_, behind @ ..] => behind,
        [] => tokens,
    }
}
