//! The words of a text.

ghost use Rattle.std.specs.Prelude.{◌≡◌};
ghost use Rattle.pj_shape.specs.Words.{AreTokens, word_at, is_small, is_capital};

use pj_tree::Span;

/// The text of the token at a place, and the empty text where there is none.
pub fn word<'s>(text: &'s str, tokens: &[Span], place: u32) -> &'s str
    requires tokens { AreTokens text.now tokens.now }
    ensures value { result.now ≡ word_at text.now tokens.now place }
{
    if (place as usize) < tokens.len() {
        let token = tokens[place as usize];
        &text[token.from as usize..token.to as usize]
    } else {
        ""
    }
}

/// Whether the word at a place begins with `a` to `z`.
pub fn is_small_word(text: &str, tokens: &[Span], place: u32) -> bool
    requires tokens { AreTokens text.now tokens.now }
    ensures value { result ≡ is_small text.now tokens.now place }
{
    match word(text, tokens, place).as_bytes() {
        [first, ..] => first.is_ascii_lowercase(),
        [] => false,
    }
}

/// Whether the word at a place begins with `A` to `Z`.
pub fn is_capital_word(text: &str, tokens: &[Span], place: u32) -> bool
    requires tokens { AreTokens text.now tokens.now }
    ensures value { result ≡ is_capital text.now tokens.now place }
{
    match word(text, tokens, place).as_bytes() {
        [first, ..] => first.is_ascii_uppercase(),
        [] => false,
    }
}
