//! The terminals of the grammar: what a token is for it, given what stands behind.

ghost use Rattle.std.specs.Prelude.{◌≡◌, map};
ghost use Rattle.std.specs.Str.{chars};
ghost use Rattle.pj_xtokens.specs.Answer.{lexed_of};
ghost use Rattle.pj_xgrammar.specs.declared.terminal.Behind.TheVariants.{End};
ghost use Rattle.pj_xgrammar.specs.Terminals.{name_behind, behind_of, first_behind, begins_step, makes_phrase, terminal_of, terminal_number};

use crate::word::{Keyword, Phrase, Word, word_of};
use pj_xtokens::{Sign, Token, TokenKind};

/// What stands behind a token, as far as the token's terminal depends on it.
#[derive(Clone, Copy, PartialEq, Eq)]
pub enum Behind {
    /// The end of the text.
    End,
    /// The name `as`.
    As,
    /// The name `of`.
    Of,
    /// Any other name.
    Name,
    /// A number or a string.
    Literal,
    /// A sign.
    Sign(Sign),
}

/// What a token is for the grammar.
#[derive(Clone, Copy, PartialEq, Eq)]
pub enum Terminal {
    /// A name that has no meaning here, or only that of a name.
    Name,
    /// An integer.
    Integer,
    /// A decimal number.
    Decimal,
    /// A number with an exponent.
    Double,
    /// A string.
    String,
    /// A `/` behind which no step begins (XPath 2.0, A.1.2, leading-lone-slash).
    LoneSlash,
    /// A sign. The `/` is one behind which a step begins.
    Sign(Sign),
    /// A word with a meaning whatever stands behind it.
    Keyword(Keyword),
    /// A word with the token behind it with which it has a meaning.
    Phrase(Phrase),
}

/// The numbers of the terminals that are no signs, keywords or phrases.
pub const NAME: u16 = 0;

pub const INTEGER: u16 = 1;

pub const DECIMAL: u16 = 2;

pub const DOUBLE: u16 = 3;

pub const STRING: u16 = 4;

pub const LONE_SLASH: u16 = 5;

/// The number of the first sign.
pub const SIGNS: u16 = 6;

/// The number of the first keyword.
pub const KEYWORDS: u16 = 39;

/// The number of the first phrase.
pub const PHRASES: u16 = 63;

impl Behind {
    /// What the token before these has behind it: their first one, or the end of the text.
    pub fn first(tokens: &[Token<'_>]) -> Behind
        ensures behind { result ≡ first_behind End (map lexed_of tokens.now) }
    {
        match tokens {
            [token, ..] => Behind::of(token),
            [] => Behind::End,
        }
    }

    /// What a name is for the token before it.
    fn of_name(name: &str) -> Behind
        ensures behind { result ≡ name_behind (chars name.now) }
    {
        match name {
            "as" => Behind::As,
            "of" => Behind::Of,
            _ => Behind::Name,
        }
    }

    /// What the token is for the one before it.
    fn of(token: &Token<'_>) -> Behind
        ensures behind { result ≡ behind_of (lexed_of token.now) }
    {
        match token.kind {
            TokenKind::Name => Behind::of_name(token.text),
            TokenKind::Integer | TokenKind::Decimal | TokenKind::Double | TokenKind::String => {
                Behind::Literal
            }
            TokenKind::Sign(sign) => Behind::Sign(sign),
        }
    }

    /// Whether a step can begin so (XPath 2.0, A.1.2): a `[` or a `?` could begin an array or a look-up of XPath 3.1, which
    /// are left out.
    fn begins_step(self) -> bool
        ensures begins { result ≡ begins_step self }
    {
        match self {
            Behind::As | Behind::Of | Behind::Name | Behind::Literal => true,
            Behind::Sign(
                Sign::LeftParenthesis
                | Sign::LeftBracket
                | Sign::Dot
                | Sign::DotDot
                | Sign::Dollar
                | Sign::Star
                | Sign::Question
                | Sign::At,
            ) => true,
            Behind::End | Behind::Sign(_) => false,
        }
    }
}

impl Phrase {
    /// Whether the word has its meaning before this.
    fn is_before(self, behind: Behind) -> bool
        ensures is { result ≡ makes_phrase self behind }
    {
        match self {
            Phrase::For | Phrase::Let | Phrase::Some | Phrase::Every => {
                matches!(behind, Behind::Sign(Sign::Dollar))
            }
            Phrase::If | Phrase::Function => {
                matches!(behind, Behind::Sign(Sign::LeftParenthesis))
            }
            Phrase::Map | Phrase::Array => matches!(behind, Behind::Sign(Sign::LeftBrace)),
            Phrase::InstanceOf => matches!(behind, Behind::Of),
            Phrase::CastAs | Phrase::CastableAs | Phrase::TreatAs => matches!(behind, Behind::As),
        }
    }
}

impl Terminal {
    /// The terminal that the token is before this.
    pub fn of(token: &Token<'_>, behind: Behind) -> Terminal
        ensures terminal { result ≡ terminal_of (lexed_of token.now) behind }
    {
        match token.kind {
            TokenKind::Name => match word_of(token.text) {
                Some(Word::Keyword(keyword)) => Terminal::Keyword(keyword),
                Some(Word::Phrase(phrase)) if phrase.is_before(behind) => Terminal::Phrase(phrase),
                _ => Terminal::Name,
            },
            TokenKind::Integer => Terminal::Integer,
            TokenKind::Decimal => Terminal::Decimal,
            TokenKind::Double => Terminal::Double,
            TokenKind::String => Terminal::String,
            TokenKind::Sign(Sign::Slash) if !behind.begins_step() => Terminal::LoneSlash,
            TokenKind::Sign(sign) => Terminal::Sign(sign),
        }
    }

    /// The terminal's number in the grammar, below 75.
    pub fn number(self) -> u16
        ensures number { result ≡ terminal_number self }
    {
        match self {
            Terminal::Name => NAME,
            Terminal::Integer => INTEGER,
            Terminal::Decimal => DECIMAL,
            Terminal::Double => DOUBLE,
            Terminal::String => STRING,
            Terminal::LoneSlash => LONE_SLASH,
            Terminal::Sign(sign) => SIGNS + sign as u16,
            Terminal::Keyword(keyword) => KEYWORDS + keyword as u16,
            Terminal::Phrase(phrase) => PHRASES + phrase as u16,
        }
    }
}
