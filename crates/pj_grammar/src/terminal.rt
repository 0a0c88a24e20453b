//! The terminals of the grammar.

ghost use Rattle.std.specs.Prelude.{◌≡◌};
ghost use Rattle.std.specs.Str.{chars};
ghost use Rattle.pj_grammar.specs.Terminal.{word_of, terminal_of, terminal_number};

use pj_lex::TokenKind;

/// A word that is an identifier as a token and has a meaning of its own at some places of the grammar (JLS 3.9). The other
/// contextual keywords of JLS 3.9 stand in module declarations alone, and `non-sealed` is read as two words and a sign.
#[derive(Clone, Copy, Debug, PartialEq, Eq)]
pub enum ContextualWord {
    /// `non`, in `non-sealed`.
    Non,
    /// `sealed`
    Sealed,
    /// `record`
    Record,
    /// `permits`
    Permits,
    /// `var`
    Var,
    /// `yield`
    Yield,
}

/// What the grammar can take at one place: a token of this kind, but for an identifier that is one of the contextual words,
/// which is a terminal of its own.
#[derive(Clone, Copy, Debug, PartialEq, Eq)]
pub enum Terminal {
    /// A token of this kind.
    Token(TokenKind),
    /// The identifier that is this word.
    Word(ContextualWord),
}

/// The number of the first word; those of the kinds of tokens are below.
pub(crate) const WORDS: u16 = 107;

/// The contextual word of a text.
fn word_of(text: &str) -> Option<ContextualWord>
    ensures { result ≡ word_of (chars text.now) }
{
    match text {
        "non" => Some(ContextualWord::Non),
        "sealed" => Some(ContextualWord::Sealed),
        "record" => Some(ContextualWord::Record),
        "permits" => Some(ContextualWord::Permits),
        "var" => Some(ContextualWord::Var),
        "yield" => Some(ContextualWord::Yield),
        _ => None,
    }
}

impl Terminal {
    /// The terminal that a token of this kind and with this text is.
    pub fn of(kind: TokenKind, text: &str) -> Terminal
        ensures terminal { result ≡ terminal_of kind (chars text.now) }
    {
        match kind {
            TokenKind::Identifier => match word_of(text) {
                Some(word) => Terminal::Word(word),
                None => Terminal::Token(kind),
            },
            _ => Terminal::Token(kind),
        }
    }

    /// The terminal's number in the grammar, below 113.
    pub fn number(self) -> u16
        ensures number { result ≡ terminal_number self }
    {
        match self {
            Terminal::Token(kind) => kind as u16,
            Terminal::Word(word) => WORDS + word as u16,
        }
    }
}
