//! Tokens and their kinds.

/// What a token is (XPath 2.0, A.2.1, with the signs that XPath 3.1 adds). White space and comments are no tokens.
#[derive(Clone, Copy, Debug, PartialEq, Eq)]
pub enum TokenKind {
    /// A name with or without a prefix, as `count` and `fn:count`. Whether it is a keyword is told by where it stands.
    Name,
    /// Digits.
    Integer,
    /// Digits with a point, as `1.5`, `.5` and `1.`.
    Decimal,
    /// A number with an exponent, as `1e5` and `1.5E-2`.
    Double,
    /// A literal in quotation marks or in apostrophes, as it is written.
    String,
    /// A sign.
    Sign(Sign),
}

/// The signs (XPath 2.0, A.2.2; XPath 3.1, A.2.2).
#[derive(Clone, Copy, Debug, PartialEq, Eq)]
pub enum Sign {
    /// `(`
    LeftParenthesis,
    /// `)`
    RightParenthesis,
    /// `[`
    LeftBracket,
    /// `]`
    RightBracket,
    /// `{`
    LeftBrace,
    /// `}`
    RightBrace,
    /// `,`
    Comma,
    /// `.`
    Dot,
    /// `..`
    DotDot,
    /// `/`
    Slash,
    /// `//`
    SlashSlash,
    /// `:`
    Colon,
    /// `::`
    ColonColon,
    /// `:=`
    ColonEqual,
    /// `!`
    Bang,
    /// `!=`
    BangEqual,
    /// `$`
    Dollar,
    /// `*`
    Star,
    /// `+`
    Plus,
    /// `-`
    Minus,
    /// `<`
    Less,
    /// `<<`
    LessLess,
    /// `<=`
    LessEqual,
    /// `=`
    Equal,
    /// `=>`
    Arrow,
    /// `>`
    Greater,
    /// `>>`
    GreaterGreater,
    /// `>=`
    GreaterEqual,
    /// `?`
    Question,
    /// `@`
    At,
    /// `|`
    Bar,
    /// `||`
    BarBar,
    /// `#`
    Hash,
}

/// A token of a text.
#[derive(Clone, Copy, Debug)]
pub struct Token<'t> {
    /// What it is.
    pub kind: TokenKind,
    /// Its characters, as they are written.
    pub text: &'t str,
    /// Where it begins: an offset into the text, in bytes.
    pub from: u32,
}

/// Where the tokens of a text end.
#[derive(Clone, Copy, Debug, PartialEq, Eq)]
pub enum End {
    /// At the end of the text, which has this length in bytes.
    Text(u32),
    /// At an offset in bytes where no token begins.
    Fault(u32),
}
