//! The kinds of tokens, and tokens.

use pj_base::ListOf;
use pj_tree::Span;

/// What a token is. White space is no token, a comment is one.
#[derive(Clone, Copy, Debug, PartialEq, Eq)]
pub enum TokenKind {
    /// A name that is no reserved word (JLS 3.8); contextual keywords are identifiers.
    Identifier,
    // The reserved keywords (JLS 3.9).
    /// `abstract`
    Abstract,
    /// `assert`
    Assert,
    /// `boolean`
    Boolean,
    /// `break`
    Break,
    /// `byte`
    Byte,
    /// `case`
    Case,
    /// `catch`
    Catch,
    /// `char`
    Char,
    /// `class`
    Class,
    /// `const`
    Const,
    /// `continue`
    Continue,
    /// `default`
    Default,
    /// `do`
    Do,
    /// `double`
    Double,
    /// `else`
    Else,
    /// `enum`
    Enum,
    /// `extends`
    Extends,
    /// `final`
    Final,
    /// `finally`
    Finally,
    /// `float`
    Float,
    /// `for`
    For,
    /// `goto`
    Goto,
    /// `if`
    If,
    /// `implements`
    Implements,
    /// `import`
    Import,
    /// `instanceof`
    Instanceof,
    /// `int`
    Int,
    /// `interface`
    Interface,
    /// `long`
    Long,
    /// `native`
    Native,
    /// `new`
    New,
    /// `package`
    Package,
    /// `private`
    Private,
    /// `protected`
    Protected,
    /// `public`
    Public,
    /// `return`
    Return,
    /// `short`
    Short,
    /// `static`
    Static,
    /// `strictfp`
    Strictfp,
    /// `super`
    Super,
    /// `switch`
    Switch,
    /// `synchronized`
    Synchronized,
    /// `this`
    This,
    /// `throw`
    Throw,
    /// `throws`
    Throws,
    /// `transient`
    Transient,
    /// `try`
    Try,
    /// `void`
    Void,
    /// `volatile`
    Volatile,
    /// `while`
    While,
    /// `_` alone.
    Underscore,
    // The other literals that are words (JLS 3.10.3 and 3.10.8).
    /// `true`
    True,
    /// `false`
    False,
    /// `null`
    Null,
    /// An integer without a sign, its suffix included (JLS 3.10.1).
    IntLiteral,
    /// A floating point literal without a sign, its suffix included (JLS 3.10.2).
    FloatLiteral,
    /// A character literal (JLS 3.10.4).
    CharLiteral,
    /// A string literal that is no text block (JLS 3.10.5).
    StringLiteral,
    /// A text block (JLS 3.10.6).
    TextBlock,
    /// A comment of either form (JLS 3.7).
    Comment,
    // The separators and operators (JLS 3.11 and 3.12).
    /// `(`
    LeftParenthesis,
    /// `)`
    RightParenthesis,
    /// `{`
    LeftBrace,
    /// `}`
    RightBrace,
    /// `[`
    LeftBracket,
    /// `]`
    RightBracket,
    /// `;`
    Semicolon,
    /// `,`
    Comma,
    /// `.`
    Dot,
    /// `...`
    Ellipsis,
    /// `@`
    At,
    /// `::`
    ColonColon,
    /// `=`
    Assign,
    /// `<`
    Less,
    /// `!`
    Bang,
    /// `~`
    Tilde,
    /// `?`
    Question,
    /// `:`
    Colon,
    /// `->`
    Arrow,
    /// `==`
    EqualEqual,
    /// `<=`
    LessEqual,
    /// `!=`
    BangEqual,
    /// `&&`
    AndAnd,
    /// `||`
    OrOr,
    /// `++`
    PlusPlus,
    /// `--`
    MinusMinus,
    /// `+`
    Plus,
    /// `-`
    Minus,
    /// `*`
    Star,
    /// `/`
    Slash,
    /// `&`
    Ampersand,
    /// `|`
    Bar,
    /// `^`
    Caret,
    /// `%`
    Percent,
    /// `<<`
    LessLess,
    /// `+=`
    PlusAssign,
    /// `-=`
    MinusAssign,
    /// `*=`
    StarAssign,
    /// `/=`
    SlashAssign,
    /// `&=`
    AmpersandAssign,
    /// `|=`
    BarAssign,
    /// `^=`
    CaretAssign,
    /// `%=`
    PercentAssign,
    /// `<<=`
    LessLessAssign,
    /// `>` that neither `>` nor `=` follows.
    Greater,
    /// `>` that `>` or `=` follows.
    GreaterJoined,
}

/// A token of a text.
#[derive(Clone, Copy, Debug)]
pub struct Token<'s> {
    /// What it is.
    pub kind: TokenKind,
    /// The characters, as they stand in the text.
    pub text: &'s str,
    /// Where they stand, in bytes of the text, counted from 0.
    pub span: Span,
}

/// A list of tokens.
pub type Tokens<'s> = ListOf<Token<'s>>;

/// What ends the tokens of a text before its end.
#[derive(Clone, Copy, Debug, PartialEq, Eq)]
pub struct LexFault {
    /// 1: a character that begins no token. 2: a quote that begins no character or string literal that ends on its line, or three quotes that
    /// begin no text block. 3: a comment that does not end. 4: a literal that ends, with a bad escape in it. 5: a number that a character directly
    /// follows which could continue a name.
    pub kind: u8,
    /// Where the token that the fault spoils begins, in bytes of the text that is lexed, counted from 0.
    pub offset: u32,
}
