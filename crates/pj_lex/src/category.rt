//! What the words of a rule of the lexical grammar are.

use crate::token::TokenKind;

/// What the words of a rule are. The word itself, or what stands behind it, can still decide its kind.
#[derive(Clone, Copy, Debug, PartialEq, Eq)]
pub enum Category {
    /// A name: a reserved word, or an identifier.
    Name,
    /// A number, which is at fault where a name goes on behind it.
    Number(TokenKind),
    /// A token of this kind.
    Token(TokenKind),
    /// The sign `>`.
    Greater,
    /// A fault of this kind.
    Fault(u8),
}

/// The kind of a fault: a character that begins no token.
pub const NO_TOKEN: u8 = 1;

/// The kind of a fault: a quote that begins no character or string literal that ends on its line, or three quotes that begin no
/// text block.
pub const OPEN_LITERAL: u8 = 2;

/// The kind of a fault: a comment that does not end.
pub const OPEN_COMMENT: u8 = 3;

/// The kind of a fault: a literal that ends, with a bad escape in it.
pub const BAD_ESCAPE: u8 = 4;

/// The kind of a fault: a number that a character directly follows which could continue a name.
pub const NUMBER_GOES_ON: u8 = 5;
