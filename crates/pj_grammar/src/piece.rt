//! Pieces.

/// An item of a grammar without its parts, which are what the next pieces stand for. Numbers of tokens and rules are those of
/// `pj_peg_grammar::Item`.
#[derive(Clone, Copy, Debug, PartialEq, Eq)]
pub enum Piece {
    /// One token of this kind.
    Token(u16),
    /// One token of whatever kind.
    Any,
    /// What the rule of this number takes, counted from 0.
    Rule(u16),
    /// A sequence of so many parts, or of fewer where fewer follow.
    Seq(u8),
    /// A choice among so many alternatives, or among fewer where fewer follow.
    Choice(u8),
    /// A repetition of the next item. Nothing, where none follows.
    Star,
    /// The next item, or nothing where it fails. Nothing, where none follows.
    Maybe,
    /// A look-ahead at the next item. Nothing, where none follows.
    And,
    /// A look-ahead at what the next item does not take. Nothing, where none follows.
    Not,
}
