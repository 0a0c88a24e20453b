//! Parsing expressions.

/// A list of items: the rules of a grammar by their numbers, the parts of a sequence, or the alternatives of a choice.
pub type Items = Vec<Item>;

/// A parsing expression. It takes tokens from a place on, or fails there.
#[derive(Drop)]
pub enum Item {
    /// One token of this kind.
    Token(u16),
    /// One token of whatever kind.
    Any,
    /// What the rule of this number takes, counted from 0.
    Rule(u16),
    /// The parts, one after the other. The empty sequence takes nothing.
    Seq(Items),
    /// The first alternative that does not fail. The empty choice fails.
    Choice(Items),
    /// The part, as often as it does not fail.
    Star(Box<Item>),
    /// The part, or nothing where it fails.
    Maybe(Box<Item>),
    /// Nothing, where the part does not fail.
    And(Box<Item>),
    /// Nothing, where the part fails.
    Not(Box<Item>),
}
