//! Operators.

/// An operator of a general comparison (XPath 2.0, 3.5.2).
#[derive(Clone, Copy, Debug, PartialEq, Eq)]
pub enum Compare {
    /// `=`
    Equal,
    /// `!=`
    NotEqual,
    /// `<`
    Less,
    /// `<=`
    LessOrEqual,
    /// `>`
    Greater,
    /// `>=`
    GreaterOrEqual,
}

/// The word of a quantified expression (XPath 2.0, 3.9).
#[derive(Clone, Copy, Debug, PartialEq, Eq)]
pub enum Quantifier {
    /// `some`
    Some,
    /// `every`
    Every,
}

/// An operator of a sum (XPath 2.0, 3.4).
#[derive(Clone, Copy, Debug, PartialEq, Eq)]
pub enum Additive {
    /// `+`
    Plus,
    /// `-`
    Minus,
}

/// An operator of a product (XPath 2.0, 3.4).
#[derive(Clone, Copy, Debug, PartialEq, Eq)]
pub enum Multiplicative {
    /// `*`
    Times,
    /// `idiv`
    IntegerDivide,
    /// `mod`
    Modulo,
}

/// An operator on sets of nodes, of the level above `union` (XPath 2.0, 3.3.3).
#[derive(Clone, Copy, Debug, PartialEq, Eq)]
pub enum SetOperator {
    /// `intersect`
    Intersect,
    /// `except`
    Except,
}

/// A sign before an operand (XPath 2.0, 3.4).
#[derive(Clone, Copy, Debug, PartialEq, Eq)]
pub enum Sign {
    /// `+`
    Plus,
    /// `-`
    Minus,
}
