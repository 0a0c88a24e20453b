//! An expression with its patterns.

use pj_xexpressions::Expr;
use pj_xpatterns::Patterns;

/// An expression with its patterns, each compiled once.
#[derive(Drop)]
pub struct Spelled {
    /// The expression that a text spells.
    pub expr: Expr,
    /// The patterns that stand in it.
    pub patterns: Patterns,
}
