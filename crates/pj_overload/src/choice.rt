//! What the choice among methods comes to.

/// What the choice among methods comes to.
#[derive(Clone, Copy, Debug, PartialEq, Eq)]
pub enum Choice {
    /// The method of a number among the candidates, counted from 0.
    One(u32),
    /// No candidate is applicable.
    None,
    /// Several candidates are applicable, of which none is more specific than every other one.
    Tie,
}
