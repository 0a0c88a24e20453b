//! A grammar's items as a flat list of nodes.

/// A node, which names its parts by their indices; these are below its own.
#[derive(Clone, Copy)]
pub enum Node {
    /// One token of this kind.
    Token(u16),
    /// One token of whatever kind.
    Any,
    /// What the rule of this number takes.
    Rule(u16),
    /// The empty sequence.
    Nothing,
    /// The empty choice.
    Never,
    /// The first part, and the sequence of the others.
    Seq(usize, usize),
    /// The first alternative, and the choice among the others.
    Choice(usize, usize),
    /// The part, and the number of this repetition among all of the grammar.
    Star(usize, usize),
    /// The part, or nothing where it fails.
    Maybe(usize),
    /// Nothing, where the part does not fail.
    And(usize),
    /// Nothing, where the part fails.
    Not(usize),
}

/// The nodes, the node of each rule, and the part of each repetition.
#[derive(Drop)]
pub struct Program {
    /// The nodes of all rules.
    pub nodes: Vec<Node>,
    /// The index of each rule's node.
    pub roots: Vec<usize>,
    /// The index of the part of each repetition, by the repetition's number.
    pub stars: Vec<usize>,
}
