//! Grammars whose productions have select sets.

/// One symbol of a production.
#[derive(Clone, Copy, Debug, PartialEq, Eq)]
pub enum Symbol {
    /// The terminal itself.
    Terminal(u16),
    /// What a production of the rule spells.
    Rule(u16),
    /// A construct that the language leaves out would begin here, with the terminal. It derives nothing.
    LeftOut(u16),
    /// Something that nests ends here. It takes no terminal.
    Close,
}

/// A piece of a grammar as one list: each production's rule, then its symbols and its select set.
#[derive(Clone, Copy, Debug, PartialEq, Eq)]
pub enum Piece {
    /// A production of the rule begins. Productions are numbered from 0 in their order.
    Production(u16),
    /// The next symbol is the terminal.
    Terminal(u16),
    /// The next symbol is the rule.
    Rule(u16),
    /// The next symbol is what is left out and would begin with the terminal.
    LeftOut(u16),
    /// The next symbol is an end of something that nests.
    Close,
    /// The parser chooses the production at the terminal. The terminals of one production ascend.
    On(u16),
    /// The parser chooses the production at the end of the text.
    AtEnd,
}

/// A production with its select set.
#[derive(Drop)]
pub(crate) struct Production {
    pub rule: u16,
    pub symbols: Vec<Symbol>,
    pub on: Vec<u16>,
    pub at_end: bool,
}
