//! The symbols that the parser still expects.
ghost use Rattle.std.specs.Prelude.{◌≡◌, List, [], ◌∷◌, ◌++◌, MatchOption, OnOk, IsTrue, ◌↔◌};
ghost use Rattle.pj_ll.specs.declared.grammar.Symbol.{Symbol};
ghost use Rattle.pj_ll.specs.Grammar.{closes};
ghost use Rattle.pj_ll.specs.Stack.{behind_top};

use crate::grammar::Symbol;
use pj_base::NoMemory;
use std::alloc::Global;
use std::marker::Model;

/// The symbols that are still to come. Clauses see the next one first.
#[derive(Drop)]
pub struct Stack {
    /// The next symbol stands last.
    symbols: Vec<Symbol>,
    ends: usize,
}

impl Model for Stack {
    ghost use Rattle.std.specs.Prelude.{◌≡◌, List, reverse};
    ghost use Rattle.pj_ll.specs.declared.grammar.Symbol.{Symbol};
    ghost use Rattle.pj_ll.specs.Grammar.{closes};

    ghost Value = { List Symbol };

    ghost view = { λ s. reverse s.symbols.items };

    ghost invariant = { λ s. s.ends ≡ closes s.symbols.items };
}

/// How many ends of what nests a symbol is.
fn closing(symbol: Symbol) -> usize
    ensures { result ≡ closes (symbol ∷ []) }
{
    match symbol {
        Symbol::Close => 1,
        Symbol::Terminal(_) | Symbol::Rule(_) | Symbol::LeftOut(_) => 0,
    }
}

impl Stack {
    /// No symbols, which takes no memory.
    pub fn new(alloc: Global) -> Stack
        ensures { result ≡ [] }
    {
        Stack {
            symbols: Vec::new(alloc),
            ends: 0,
        }
    }

    /// How many ends of what nests are still to come.
    pub fn closes(&self) -> usize
        ensures { result ≡ closes self.now }
    {
        self.ends
    }

    /// Whether no symbol is still to come.
    pub fn is_empty(&self) -> bool
        ensures { IsTrue result ↔ (self.now ≡ []) }
    {
        self.symbols.is_empty()
    }

    /// The next symbol.
    pub fn top(&self) -> Option<Symbol>
        ensures { MatchOption result (self.now ≡ []) (λ s. self.now ≡ s ∷ behind_top self.now) }
    {
        self.symbols.last().copied()
    }

    /// Whether this symbol is the next one.
    pub fn begins_with(&self, symbol: Symbol) -> bool
        ensures { IsTrue result ↔ (self.now ≡ symbol ∷ behind_top self.now) }
    {
        match self.top() {
            None => false,
            Some(top) => top == symbol,
        }
    }

    /// Takes the next symbol off.
    pub fn pop(&mut self)
        ensures { self.new ≡ behind_top self.old }
    {
        if let Some(symbol) = self.symbols.pop() {
            self.ends -= closing(symbol);
        }
    }

    /// Puts a symbol before the others.
    fn push(&mut self, symbol: Symbol) -> Result<(), NoMemory>
        ensures { OnOk result (self.new ≡ symbol ∷ self.old) }
    {
        self.symbols.push(symbol)?;
        self.ends += closing(symbol);
        Ok(())
    }

    /// Puts the symbols before the others.
    pub fn put(&mut self, symbols: &[Symbol]) -> Result<(), NoMemory>
        ensures { OnOk result (self.new ≡ symbols.now ++ self.old) }
    {
        let mut left = symbols.len();
        while left > 0 {
            left -= 1;
            self.push(symbols[left])?;
        }
        Ok(())
    }
}
