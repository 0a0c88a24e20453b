//! The elements around the one that is read.

ghost use Rattle.std.specs.Prelude.{◌≡◌, ◌∷◌, [], OnOk, MatchOption, length};

use crate::element::Open;
use pj_base::{ListOf, NoMemory};
use std::alloc::Global;
use std::marker::Model;

/// The open elements around the one that is read. Clauses see the innermost first.
#[derive(Drop)]
pub struct Around {
    /// The innermost one stands last.
    elements: ListOf<Open>,
}

impl Model for Around {
    ghost use Rattle.std.specs.Prelude.{List, reverse};
    ghost use Rattle.pj_markup.specs.declared.element.Open.{Open};

    ghost Value = { List Open };

    ghost view = { λ a. reverse a.elements };
}

impl Around {
    /// No elements, which takes no memory.
    pub fn new(alloc: Global) -> Around
        ensures { result ≡ [] }
    {
        Around {
            elements: ListOf::new(alloc),
        }
    }

    /// How many they are.
    pub fn len(&self) -> usize
        ensures { result ≡ length self.now }
    {
        self.elements.len()
    }

    /// Puts an element within the others.
    pub fn push(&mut self, element: Open) -> Result<(), NoMemory>
        ensures { OnOk result (self.new ≡ element ∷ self.old) }
    {
        self.elements.push(element)
    }

    /// Takes the innermost one.
    pub fn pop(&mut self) -> Option<Open>
        ensures { MatchOption result ((self.old ≡ []) × (self.new ≡ [])) (λ element. self.old ≡ element ∷ self.new) }
    {
        self.elements.pop()
    }
}
