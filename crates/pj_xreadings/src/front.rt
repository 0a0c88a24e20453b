//! Lists that grow at their front.

ghost use Rattle.std.specs.Prelude.{◌≡◌, ◌≢◌, ◌==◌, [], ◌∷◌, length, reverse, IfOk, MatchResult};

use pj_base::NoMemory;
use std::alloc::Global;
use std::marker::Model;

/// A list that grows at its front, which contracts see as the list of its members.
#[derive(Drop)]
pub struct Front<T> {
    /// The first member stands last.
    reversed: Vec<T>,
}

impl<T> Model for Front<T> {
    ghost use Rattle.std.specs.Prelude.{List, reverse};

    ghost Value = { List T };

    ghost view = { λ list. reverse list.reversed.items };
}

impl<T> Front<T> {
    /// The empty list, which takes no memory.
    pub fn new(alloc: Global) -> Front<T>
        ensures { result ≡ [] }
    {
        Front {
            reversed: Vec::new(alloc),
        }
    }

    /// The list with a member before the others.
    pub fn put(mut self, first: T) -> Result<Front<T>, NoMemory>
    where
        T: Drop,
        ensures { IfOk result (λ more. more ≡ first ∷ self) }
    {
        self.reversed.push(first)?;
        Ok(self)
    }

    /// Whether it has no members.
    pub fn is_empty(&self) -> bool
        ensures { result ≡ (length self.now == 0) }
    {
        self.reversed.is_empty()
    }

    /// The members in their order.
    pub fn into_vec(mut self) -> Vec<T>
        ensures { result.items ≡ self }
    {
        self.reversed.reverse();
        self.reversed
    }

    /// The members from the last one on.
    pub fn into_reversed(self) -> Vec<T>
        ensures { reverse result.items ≡ self }
    {
        self.reversed
    }

    /// The only member, or the list where it has none or several.
    pub fn into_only(mut self) -> Result<T, Front<T>>
    where
        T: Drop,
        ensures { MatchResult result (λ only. self ≡ only ∷ []) (λ list. (list ≡ self) × (length self ≢ 1)) }
    {
        if self.reversed.len() != 1 {
            return Err(self);
        }
        match self.reversed.pop() {
            Some(only) => Ok(only),
            None => Err(self),
        }
    }
}
