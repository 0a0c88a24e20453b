//! Lists.
ghost use Rattle.std.specs.Prelude.{◌≡◌, ◌==◌, ◌++◌, ◌∷◌, [], OnOk, OnErr, MatchOption, length, slice_get};
ghost use Rattle.std.specs.List.{list_any};
ghost use Rattle.std.specs.Option.{option_copied};
ghost use Rattle.std.specs.Slice.{IsItemAt};

use crate::copied::Copied;
use crate::exact::Exact;
use crate::memory::NoMemory;
use crate::text::Text;
use std::alloc::Global;
use std::cmp::Ordering;
use std::hash::{Hash, Hasher};
use std::marker::Model;

/// A list, which contracts see as the list of its members.
#[derive(Debug, Drop)]
pub struct ListOf<T> {
    held: Vec<T>,
}

/// A list of names.
pub type Names = ListOf<Text>;

/// The words of a command line, in their order.
pub type Words = ListOf<Text>;

/// A list of numbers.
pub type Numbers = ListOf<u32>;

/// A byte string.
pub type Bytes = ListOf<u8>;

impl<T> Model for ListOf<T> {
    ghost use Rattle.std.specs.Prelude.{List};

    ghost Value = { List T };

    ghost view = { λ list. list.held.items };
}

impl<T> ListOf<T> {
    /// The empty list, which takes no memory.
    pub fn new(alloc: Global) -> ListOf<T>
        ensures { result ≡ [] }
    {
        ListOf {
            held: Vec::new(alloc),
        }
    }

    /// The list of the members of a `Vec`, which takes no memory.
    pub fn from_vec(held: Vec<T>) -> ListOf<T>
        ensures { result ≡ held.items }
    {
        ListOf { held }
    }

    /// The members as a `Vec`, which takes no memory.
    pub fn into_vec(self) -> Vec<T>
        ensures { result.items ≡ self }
    {
        let ListOf { held } = self;
        held
    }

    /// The allocator that the list keeps, for a list that is made beside it.
    pub fn allocator(&self) -> Global {
        *self.held.allocator()
    }

    /// The members, borrowed.
    pub fn as_slice(&self) -> &[T]
        ensures { result.now ≡ self.now }
    {
        self.held.as_slice()
    }

    /// The number of members.
    pub fn len(&self) -> usize
        ensures { result ≡ length self.now }
    {
        self.held.len()
    }

    /// Whether it has no members.
    pub fn is_empty(&self) -> bool
        ensures { result ≡ (length self.now == 0) }
    {
        self.held.is_empty()
    }

    /// The member at a place, counted from 0, or `None` past the end.
    pub fn get(&self, index: usize) -> Option<&T>
        ensures value { option_copied result ≡ slice_get self.now index }
        ensures item { IsItemAt self.now index result }
    {
        self.held.as_slice().get(index)
    }

    /// Whether some member equals `sought`.
    pub fn contains(&self, sought: &T) -> bool
    where
        T: PartialEq,
        ensures { result ≡ list_any (λ member. T.eq member sought.now) self.now }
    {
        self.held.as_slice().contains(sought)
    }

    /// Puts a member at the end.
    pub fn push(&mut self, member: T) -> Result<(), NoMemory>
    where
        T: Drop,
        ensures ok { OnOk result (self.new ≡ self.old ++ member ∷ []) }
        ensures err { OnErr result (self.new ≡ self.old) }
    {
        self.held.push(member)?;
        Ok(())
    }

    /// Puts the members of another list at the end.
    pub fn append(&mut self, more: ListOf<T>) -> Result<(), NoMemory>
    where
        T: Drop,
        ensures ok { OnOk result (self.new ≡ self.old ++ more) }
        ensures err { OnErr result (self.new ≡ self.old) }
    {
        let mut more = more.into_vec();
        self.held.append(&mut more)?;
        Ok(())
    }

    /// Takes the last member, if there is one.
    pub fn pop(&mut self) -> Option<T>
        ensures { MatchOption result ((self.old ≡ []) × (self.new ≡ [])) (λ last. self.old ≡ self.new ++ last ∷ []) }
    {
        self.held.pop()
    }
}

impl<T: Copied + Drop> Copied for ListOf<T> {
    fn copied(&self) -> Result<ListOf<T>, NoMemory> {
        let mut copy = Vec::new(self.allocator());
        for member in self.held.as_slice() {
            copy.push(member.copied()?)?;
        }
        Ok(ListOf { held: copy })
    }
}

impl<T: Exact> Exact for ListOf<T> {
    fn is(&self, other: &ListOf<T>) -> bool {
        let (ours, theirs) = (self.held.as_slice(), other.held.as_slice());
        if ours.len() != theirs.len() {
            return false;
        }
        for i in 0..ours.len() {
            if !ours[i].is(&theirs[i]) {
                return false;
            }
        }
        true
    }
}

impl<T: PartialEq> PartialEq for ListOf<T> {
    ghost use Rattle.std.specs.Cmp.Lexicographic.{pointwise, lists_per};

    ghost eq = { pointwise T.eq };

    ghost laws = { lists_per T.laws };

    fn eq(&self, other: &Self) -> bool {
        self.held == other.held
    }
}

impl<T: Eq> Eq for ListOf<T> {
    ghost use Rattle.std.specs.Cmp.Lexicographic.{lists_equiv};

    ghost laws = { lists_equiv T.Eq.laws };
}

impl<T: Hash> Hash for ListOf<T> {
    ghost use Rattle.std.specs.Hash as fed;
    ghost use Rattle.std.specs.Hash.{items_Alike};

    ghost hash_input = { λ list. fed.slice T.hash_input list };

    ghost respects_eq = { (items_Alike (record { fed = T.respects_eq })).fed };

    fn hash<H: Hasher>(&self, state: &mut H) {
        self.held.as_slice().hash(state);
    }
}

impl<T: PartialOrd> PartialOrd for ListOf<T> {
    ghost use Rattle.std.specs.Cmp.Lexicographic.{lists_po, slice_partial_cmp};

    ghost partial_cmp = { slice_partial_cmp T.partial_cmp };

    ghost laws = { lists_po T.PartialOrd.laws };

    fn partial_cmp(&self, other: &Self) -> Option<Ordering> {
        self.held.partial_cmp(&other.held)
    }
}

impl<T: Ord> Ord for ListOf<T> {
    ghost use Rattle.std.specs.Cmp.Lexicographic.{lists_agrees, lists_ties, lists_total, slice_cmp};

    ghost cmp = { slice_cmp T.cmp };

    ghost total = { lists_total T.total };

    ghost matches_partial_cmp = { λ x y. lists_agrees T.matches_partial_cmp x y };

    ghost matches_eq = { λ x y. lists_ties T.cmp T.matches_eq x y };

    fn cmp(&self, other: &Self) -> Ordering {
        self.held.cmp(&other.held)
    }
}
