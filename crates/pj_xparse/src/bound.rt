//! The variables that are bound around a place of a text.

ghost use Rattle.std.specs.Prelude.{◌≡◌, ◌∷◌, [], drop, OnOk};
ghost use Rattle.pj_xexpressions.specs.Among.{is_among};
ghost use Rattle.pj_xparse.specs.Bound.{count_in, names_of, IsCounted};

use pj_base::NoMemory;
use std::alloc::Global;
use std::collections::BTreeMap;

/// The names of bound variables, which are looked up by how often each is bound: so many variables do not stand in each other's way.
#[derive(Drop)]
pub struct BoundNames<'t> {
    /// The names, of which the one that was bound last stands last.
    pub names: Vec<&'t str>,
    /// How often each is among them.
    pub counts: BTreeMap<&'t str, usize>,
}

impl<'t> BoundNames<'t> {
    /// No names, which takes no memory.
    pub fn new(alloc: Global) -> BoundNames<'t>
        ensures names { names_of result ≡ [] }
        ensures counts { IsCounted result }
    {
        BoundNames {
            names: Vec::new(alloc),
            counts: BTreeMap::new(alloc),
        }
    }

    /// How often the name is bound.
    fn count(&self, name: &'t str) -> usize
        ensures { result ≡ count_in self.now.counts name.now }
    {
        match self.counts.get(&name) {
            Some(count) => *count,
            None => 0,
        }
    }

    /// Whether the name is bound.
    pub fn contains(&self, name: &'t str) -> bool
        requires { IsCounted self.now }
        ensures { result ≡ is_among name.now (names_of self.now) }
    {
        self.count(name) > 0
    }

    /// Binds one more.
    pub fn bind(&mut self, name: &'t str) -> Result<(), NoMemory>
        requires { IsCounted self.old }
        ensures names { OnOk result (names_of self.new ≡ name.now ∷ names_of self.old) }
        ensures counts { OnOk result (IsCounted self.new) }
    {
        let count = self.count(name);
        self.counts.insert(name, count + 1)?;
        self.names.push(name)?;
        Ok(())
    }

    /// Takes off the one that was bound last, if there is one.
    fn end_last(&mut self) -> Result<(), NoMemory>
        requires { IsCounted self.old }
        ensures names { OnOk result (names_of self.new ≡ drop 1 (names_of self.old)) }
        ensures counts { OnOk result (IsCounted self.new) }
    {
        if let Some(name) = self.names.pop() {
            let count = self.count(name);
            self.counts.insert(name, count.saturating_sub(1))?;
        }
        Ok(())
    }

    /// Takes off so many, those that were bound last.
    pub fn end(&mut self, count: usize) -> Result<(), NoMemory>
        requires { IsCounted self.old }
        ensures names { OnOk result (names_of self.new ≡ drop count (names_of self.old)) }
        ensures counts { OnOk result (IsCounted self.new) }
    {
        'ended: for _ended in 0..count {
            self.end_last()?;
        }
        Ok(())
    }
}
