//! The attributes of a start tag, with their names in a set.

ghost use Rattle.std.specs.Prelude.{◌≡◌, ◌++◌, ◌∷◌, [], IfOk};
ghost use Rattle.pj_markup.specs.Names.{has_name};

use crate::element::Attribute;
use pj_base::{Copied, ListOf, NoMemory, Text};
use std::alloc::Global;
use std::collections::BTreeSet;
use std::marker::Model;

/// The attributes of a tag in their order, whose names are found without a walk over them. Clauses see the list.
#[derive(Drop)]
pub struct Attributes {
    list: ListOf<Attribute>,
    names: BTreeSet<Text>,
}

impl Model for Attributes {
    ghost use Rattle.std.specs.Prelude.{List};
    ghost use Rattle.pj_markup.specs.declared.element.Attribute.{Attribute};
    ghost use Rattle.pj_markup.specs.Names.{AreNames};

    ghost Value = { List Attribute };

    ghost view = { λ a. a.list };

    ghost invariant = { λ a. AreNames a.names.keys a.list };
}

impl Attributes {
    /// No attributes, which takes no memory.
    pub fn new(alloc: Global) -> Attributes
        ensures { result ≡ [] }
    {
        Attributes {
            list: ListOf::new(alloc),
            names: BTreeSet::new(alloc),
        }
    }

    /// Whether one of them has the name.
    pub fn contains(&self, name: &Text) -> bool
        ensures { result ≡ has_name name.now self.now }
    {
        self.names.contains(name)
    }

    /// These with one more attribute behind them.
    pub fn with(self, name: Text, value: Text) -> Result<Attributes, NoMemory>
        ensures { IfOk result (λ more. more ≡ self ++ record { name = name; value = value } ∷ []) }
    {
        let Attributes {
            mut list,
            mut names,
        } = self;
        names.insert(name.copied()?)?;
        list.push(Attribute { name, value })?;
        Ok(Attributes { list, names })
    }

    /// The list of them, which takes no memory.
    pub fn into_list(self) -> ListOf<Attribute>
        ensures { result ≡ self }
    {
        let Attributes { list, names } = self;
        drop(names);
        list
    }
}
