//! Properties of rules.
ghost use Rattle.std.specs.Prelude.{◌≡◌, [], IfOk, OnOk};
ghost use Rattle.std.specs.Option.{option_copied};
ghost use Rattle.pj_rule_texts.specs.Rules.{kind_of, put_properties, put_property};

use indexmap::IndexMap;
use pj_base::{Copied, ListOf, NoMemory, Text};
use std::alloc::Global;
use std::marker::Model;

/// A property of a rule, as it is written.
#[derive(Debug, PartialEq, Eq, Drop)]
pub struct Property {
    /// Its name.
    pub name: Text,
    /// The name of its type, empty where none is written.
    pub kind: Text,
    /// Its value.
    pub value: Text,
}

/// The properties of a rule, in order.
pub type Properties = ListOf<Property>;

impl Copied for Property {
    fn copied(&self) -> Result<Property, NoMemory> {
        Ok(Property {
            name: self.name.copied()?,
            kind: self.kind.copied()?,
            value: self.value.copied()?,
        })
    }
}

/// Properties by their names: of two of one name the first gives the place, and the last the type and the value.
#[derive(Drop)]
pub(crate) struct PropertyTable {
    held: IndexMap<Text, (Text, Text)>,
}

impl Model for PropertyTable {
    ghost use Rattle.std.specs.Prelude.{List};
    ghost use Rattle.pj_rule_texts.specs.Tables.{properties_of};
    ghost use Rattle.pj_rule_texts.specs.declared.properties.Property.{Property};

    ghost Value = { List Property };

    ghost view = { λ table. properties_of table.held.entries };
}

impl PropertyTable {
    /// A table without properties.
    pub(crate) fn new(alloc: Global) -> PropertyTable
        ensures { result ≡ [] }
    {
        PropertyTable {
            held: IndexMap::new(alloc),
        }
    }

    /// A table of these properties.
    pub(crate) fn of(alloc: Global, properties: &[Property]) -> Result<PropertyTable, NoMemory>
        ensures { IfOk result (λ table. table ≡ put_properties [] properties.now) }
    {
        let mut table = PropertyTable::new(alloc);
        for property in properties {
            table.put(property.copied()?)?;
        }
        Ok(table)
    }

    /// Puts a property.
    pub(crate) fn put(&mut self, property: Property) -> Result<(), NoMemory>
        ensures { OnOk result (self.new ≡ put_property self.old property) }
    {
        let Property { name, kind, value } = property;
        let _ = self.held.insert(name, (kind, value))?;
        Ok(())
    }

    /// The type of the property of a name.
    pub(crate) fn kind_of(&self, name: &Text) -> Option<&Text>
        ensures { option_copied result ≡ kind_of self.now name.now }
    {
        match self.held.get(name) {
            Some((kind, _)) => Some(kind),
            None => None,
        }
    }

    /// The properties as a list.
    pub(crate) fn into_list(self, alloc: Global) -> Result<Properties, NoMemory>
        ensures { IfOk result (λ properties. properties ≡ self) }
    {
        let PropertyTable { held } = self;
        let mut properties = Properties::new(alloc);
        for (name, (kind, value)) in held {
            properties.push(Property { name, kind, value })?;
        }
        Ok(properties)
    }
}
