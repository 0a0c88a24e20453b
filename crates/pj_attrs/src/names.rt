//! The names of attributes, and what each stands for.

ghost use Rattle.std.specs.Prelude.{◌≡◌, ◌<◌, ◌^◌, ◌-◌, IsTrue, length, map};
ghost use Rattle.pj_attrs.specs.Attribute.{attribute_names, property_named};
ghost use Rattle.pj_xvalue.specs.Attributes.{are_different};

use crate::table::table_of;
use pj_base::value_in;
use pj_properties::Property;
use pj_tree::Kind;

/// The names of the attributes of nodes of the kind, in order, each once.
pub fn attribute_names(kind: Kind) -> &'static [&'static str]
    ensures names { map (λ name. name.now) result.now ≡ attribute_names kind }
    ensures once { IsTrue (are_different (map (λ name. name.now) result.now)) }
    ensures few { length result.now < 2 ^ 32 - 1 }
{
    table_of(kind).names
}

/// The property that gives the attribute of the name, of nodes of the kind. `None` comes exactly where they have no attribute
/// of the name.
pub fn property_named(kind: Kind, name: &str) -> Option<Property>
    ensures { result ≡ property_named kind name.now }
{
    value_in(table_of(kind).rows, name)
}
