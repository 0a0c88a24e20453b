//! The values of attributes.

ghost use Rattle.std.specs.Prelude.{◌≡◌, ◌<◌, length, IfSome, IsTrue};
ghost use Rattle.std.specs.Option.{option_map};
ghost use Rattle.pj_attrs.specs.Attribute.{attribute, value_of};
ghost use Rattle.pj_parse.specs.Parses.{file_parsed};
ghost use Rattle.pj_properties.specs.OneFile.{IsOneFile};
ghost use Rattle.pj_xvalue.specs.Attributes.{attribute_value, is_typed};

use crate::names::property_named;
use pj_parse::Parsed;
use pj_properties::{Property, flag_value, number_value, text_value};
use pj_symbols::Symbols;
use pj_tree::Node;
use pj_xvalue::Value;

/// The value of a property of the node, if it has one.
#[tactic(auto, unfolding(crate::specs::Attribute::value_of))]
fn value_of<'t>(
    property: Property,
    parsed: &'t Parsed<'t>,
    symbols: &'t Symbols,
    n: Node,
) -> Option<Value<'t>>
    requires inside { n.0 < length parsed.now.tree.nodes }
    requires one_file { IsOneFile parsed.now symbols.now }
    ensures { option_map attribute_value result ≡ value_of property (file_parsed parsed.now) n }
{
    match property {
        Property::Text(property) => match text_value(property, parsed, symbols, n) {
            Some(text) => Some(Value::Str(text)),
            None => None,
        },
        Property::Number(property) => match number_value(property, parsed, symbols, n) {
            Some(number) => Some(Value::Int(number)),
            None => None,
        },
        Property::Flag(property) => Some(Value::Bool(flag_value(property, parsed, symbols, n))),
    }
}

/// The value that the table has under the name.
fn value_named<'t>(
    parsed: &'t Parsed<'t>,
    symbols: &'t Symbols,
    n: Node,
    name: &str,
) -> Option<Value<'t>>
    requires inside { n.0 < length parsed.now.tree.nodes }
    requires one_file { IsOneFile parsed.now symbols.now }
    ensures { option_map attribute_value result ≡ attribute (file_parsed parsed.now) n name.now }
{
    match property_named(parsed.tree.kind(n), name) {
        Some(property) => value_of(property, parsed, symbols, n),
        None => None,
    }
}

/// The value of the node's attribute of the name. `None` comes exactly where the node has none: where nodes of its kind have
/// no attribute of the name, or where this one is absent.
pub fn attribute<'t>(
    parsed: &'t Parsed<'t>,
    symbols: &'t Symbols,
    n: Node,
    name: &str,
) -> Option<Value<'t>>
    requires inside { n.0 < length parsed.now.tree.nodes }
    requires one_file { IsOneFile parsed.now symbols.now }
    ensures value { option_map attribute_value result ≡ attribute (file_parsed parsed.now) n name.now }
    ensures typed { IfSome result (λ value. IsTrue (is_typed name.now (attribute_value value))) }
{
    value_named(parsed, symbols, n, name)
}
