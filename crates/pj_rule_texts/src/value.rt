//! Values of properties.
ghost use Rattle.std.specs.Prelude.{◌≡◌, ◌++◌, [], ◌∷◌, IfOk, OnOk, map};
ghost use Rattle.std.specs.List.{flat_map};
ghost use Rattle.std.specs.Str.{chars};
ghost use Rattle.pj_xvalue.specs.Items.{Integer, String, values_of};
ghost use Rattle.pj_rule_texts.specs.Values.{boolean_of, integers_of, is_one, members_of, typed_value, value_of_type, variable_of};
ghost use Rattle.pj_rule_texts.specs.Seen.{value_seen, variables_seen};

use crate::draft::needs_no_type;
use crate::members::members_of;
use crate::numbers::{integer_of, long_of};
use crate::properties::Property;
use crate::types::{PropertyType, type_named};
use pj_base::{Copied, Names, NoMemory, Text, split_first};
use pj_xvalue::{BoundVars, Item, Sequence};
use std::alloc::Global;

/// The truth value that a text spells.
fn boolean_of(text: &str) -> Option<bool>
    ensures { result ≡ boolean_of text.now }
{
    match text {
        "true" => Some(true),
        "false" => Some(false),
        _ => None,
    }
}

/// Whether the text is one character.
fn is_character(text: &str) -> bool
    ensures { result ≡ is_one (chars text.now) }
{
    match split_first(text) {
        Some((_, rest)) => match split_first(rest) {
            Some(_) => false,
            None => true,
        },
        None => false,
    }
}

/// The sequence of one item.
fn one(alloc: Global, item: Item<'static>) -> Result<Sequence<'static>, NoMemory>
    ensures { IfOk result (λ sequence. sequence ≡ item.entry ∷ []) }
{
    let mut sequence = Sequence::new(alloc);
    sequence.push(item)?;
    Ok(sequence)
}

/// The sequence of one string.
fn string(alloc: Global, text: &str) -> Result<Sequence<'static>, NoMemory>
    ensures { IfOk result (λ sequence. values_of sequence ≡ String text.now ∷ []) }
{
    one(alloc, Item::Str(Text::from_str(alloc, text)?))
}

/// A sequence of strings.
fn strings(alloc: Global, members: Names) -> Result<Sequence<'static>, NoMemory>
    ensures { IfOk result (λ sequence. values_of sequence ≡ map String members) }
{
    let mut sequence = Sequence::new(alloc);
    for member in members.into_vec() {
        sequence.push(Item::Str(member))?;
    }
    Ok(sequence)
}

/// Puts an integer at the end.
fn put_integer(sequence: &mut Sequence<'static>, number: i32) -> Result<(), NoMemory>
    ensures { OnOk result (values_of sequence.new ≡ values_of sequence.old ++ Integer number ∷ []) }
{
    sequence.push(Item::Int(i64::from(number)))
}

/// A sequence of the integers that the members write, where each writes one.
fn integers(alloc: Global, members: &[Text]) -> Result<Option<Sequence<'static>>, NoMemory>
    ensures { IfOk result (λ sequence. value_seen sequence ≡ integers_of members.now) }
{
    let mut sequence = Sequence::new(alloc);
    for member in members {
        match integer_of(member.as_str()) {
            Some(number) => put_integer(&mut sequence, number)?,
            None => return Ok(None),
        }
    }
    Ok(Some(sequence))
}

/// The value of a type that a text spells.
fn value_of_type(
    alloc: Global,
    kind: PropertyType,
    text: &str,
) -> Result<Option<Sequence<'static>>, NoMemory>
    ensures { IfOk result (λ value. value_seen value ≡ value_of_type kind text.now) }
{
    match kind {
        PropertyType::String => Ok(Some(string(alloc, text)?)),
        PropertyType::Boolean => match boolean_of(text) {
            Some(value) => Ok(Some(one(alloc, Item::Bool(value))?)),
            None => Ok(None),
        },
        PropertyType::Integer => match integer_of(text) {
            Some(number) => Ok(Some(one(alloc, Item::Int(i64::from(number)))?)),
            None => Ok(None),
        },
        PropertyType::Long => match long_of(text) {
            Some(number) => Ok(Some(one(alloc, Item::Int(number))?)),
            None => Ok(None),
        },
        PropertyType::Character => {
            if is_character(text) {
                Ok(Some(string(alloc, text)?))
            } else {
                Ok(None)
            }
        }
        PropertyType::Regex => Ok(Some(string(alloc, text)?)),
        PropertyType::StringList => Ok(Some(strings(alloc, members_of(alloc, text)?)?)),
        PropertyType::IntegerList => integers(alloc, members_of(alloc, text)?.as_slice()),
    }
}

/// The value of a property of the type that is named so, as a sequence (XPath 2.0, 2.4): `None` where there is no such type or
/// the text is outside it.
pub fn typed_value(
    alloc: Global,
    kind: &str,
    text: &str,
) -> Result<Option<Sequence<'static>>, NoMemory>
    ensures { IfOk result (λ value. value_seen value ≡ typed_value kind.now text.now) }
{
    match type_named(kind) {
        Some(kind) => value_of_type(alloc, kind, text),
        None => Ok(None),
    }
}

/// Puts the variable of a property at the end, where it is one.
fn put_variable(
    alloc: Global,
    property: &Property,
    variables: &mut BoundVars<'static>,
) -> Result<(), NoMemory>
    ensures { OnOk result (variables_seen variables.new ≡ variables_seen variables.old ++ variable_of property.now) }
{
    if needs_no_type(property.name.as_str()) {
        return Ok(());
    }
    match typed_value(alloc, property.kind.as_str(), property.value.as_str())? {
        Some(value) => variables.push((property.name.copied()?, value)),
        None => Ok(()),
    }
}

/// The variables of a rule with their values, in the order of its properties: each property is one but those that need no type.
pub fn variables_of(alloc: Global, properties: &[Property]) -> Result<BoundVars<'static>, NoMemory>
    ensures { IfOk result (λ variables. variables_seen variables ≡ flat_map variable_of properties.now) }
{
    let mut variables = BoundVars::new(alloc);
    for property in properties {
        put_variable(alloc, property, &mut variables)?;
    }
    Ok(variables)
}
