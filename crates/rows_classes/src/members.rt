//! Fields and methods of a name along the supertypes of a class.
use crate::classes::{class_name, oracle_of};
use crate::row_fault::{RowFault, answer_text};
use crate::shown::{put_asked, put_type, put_types};
use pj_base::{NoMemory, Text};
use pj_members::{
    field_of_receiver, find_field, methods_named, methods_of_receiver, supertype_of_receiver,
};
use pj_names::{Bindings, ClassName, MapOracle, Ty, Types};
use pj_rows::{Row, Section, Table};
use pj_signatures::field_signature;
use pj_types::{Field, Method, Methods};
use std::alloc::Global;

/// The table.
pub struct MembersOfClasses;

impl Table for MembersOfClasses {
    fn has_setting(&self, name: &str) -> bool {
        name == "class"
    }

    fn answer(&self, alloc: Global, section: &Section, row: &Row) -> Result<String, NoMemory> {
        answer_text(alloc, answer(alloc, section, row.given.as_str()))
    }
}

/// The members of a class and a name, as `p.A.x`, or `p.A.m()` for methods; with `in` and a type behind it those of a receiver. With `above` and a type it is a
/// supertype of that receiver.
fn answer(alloc: Global, section: &Section, given: &str) -> Result<String, RowFault> {
    let oracle = oracle_of(alloc, section)?;
    if let Some((wanted, receiver)) = given.split_once(" above ") {
        return supertype(alloc, oracle, wanted, receiver);
    }
    if let Some((member, receiver)) = given.split_once(" in ") {
        return of_receiver(alloc, oracle, member, receiver);
    }
    let (member, are_methods) = match given.strip_suffix("()") {
        Some(member) => (member, true),
        None => (given, false),
    };
    let Some((class, name)) = member.rsplit_once('.') else {
        return Err(RowFault::Unread("no class and name"));
    };
    if are_methods {
        methods(alloc, oracle, class, name)
    } else {
        field(alloc, oracle, class, name)
    }
}

fn put_field(text: &mut Text, field: &Field, name: &str) -> Result<(), NoMemory> {
    put_type(text, &field.ty)?;
    text.push_str(" ")?;
    text.push_str(field.owner.as_str())?;
    text.push_str(".")?;
    text.push_str(name)
}

/// The field of a name, and the names that are asked.
fn field(alloc: Global, oracle: MapOracle, class: &str, name: &str) -> Result<String, RowFault> {
    let mut oracle = oracle;
    let class = class_name(alloc, class)?;
    let mut text = Text::new(alloc);
    match find_field(alloc, &mut oracle, &class, name)? {
        Some(field) => put_field(&mut text, &field, name)?,
        None => text.push_str("none")?,
    }
    put_asked(&mut text, alloc, &oracle, "; asks")?;
    Ok(text.into_string())
}

/// The class and the type arguments of a receiver.
fn receiver_of(alloc: Global, receiver: &str) -> Result<(ClassName, Types), RowFault> {
    match field_signature(alloc, receiver)? {
        Some(Ty::Class(class, arguments)) => Ok((class, arguments)),
        _ => Err(RowFault::Unread("no class as a receiver")),
    }
}

/// The field of a receiver of a type, as `x`, or its methods, as `m()`, and the names that are asked.
fn of_receiver(
    alloc: Global,
    oracle: MapOracle,
    member: &str,
    receiver: &str,
) -> Result<String, RowFault> {
    let mut oracle = oracle;
    let (class, arguments) = receiver_of(alloc, receiver)?;
    let mut text = Text::new(alloc);
    match member.strip_suffix("()") {
        Some(name) => {
            let methods = methods_of_receiver(alloc, &mut oracle, &class, &arguments, name)?;
            put_methods(&mut text, &methods)?;
        }
        None => match field_of_receiver(alloc, &mut oracle, &class, &arguments, member)? {
            Some(field) => put_field(&mut text, &field, member)?,
            None => text.push_str("none")?,
        },
    }
    put_asked(&mut text, alloc, &oracle, "; asks")?;
    Ok(text.into_string())
}

/// A class among the supertypes of a receiver, with its type arguments there, and the names that are asked.
fn supertype(
    alloc: Global,
    oracle: MapOracle,
    wanted: &str,
    receiver: &str,
) -> Result<String, RowFault> {
    let mut oracle = oracle;
    let (class, arguments) = receiver_of(alloc, receiver)?;
    let mut text = Text::new(alloc);
    match supertype_of_receiver(alloc, &mut oracle, &class, &arguments, wanted)? {
        Some(given) => put_type(&mut text, &Ty::Class(class_name(alloc, wanted)?, given))?,
        None => text.push_str("none")?,
    }
    put_asked(&mut text, alloc, &oracle, "; asks")?;
    Ok(text.into_string())
}

/// Puts type parameters with their bounds in angle brackets, where there are some.
fn put_parameters(text: &mut Text, parameters: &Bindings) -> Result<(), NoMemory> {
    for (place, (name, bound)) in parameters.as_slice().iter().enumerate() {
        text.push_str(if place > 0 { "," } else { "<" })?;
        text.push_str(name.as_str())?;
        text.push_str(":")?;
        put_type(text, bound)?;
    }
    text.push_str(if parameters.is_empty() { "" } else { "> " })
}

fn put_method(text: &mut Text, method: &Method) -> Result<(), NoMemory> {
    text.push_str(if method.flags == 1 {
        "public "
    } else {
        "not public "
    })?;
    put_parameters(text, &method.signature.params)?;
    put_type(text, &method.signature.result)?;
    text.push_str(" ")?;
    text.push_str(method.owner.as_str())?;
    text.push_str(".")?;
    text.push_str(method.name.as_str())?;
    text.push_str("(")?;
    put_types(text, &method.signature.arguments)?;
    text.push_str(")")
}

/// Puts methods, a semicolon between them, or `none`.
fn put_methods(text: &mut Text, methods: &Methods) -> Result<(), NoMemory> {
    for (place, method) in methods.as_slice().iter().enumerate() {
        text.push_str(if place > 0 { "; " } else { "" })?;
        put_method(text, method)?;
    }
    text.push_str(if methods.is_empty() { "none" } else { "" })
}

/// The methods of a name, and the names that are asked.
fn methods(alloc: Global, oracle: MapOracle, class: &str, name: &str) -> Result<String, RowFault> {
    let mut oracle = oracle;
    let class = class_name(alloc, class)?;
    let methods = methods_named(alloc, &mut oracle, &class, name)?;
    let mut text = Text::new(alloc);
    put_methods(&mut text, &methods)?;
    put_asked(&mut text, alloc, &oracle, "; asks")?;
    Ok(text.into_string())
}
