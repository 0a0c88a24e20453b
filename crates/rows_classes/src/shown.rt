//! Types and names as the rows write them.
use pj_base::{NoMemory, Text};
use pj_names::{MapOracle, Prim, Ty, TyList, Types};
use std::alloc::Global;

/// The word of a primitive type.
pub fn word(prim: Prim) -> &'static str {
    match prim {
        Prim::Boolean => "boolean",
        Prim::Byte => "byte",
        Prim::Short => "short",
        Prim::Int => "int",
        Prim::Long => "long",
        Prim::Char => "char",
        Prim::Float => "float",
        Prim::Double => "double",
    }
}

/// Whether a type is a type variable.
fn is_variable(ty: &Ty) -> bool {
    matches!(ty, Ty::Var(_, _))
}

/// Puts a type at the end, as in Java; a type variable with its bound behind a colon.
#[cycle(shown_types)]
pub fn put_type(text: &mut Text, ty: &Ty) -> Result<(), NoMemory> {
    match ty {
        Ty::Prim(prim) => text.push_str(word(*prim)),
        Ty::Void => text.push_str("void"),
        Ty::Null => text.push_str("null"),
        Ty::Unknown => text.push_str("?"),
        Ty::Class(name, arguments) => {
            text.push_str(name.as_str())?;
            put_arguments(text, arguments, "<")?;
            text.push_str(if matches!(arguments, Types::End) {
                ""
            } else {
                ">"
            })
        }
        Ty::Array(member) => {
            let is_in_parentheses = is_variable(member);
            text.push_str(if is_in_parentheses { "(" } else { "" })?;
            put_type(text, member)?;
            text.push_str(if is_in_parentheses { ")[]" } else { "[]" })
        }
        Ty::Var(name, bound) => {
            text.push_str(name.as_str())?;
            text.push_str(":")?;
            put_type(text, bound)
        }
    }
}

/// Puts type arguments at the end, this before the first one and a comma before each other one.
#[cycle(shown_types)]
fn put_arguments(text: &mut Text, arguments: &Types, before: &str) -> Result<(), NoMemory> {
    match arguments {
        Types::End => Ok(()),
        Types::More(first, rest) => {
            text.push_str(before)?;
            put_type(text, first)?;
            put_arguments(text, rest, ",")
        }
    }
}

/// Puts types at the end, a comma between them.
pub fn put_types(text: &mut Text, types: &TyList) -> Result<(), NoMemory> {
    for (place, ty) in types.as_slice().iter().enumerate() {
        text.push_str(if place > 0 { "," } else { "" })?;
        put_type(text, ty)?;
    }
    Ok(())
}

/// A type as the rows write it.
pub fn type_text(alloc: Global, ty: &Ty) -> Result<Text, NoMemory> {
    let mut text = Text::new(alloc);
    put_type(&mut text, ty)?;
    Ok(text)
}

/// A text of its own.
pub fn text_of(alloc: Global, text: &str) -> Result<String, NoMemory> {
    Ok(String::from_str(alloc, text)?)
}

/// Puts the names that were asked in the order of their bytes, this before them; nothing where none was.
pub fn put_asked(
    text: &mut Text,
    alloc: Global,
    oracle: &MapOracle,
    before: &str,
) -> Result<(), NoMemory> {
    for (place, name) in oracle.asked().names(alloc)?.as_slice().iter().enumerate() {
        text.push_str(if place == 0 { before } else { "" })?;
        text.push_str(" ")?;
        text.push_str(name.as_str())?;
    }
    Ok(())
}
