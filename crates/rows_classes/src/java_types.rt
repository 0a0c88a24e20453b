//! Types as calls write them, with simple names of classes.
use crate::classes::class_name;
use crate::row_fault::RowFault;
use pj_base::{Text, value_in};
use pj_names::{ClassName, Prim, Ty, Types};
use std::alloc::Global;

static PRIMITIVE_TYPES: [(&str, Prim); 8] = [
    ("boolean", Prim::Boolean),
    ("byte", Prim::Byte),
    ("short", Prim::Short),
    ("int", Prim::Int),
    ("long", Prim::Long),
    ("char", Prim::Char),
    ("float", Prim::Float),
    ("double", Prim::Double),
];

/// The class with a simple name among classes, each of which stands on a line with its name at the front.
fn class_named(alloc: Global, classes: &str, simple: &str) -> Result<ClassName, RowFault> {
    for line in classes.lines() {
        let name = line.split(' ').next().unwrap_or("");
        if let Some((_, last)) = name.rsplit_once('.')
            && last == simple
        {
            return class_name(alloc, name);
        }
    }
    Err(RowFault::Unread("no class has this simple name"))
}

/// A class with at most one type argument, as `List<String>`.
fn class_type(alloc: Global, classes: &str, word: &str) -> Result<Ty, RowFault> {
    let Some((name, argument)) = word.split_once('<') else {
        return Ok(Ty::Class(class_named(alloc, classes, word)?, Types::End));
    };
    let argument = argument.strip_suffix(">").unwrap_or("");
    let argument = Ty::Class(class_named(alloc, classes, argument)?, Types::End);
    let arguments = Types::More(Box::new(alloc, argument)?, Box::new(alloc, Types::End)?);
    Ok(Ty::Class(class_named(alloc, classes, name)?, arguments))
}

/// A type that is no array: a primitive type, `void`, `null`, `?` for one that is not known, a class, or a type variable with its
/// bound, as `T:Number`.
fn simple_type(alloc: Global, classes: &str, word: &str) -> Result<Ty, RowFault> {
    if let Some(prim) = value_in(&PRIMITIVE_TYPES, word) {
        return Ok(Ty::Prim(prim));
    }
    if let Some((name, bound)) = word.split_once(':') {
        let bound = class_type(alloc, classes, bound)?;
        return Ok(Ty::Var(Text::from_str(alloc, name)?, Box::new(alloc, bound)?));
    }
    match word {
        "void" => Ok(Ty::Void),
        "null" => Ok(Ty::Null),
        "?" => Ok(Ty::Unknown),
        _ => class_type(alloc, classes, word),
    }
}

/// A type with at most three dimensions.
pub fn type_of(alloc: Global, classes: &str, word: &str) -> Result<Ty, RowFault> {
    let mut rest = word;
    let mut dimensions = 0u32;
    for _dimension in 0..3 {
        if let Some(member) = rest.strip_suffix("[]") {
            rest = member;
            dimensions = dimensions.saturating_add(1);
        }
    }
    let mut ty = simple_type(alloc, classes, rest)?;
    for _dimension in 0..dimensions {
        ty = Ty::Array(Box::new(alloc, ty)?);
    }
    Ok(ty)
}
