//! Names of variables.
use crate::question::Asked;
use pj_base::{NoMemory, Text};
use pj_names::{AskFault, Oracle, Ty};
use pj_outer_names::File;
use pj_row_java::{Over, place_of, primitive_word, put_declaration};
use pj_scopes::{Variable, variable_name};
use pj_types::Field;
use std::alloc::Global;

/// The word of a type: its class or its variable without arguments and bound, and `[]` for every array.
fn word_of(ty: &Ty) -> &str {
    match ty {
        Ty::Prim(prim) => primitive_word(*prim),
        Ty::Array(_) => "[]",
        Ty::Class(name, _) => name.as_str(),
        Ty::Var(name, _) => name.as_str(),
        Ty::Void | Ty::Null | Ty::Unknown => "?",
    }
}

/// Puts the type of a field and its class.
fn put_field(out: &mut Text, field: &Field) -> Result<(), NoMemory> {
    out.push_str(word_of(&field.ty))?;
    out.push_str(" of ")?;
    out.push_str(field.owner.as_str())
}

/// Puts a variable: whether it is the marked declaration, or a field that is inherited.
pub fn put_variable(
    alloc: Global,
    out: &mut Text,
    file: &File<'_>,
    text: &str,
    variable: &Option<Variable>,
) -> Result<(), NoMemory> {
    match variable {
        Some(Variable::Declared(n)) => put_declaration(alloc, out, file.tree(), text, *n),
        Some(Variable::Inherited(field)) => put_field(out, field),
        None => out.push_str("none"),
    }
}

/// Puts the variable that a name means at the marked place.
pub fn put_name<O: Oracle>(
    alloc: Global,
    file: &File<'_>,
    over: &mut Over<'_, O>,
    asked: &Asked<'_>,
    out: &mut Text,
) -> Result<(), AskFault> {
    let Some(place) = place_of(file.tree(), asked.text) else {
        return Ok(out.push_str("! no place")?);
    };
    let variable = variable_name(alloc, file, over, place, asked.name())?;
    Ok(put_variable(alloc, out, file, asked.text, &variable)?)
}
