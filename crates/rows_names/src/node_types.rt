//! Types of nodes that are told without the types of others, of variables by their declarations, and what is known of such a type behind a dot and in an enhanced `for`.

use crate::question::Asked;
use pj_base::Text;
use pj_leaf_types::{declared_by, leaf_type};
use pj_names::{AskFault, Oracle, Ty};
use pj_outer_names::File;
use pj_receivers::{field_of, iterated};
use pj_row_java::{Over, place_of, put_type};
use pj_symbols::declaration_of;
use std::alloc::Global;

/// Puts the type of the node at the marked place.
pub fn put_node<O: Oracle>(
    alloc: Global,
    file: &File<'_>,
    over: &mut Over<'_, O>,
    asked: &Asked<'_>,
    out: &mut Text,
) -> Result<(), AskFault> {
    let Some(place) = place_of(file.tree(), asked.text) else {
        return Ok(out.push_str("! no place")?);
    };
    let ty = leaf_type(alloc, file, over, place)?;
    Ok(put_type(out, &ty)?)
}

/// The type that is declared for the name at the marked place, where it is one of a variable.
fn variable_type<O: Oracle>(
    alloc: Global,
    file: &File<'_>,
    over: &mut Over<'_, O>,
    asked: &Asked<'_>,
) -> Result<Option<Ty>, AskFault> {
    let Some(place) = place_of(file.tree(), asked.text) else {
        return Ok(None);
    };
    match declaration_of(file.tree(), place) {
        Some(declaration) => {
            let ty = declared_by(alloc, file, over, place, declaration)?;
            Ok(Some(ty))
        }
        None => Ok(None),
    }
}

/// Puts the type that is declared for the variable at the marked place.
pub fn put_variable<O: Oracle>(
    alloc: Global,
    file: &File<'_>,
    over: &mut Over<'_, O>,
    asked: &Asked<'_>,
    out: &mut Text,
) -> Result<(), AskFault> {
    match variable_type(alloc, file, over, asked)? {
        Some(ty) => Ok(put_type(out, &ty)?),
        None => Ok(out.push_str("! no variable")?),
    }
}

/// Puts what the name in front means behind a dot, of the variable at the marked place.
pub fn put_member<O: Oracle>(
    alloc: Global,
    file: &File<'_>,
    over: &mut Over<'_, O>,
    asked: &Asked<'_>,
    out: &mut Text,
) -> Result<(), AskFault> {
    let Some(receiver) = variable_type(alloc, file, over, asked)? else {
        return Ok(out.push_str("! no variable")?);
    };
    let ty = field_of(alloc, file, over, asked.front.unwrap_or(""), &receiver)?;
    Ok(put_type(out, &ty)?)
}

/// Puts what an enhanced `for` over the variable at the marked place goes through.
pub fn put_elements<O: Oracle>(
    alloc: Global,
    file: &File<'_>,
    over: &mut Over<'_, O>,
    asked: &Asked<'_>,
    out: &mut Text,
) -> Result<(), AskFault> {
    let Some(ty) = variable_type(alloc, file, over, asked)? else {
        return Ok(out.push_str("! no variable")?);
    };
    let element = iterated(alloc, over, &ty)?;
    Ok(put_type(out, &element)?)
}
