//! What names of types mean at places, and the types that are written there.

ghost use Rattle.std.specs.Prelude.{◌<◌, length, IfSome};

use crate::question::Asked;
use pj_base::{NoMemory, Numbers, Text};
use pj_names::{AskFault, Oracle};
use pj_outer_names::File;
use pj_row_java::{Over, offset_behind, place_of, put_type};
use pj_tree::{Kind, Node, SyntaxTree};
use pj_type_names::{type_name, written_bound, written_type};
use std::alloc::Global;

/// Puts the type that a name means at the marked place.
pub fn put_name<O: Oracle>(
    alloc: Global,
    file: &File<'_>,
    over: &mut Over<'_, O>,
    asked: &Asked<'_>,
    out: &mut Text,
) -> Result<(), AskFault> {
    let Some(place) = place_of(file.tree(), asked.text) else {
        return Ok(out.push_str("! no place")?);
    };
    let ty = type_name(alloc, file, over, place, asked.name())?;
    Ok(put_type(out, &ty)?)
}

/// Whether a kind is that of a type.
fn is_type(kind: Kind) -> bool {
    matches!(
        kind,
        Kind::ArrayType
            | Kind::ClassType
            | Kind::PrimitiveType
            | Kind::VoidType
            | Kind::UnionType
            | Kind::IntersectionType
    )
}

/// The first type that begins at the offset.
fn type_from(tree: &SyntaxTree<'_>, offset: u32) -> Option<Node>
    ensures { IfSome result (λ n. n.0 < length tree.now.nodes) }
{
    for n in 0..tree.len() {
        let begins = tree.span(Node(n)).from == offset;
        if begins && is_type(tree.kind(Node(n))) {
            return Some(Node(n));
        }
    }
    None
}

/// The outermost type that begins at the marked place.
fn type_of(tree: &SyntaxTree<'_>, text: &str) -> Option<Node>
    ensures { IfSome result (λ n. n.0 < length tree.now.nodes) }
{
    type_from(tree, offset_behind(text, "/*?*/")?)
}

/// The classes whose headers are being resolved: none, or the first one of the file.
fn busy(alloc: Global, is_in_header: bool) -> Result<Numbers, NoMemory> {
    let mut busy = Numbers::new(alloc);
    if is_in_header {
        busy.push(1)?;
    }
    Ok(busy)
}

/// How many pairs of brackets are written.
fn pairs(brackets: &str) -> u32 {
    u32::try_from(brackets.len() / 2).unwrap_or(0)
}

/// Puts the type that is written at the marked place. The brackets behind a name stand in front.
pub fn put_written<O: Oracle>(
    alloc: Global,
    file: &File<'_>,
    over: &mut Over<'_, O>,
    is_in_header: bool,
    asked: &Asked<'_>,
    out: &mut Text,
) -> Result<(), AskFault> {
    let Some(place) = type_of(file.tree(), asked.text) else {
        return Ok(out.push_str("! no place")?);
    };
    let busy = busy(alloc, is_in_header)?;
    let behind = pairs(asked.front.unwrap_or(""));
    let ty = written_type(alloc, file, over, &busy, behind, place)?;
    Ok(put_type(out, &ty)?)
}

/// Puts the bound of a type parameter that is written at the marked place.
pub fn put_bound<O: Oracle>(
    alloc: Global,
    file: &File<'_>,
    over: &mut Over<'_, O>,
    asked: &Asked<'_>,
    out: &mut Text,
) -> Result<(), AskFault> {
    let Some(place) = type_of(file.tree(), asked.text) else {
        return Ok(out.push_str("! no place")?);
    };
    let busy = busy(alloc, false)?;
    let ty = written_bound(alloc, file, over, &busy, place)?;
    Ok(put_type(out, &ty)?)
}
