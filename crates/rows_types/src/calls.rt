//! What is chosen for a call, and the type of a method call.

ghost use Rattle.std.specs.Prelude.{◌<◌, length};

use pj_base::{NoMemory, Text};
use pj_exprtypes::{Typed, chosen, type_of};
use pj_file_oracle::{FileOracle, Held};
use pj_names::{AskFault, Ty, TyList};
use pj_outer_names::File;
use pj_row_java::{Beneath, put_type, without_number};
use pj_tree::{Kind, Node};
use pj_types::Method;
use std::alloc::Global;

/// Puts what is chosen for a call, and before it the type of a method call.
pub fn put_call(
    alloc: Global,
    file: &File<'_>,
    beneath: &mut Beneath,
    n: Node,
    out: &mut Text,
) -> Result<(), AskFault>
    requires inside { n.0 < length file.now.nodes }
{
    if file.tree().kind(n) == Kind::MethodCall {
        put_type_of(alloc, file, beneath, n, out)?;
        out.push_str(" ")?;
    }
    let mut types = Typed::new(alloc);
    let mut held = Held::new(alloc);
    let mut oracle = FileOracle::new(alloc, file, beneath, &mut held);
    let found = chosen(&mut oracle, &mut types, n)?;
    Ok(put_chosen(out, &found)?)
}

/// Puts the type of a node.
fn put_type_of(
    alloc: Global,
    file: &File<'_>,
    beneath: &mut Beneath,
    n: Node,
    out: &mut Text,
) -> Result<(), AskFault>
    requires inside { n.0 < length file.now.nodes }
{
    let mut types = Typed::new(alloc);
    let mut held = Held::new(alloc);
    let mut oracle = FileOracle::new(alloc, file, beneath, &mut held);
    let ty = type_of(&mut oracle, &mut types, n)?;
    Ok(put_type(out, &ty)?)
}

/// Puts the types of parameters, with a comma between.
fn put_parameters(out: &mut Text, parameters: &TyList) -> Result<(), NoMemory> {
    let mut is_first = true;
    for ty in parameters.as_slice() {
        if !is_first {
            out.push_str(",")?;
        }
        is_first = false;
        put_type(out, ty)?;
    }
    Ok(())
}

/// Puts a method: its class, its name and its parameters.
fn put_method(out: &mut Text, method: &Method) -> Result<(), NoMemory> {
    out.push_str(without_number(method.owner.as_str()))?;
    out.push_str(".")?;
    out.push_str(method.name.as_str())?;
    out.push_str("(")?;
    put_parameters(out, &method.signature.arguments)?;
    out.push_str(")")
}

/// Puts what is chosen, and behind it the type that it was looked for in.
fn put_chosen(out: &mut Text, found: &Option<(Ty, Method)>) -> Result<(), NoMemory> {
    match found {
        Some((receiver, method)) => {
            out.push_str("by ")?;
            put_method(out, method)?;
            out.push_str(" of ")?;
            put_type(out, receiver)
        }
        None => out.push_str("by none"),
    }
}
