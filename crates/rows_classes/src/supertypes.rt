//! Substitution, erasure, conversions, supertypes and subtyping.
use crate::classes::{class_name, oracle_of};
use crate::row_fault::{RowFault, answer_text};
use crate::shown::{put_asked, put_type, text_of, type_text, word};
use pj_base::{NoMemory, Text};
use pj_names::{Bindings, MapOracle, Ty};
use pj_rows::{Row, Section, Table};
use pj_signatures::field_signature;
use pj_types::{
    Walk, as_primitive, boxed, erase, is_subtype, promoted, promoted_both, substitute, supertypes,
};
use std::alloc::Global;

/// How many steps a walk has at most.
const MOST_STEPS: u32 = 100;

/// The table.
pub struct Supertypes;

impl Table for Supertypes {
    fn has_setting(&self, name: &str) -> bool {
        name == "class" || name == "bind" || name == "shows"
    }

    fn answer(&self, alloc: Global, section: &Section, row: &Row) -> Result<String, NoMemory> {
        answer_text(alloc, answer(alloc, section, row.given.as_str()))
    }
}

fn answer(alloc: Global, section: &Section, given: &str) -> Result<String, RowFault> {
    match section.setting("shows").unwrap_or("") {
        "substituted" => substituted_type(alloc, section, given),
        "erased" => erased_type(alloc, given),
        "boxed" => boxed_type(alloc, given),
        "operand" => operand(alloc, given),
        "promoted" => promotion(alloc, given),
        "supertypes" => all_supertypes(alloc, oracle_of(alloc, section)?, given),
        "walk" => walk(alloc, oracle_of(alloc, section)?, given),
        "asking walk" => asking_walk(alloc, oracle_of(alloc, section)?, given),
        "subtyping" => subtyping(alloc, oracle_of(alloc, section)?, given),
        _ => Err(RowFault::Unread("no such @shows")),
    }
}

/// The type of a signature.
fn signature_type(alloc: Global, text: &str) -> Result<Ty, RowFault> {
    match field_signature(alloc, text)? {
        Some(ty) => Ok(ty),
        None => Err(RowFault::Unread("no signature")),
    }
}

/// The type of a signature, `null`, `void`, or a variable `V` with the bound behind its colon.
fn type_of(alloc: Global, text: &str) -> Result<Ty, RowFault> {
    match text {
        "null" => return Ok(Ty::Null),
        "V" => return Ok(Ty::Void),
        _ => {}
    }
    match text.strip_prefix("V:") {
        Some(bound) => {
            let bound = signature_type(alloc, bound)?;
            Ok(Ty::Var(Text::from_str(alloc, "V")?, Box::new(alloc, bound)?))
        }
        None => signature_type(alloc, text),
    }
}

/// The variables of a section, each with the type that is bound to it.
fn bindings_of(alloc: Global, section: &Section) -> Result<Bindings, RowFault> {
    let mut bindings = Bindings::new(alloc);
    for setting in &section.settings {
        if setting.name.as_str() == "bind" {
            let (name, bound) = setting.value.as_str().split_once(' ').unwrap_or(("", ""));
            let bound = signature_type(alloc, bound)?;
            bindings.push((Text::from_str(alloc, name)?, bound))?;
        }
    }
    Ok(bindings)
}

fn substituted_type(alloc: Global, section: &Section, given: &str) -> Result<String, RowFault> {
    let bindings = bindings_of(alloc, section)?;
    let ty = type_of(alloc, given)?;
    let ty = substitute(alloc, &ty, &bindings)?;
    Ok(type_text(alloc, &ty)?.into_string())
}

fn erased_type(alloc: Global, given: &str) -> Result<String, RowFault> {
    let ty = type_of(alloc, given)?;
    let ty = erase(alloc, &ty)?;
    Ok(type_text(alloc, &ty)?.into_string())
}

fn boxed_type(alloc: Global, given: &str) -> Result<String, RowFault> {
    let ty = type_of(alloc, given)?;
    let ty = boxed(alloc, &ty)?;
    Ok(type_text(alloc, &ty)?.into_string())
}

/// The word of the primitive type of an operand, or `none`.
fn operand(alloc: Global, given: &str) -> Result<String, RowFault> {
    let ty = type_of(alloc, given)?;
    Ok(text_of(alloc, as_primitive(&ty).map_or("none", |prim| word(prim)))?)
}

/// An operand promoted, or two with a comma between them.
fn promotion(alloc: Global, given: &str) -> Result<String, RowFault> {
    let ty = match given.split_once(", ") {
        Some((left, right)) => {
            let left = type_of(alloc, left)?;
            promoted_both(&left, &type_of(alloc, right)?)
        }
        None => promoted(&type_of(alloc, given)?),
    };
    Ok(type_text(alloc, &ty)?.into_string())
}

/// The names of the supertypes of a class, and the names that are asked.
fn all_supertypes(alloc: Global, oracle: MapOracle, given: &str) -> Result<String, RowFault> {
    let mut oracle = oracle;
    let name = class_name(alloc, given)?;
    let names = supertypes(alloc, &mut oracle, &name)?;
    let mut text = Text::new(alloc);
    for (place, name) in names.as_slice().iter().enumerate() {
        text.push_str(if place > 0 { " " } else { "" })?;
        text.push_str(name.as_str())?;
    }
    put_asked(&mut text, alloc, &oracle, "; asks")?;
    Ok(text.into_string())
}

/// Puts what a walk gives next. Whether it goes on.
fn put_step(text: &mut Text, oracle: &mut MapOracle, walk: &mut Walk) -> Result<bool, RowFault> {
    match walk.next_class(oracle)? {
        Some(ty) => {
            put_type(text, &ty)?;
            Ok(true)
        }
        None => {
            text.push_str("end")?;
            Ok(false)
        }
    }
}

/// What a walk gives, to its end.
fn walk(alloc: Global, oracle: MapOracle, given: &str) -> Result<String, RowFault> {
    let mut oracle = oracle;
    let mut walk = Walk::of(alloc, &class_name(alloc, given)?)?;
    let mut text = Text::new(alloc);
    for step in 0..MOST_STEPS {
        text.push_str(if step > 0 { "; " } else { "" })?;
        if !put_step(&mut text, &mut oracle, &mut walk)? {
            return Ok(text.into_string());
        }
    }
    Err(RowFault::Unread("the walk is longer"))
}

/// What a walk gives, to its end and once more, with the names that were asked by then.
fn asking_walk(alloc: Global, oracle: MapOracle, given: &str) -> Result<String, RowFault> {
    let mut oracle = oracle;
    let mut walk = Walk::of(alloc, &class_name(alloc, given)?)?;
    let mut text = Text::new(alloc);
    let mut has_ended = false;
    for step in 0..MOST_STEPS {
        text.push_str(if step > 0 { "; " } else { "" })?;
        let goes_on = put_step(&mut text, &mut oracle, &mut walk)?;
        put_asked(&mut text, alloc, &oracle, " asks")?;
        if has_ended {
            return Ok(text.into_string());
        }
        has_ended = !goes_on;
    }
    Err(RowFault::Unread("the walk is longer"))
}

/// Whether one type is a subtype of the other one, as `I <: J`.
fn subtyping(alloc: Global, oracle: MapOracle, given: &str) -> Result<String, RowFault> {
    let Some((lower, upper)) = given.split_once(" <: ") else {
        return Err(RowFault::Unread("no two types"));
    };
    let mut oracle = oracle;
    let lower = type_of(alloc, lower)?;
    let upper = type_of(alloc, upper)?;
    let holds = is_subtype(alloc, &mut oracle, &lower, &upper)?;
    Ok(text_of(alloc, if holds { "yes" } else { "no" })?)
}
