//! Descriptors and signatures, with what is read of them.
use crate::classes::class_name;
use crate::row_fault::{RowFault, answer_text};
use crate::shown::{text_of, type_text};
use pj_base::{NoMemory, Text};
use pj_names::{Bindings, Ty, Types};
use pj_rows::{Row, Section, Table};
use pj_signatures::{
    ClassSig, MethodSig, class_signature, descriptor, field_signature, method_descriptor,
    method_signature, method_signature_in,
};
use std::alloc::Global;

/// The table.
pub struct Signatures;

impl Table for Signatures {
    fn has_setting(&self, name: &str) -> bool {
        name == "reads"
    }

    fn answer(&self, alloc: Global, section: &Section, row: &Row) -> Result<String, NoMemory> {
        let reads = section.setting("reads").unwrap_or("");
        answer_text(alloc, answer(alloc, reads, row.given.as_str()))
    }
}

fn answer(alloc: Global, reads: &str, given: &str) -> Result<String, RowFault> {
    match reads {
        "descriptor" => type_answer(alloc, descriptor(alloc, given)?),
        "field" => type_answer(alloc, field_signature(alloc, given)?),
        "superclass" => type_answer(alloc, superclass(alloc, given)?),
        "result" => type_answer(alloc, result_within(alloc, given)?),
        "long" => kinds_of(alloc, long_text(alloc, given)?.as_str()),
        "class" => parts_of_class(alloc, class_signature(alloc, given)?),
        "method" => parts_of_method(alloc, method_signature(alloc, given)?),
        "method descriptor" => parts_of_method(alloc, method_descriptor(alloc, given)?),
        _ => Err(RowFault::Unread("no such @reads")),
    }
}

/// A type, where there is one.
fn type_answer(alloc: Global, ty: Option<Ty>) -> Result<String, RowFault> {
    match ty {
        Some(ty) => Ok(type_text(alloc, &ty)?.into_string()),
        None => Ok(text_of(alloc, "! none")?),
    }
}

/// The superclass of a signature of a class.
fn superclass(alloc: Global, text: &str) -> Result<Option<Ty>, NoMemory> {
    match class_signature(alloc, text)? {
        Some(class) => Ok(Some(class.superclass)),
        None => Ok(None),
    }
}

/// The variable `T` with the bound `p.Run`.
fn variable_around(alloc: Global) -> Result<Bindings, RowFault> {
    let bound = Ty::Class(class_name(alloc, "p.Run")?, Types::End);
    let mut around = Bindings::new(alloc);
    around.push((Text::from_str(alloc, "T")?, bound))?;
    Ok(around)
}

/// The result of a signature of a method within a class with that variable.
fn result_within(alloc: Global, text: &str) -> Result<Option<Ty>, RowFault> {
    let around = variable_around(alloc)?;
    match method_signature_in(alloc, &around, text)? {
        Some(method) => Ok(Some(method.result)),
        None => Ok(None),
    }
}

/// How often a word stands in a long text, if it says so.
fn times(word: &str) -> Option<u32> {
    word.strip_prefix("x")?.parse::<u32>().ok()
}

/// Puts a word some times.
fn put_often(text: &mut String, word: &str, times: u32) -> Result<(), NoMemory> {
    for _time in 0..times {
        text.push_str(word)?;
    }
    Ok(())
}

/// The words one behind the other; a word `x255` repeats the one before it.
fn long_text(alloc: Global, words: &str) -> Result<String, RowFault> {
    let mut text = String::new(alloc);
    let mut before = String::new(alloc);
    for word in words.split(' ') {
        match times(word) {
            Some(times) => put_often(&mut text, before.as_str(), times.saturating_sub(1))?,
            None => text.push_str(word)?,
        }
        before = String::from_str(alloc, word)?;
    }
    Ok(text)
}

/// Whether a text is a descriptor and a signature of a field.
fn kinds_of(alloc: Global, text: &str) -> Result<String, RowFault> {
    let is_descriptor = descriptor(alloc, text)?.is_some();
    let is_signature = field_signature(alloc, text)?.is_some();
    let shown = match (is_descriptor, is_signature) {
        (true, true) => "descriptor, signature",
        (true, false) => "descriptor",
        (false, true) => "signature",
        (false, false) => "! none",
    };
    Ok(text_of(alloc, shown)?)
}

fn parts_of_class(alloc: Global, class: Option<ClassSig>) -> Result<String, RowFault> {
    let Some(class) = class else {
        return Ok(text_of(alloc, "! none")?);
    };
    let (params, interfaces) = (class.params.len(), class.interfaces.len());
    Ok(format!(in alloc; "params {params}, interfaces {interfaces}")?)
}

fn parts_of_method(alloc: Global, method: Option<MethodSig>) -> Result<String, RowFault> {
    let Some(method) = method else {
        return Ok(text_of(alloc, "! none")?);
    };
    let (params, arguments) = (method.params.len(), method.arguments.len());
    let results = if method.result.is(&Ty::Void) { 0u32 } else { 1 };
    Ok(format!(in alloc; "params {params}, arguments {arguments}, results {results}")?)
}
