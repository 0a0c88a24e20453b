//! The choice among methods for a call.
use crate::classes::{class_name, put_class};
use crate::java_types::type_of;
use crate::row_fault::{RowFault, answer_text};
use pj_base::{NoMemory, Numbers, Text};
use pj_names::{Answers, Bindings, MapOracle, Ty, TyList};
use pj_overload::{Choice, choose};
use pj_rows::{Row, Section, Table};
use pj_signatures::MethodSig;
use pj_types::{Method, Methods};
use std::alloc::Global;

/// The table, over classes of which each stands on a line.
#[derive(Drop)]
pub struct Overloads {
    /// The classes.
    pub classes: String,
}

impl Table for Overloads {
    fn answer(&self, alloc: Global, _section: &Section, row: &Row) -> Result<String, NoMemory> {
        answer_text(
            alloc,
            answer(alloc, self.classes.as_str(), row.given.as_str()),
        )
    }
}

/// The choice for a call and candidates, as `f(int, ->) of int, Object | Runnable...`.
fn answer(alloc: Global, classes: &str, given: &str) -> Result<String, RowFault> {
    let call = given.strip_prefix("f(").unwrap_or("");
    let Some((arguments, behind)) = call.split_once(')') else {
        return Err(RowFault::Unread("no call"));
    };
    let methods = methods_of(alloc, classes, behind.strip_prefix(" of ").unwrap_or(""))?;
    let (types, functions) = arguments_of(alloc, classes, arguments)?;
    let mut oracle = oracle_of(alloc, classes)?;
    let choice = choose(alloc, &mut oracle, &methods, &types, &functions)?;
    choice_answer(alloc, choice, &oracle)
}

/// The classes of lines.
fn oracle_of(alloc: Global, classes: &str) -> Result<MapOracle, RowFault> {
    let mut answers = Answers::new(alloc);
    for line in classes.lines() {
        put_class(alloc, &mut answers, line)?;
    }
    Ok(MapOracle::new(alloc, answers))
}

/// Puts the types of words at the end.
fn put_types(
    alloc: Global,
    classes: &str,
    types: &mut TyList,
    words: &str,
) -> Result<(), RowFault> {
    for word in words.split(", ") {
        types.push(type_of(alloc, classes, word)?)?;
    }
    Ok(())
}

/// The types of parameters: none of `()`, and `int...` is an array at the end.
fn parameters_of(alloc: Global, classes: &str, text: &str) -> Result<TyList, RowFault> {
    let mut types = TyList::new(alloc);
    if text == "()" {
        return Ok(types);
    }
    put_types(
        alloc,
        classes,
        &mut types,
        text.strip_suffix("...").unwrap_or(text),
    )?;
    if text.ends_with("...")
        && let Some(member) = types.pop()
    {
        types.push(Ty::Array(Box::new(alloc, member)?))?;
    }
    Ok(types)
}

/// A static method of the types of its parameters, and with the flag of variable arity where they end in `...` or `varargs` stands
/// before them.
fn method_of(alloc: Global, classes: &str, text: &str) -> Result<Method, RowFault> {
    let (is_flagged, text) = match text.strip_prefix("varargs ") {
        Some(rest) => (true, rest),
        None => (text.ends_with("..."), text),
    };
    Ok(Method {
        owner: class_name(alloc, "p.Owner")?,
        flags: if is_flagged { 0x0089 } else { 0x0009 },
        name: Text::from_str(alloc, "f")?,
        signature: MethodSig {
            params: Bindings::new(alloc),
            arguments: parameters_of(alloc, classes, text)?,
            result: Ty::Void,
        },
    })
}

/// The candidates, a bar between them.
fn methods_of(alloc: Global, classes: &str, text: &str) -> Result<Methods, RowFault> {
    let mut methods = Methods::new(alloc);
    if !text.is_empty() {
        for part in text.split(" | ") {
            methods.push(method_of(alloc, classes, part)?)?;
        }
    }
    Ok(methods)
}

/// Puts an argument at the end; `->` is a function, with a type behind it or one that is not known.
fn put_argument(
    alloc: Global,
    classes: &str,
    types: &mut TyList,
    functions: &mut Numbers,
    word: &str,
) -> Result<(), RowFault> {
    let Some(ty) = word.strip_prefix("->") else {
        types.push(type_of(alloc, classes, word)?)?;
        return Ok(());
    };
    let Ok(place) = u32::try_from(types.len()) else {
        return Err(RowFault::Unread("too many arguments"));
    };
    functions.push(place)?;
    types.push(type_of(alloc, classes, if ty.is_empty() { "?" } else { ty })?)?;
    Ok(())
}

/// The types of arguments, and the places of those that are functions.
fn arguments_of(alloc: Global, classes: &str, text: &str) -> Result<(TyList, Numbers), RowFault> {
    let mut types = TyList::new(alloc);
    let mut functions = Numbers::new(alloc);
    if !text.is_empty() {
        for word in text.split(", ") {
            put_argument(alloc, classes, &mut types, &mut functions, word)?;
        }
    }
    Ok((types, functions))
}

fn choice_text(alloc: Global, choice: Choice) -> Result<Text, NoMemory> {
    match choice {
        Choice::One(number) => Ok(Text::from_string(format!(in alloc; "{number}")?)),
        Choice::None => Text::from_str(alloc, "none"),
        Choice::Tie => Text::from_str(alloc, "tie"),
    }
}

/// A choice, with the simple names that were asked in the order of the bytes of the whole names.
fn choice_answer(alloc: Global, choice: Choice, oracle: &MapOracle) -> Result<String, RowFault> {
    let mut text = choice_text(alloc, choice)?;
    for (place, name) in oracle.asked().names(alloc)?.as_slice().iter().enumerate() {
        let Some((_, simple)) = name.as_str().rsplit_once('.') else {
            return Err(RowFault::Unread("a class without a package"));
        };
        text.push_str(if place == 0 { "; asks " } else { " " })?;
        text.push_str(simple)?;
    }
    Ok(text.into_string())
}
