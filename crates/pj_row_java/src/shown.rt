//! Nodes, types and answers as texts.
use pj_base::{NoMemory, Text};
use pj_names::{Answer, ClassInfo, Member, Members, Prim, Ty, Types};
use std::alloc::Global;

/// Puts a number at the end.
pub fn put_number(alloc: Global, out: &mut Text, number: u32) -> Result<(), NoMemory> {
    let digits = number.to_string(alloc)?;
    out.push_str(digits.as_str())
}

/// Puts names with a space between.
pub fn put_word(out: &mut Text, word: &str) -> Result<(), NoMemory> {
    if !out.is_empty() {
        out.push_str(" ")?;
    }
    out.push_str(word)
}

/// The word of a primitive type.
pub fn primitive_word(prim: Prim) -> &'static str {
    match prim {
        Prim::Boolean => "boolean",
        Prim::Byte => "byte",
        Prim::Short => "short",
        Prim::Int => "int",
        Prim::Long => "long",
        Prim::Char => "char",
        Prim::Float => "float",
        Prim::Double => "double",
    }
}

/// Puts a type at the end: `?` for one that is not known, and a variable with its bound behind a colon.
#[cycle(shown)]
pub fn put_type(out: &mut Text, ty: &Ty) -> Result<(), NoMemory> {
    match ty {
        Ty::Prim(prim) => out.push_str(primitive_word(*prim)),
        Ty::Void => out.push_str("void"),
        Ty::Null => out.push_str("null"),
        Ty::Unknown => out.push_str("?"),
        Ty::Class(name, arguments) => {
            out.push_str(name.as_str())?;
            put_arguments(out, "<", arguments)
        }
        Ty::Array(member) => {
            put_type(out, member)?;
            out.push_str("[]")
        }
        Ty::Var(name, bound) => {
            out.push_str(name.as_str())?;
            out.push_str(":")?;
            put_type(out, bound)
        }
    }
}

/// Puts type arguments at the end, with a sign before each: behind the last one of a list a `>`.
#[cycle(shown)]
fn put_arguments(out: &mut Text, sign: &str, arguments: &Types) -> Result<(), NoMemory> {
    match arguments {
        Types::End => match sign {
            "<" => Ok(()),
            _ => out.push_str(">"),
        },
        Types::More(first, rest) => {
            out.push_str(sign)?;
            put_type(out, first)?;
            put_arguments(out, ",", rest)
        }
    }
}

/// Puts a member at the end: its flags, its name and its signature, each with a space before it.
fn put_member(alloc: Global, out: &mut Text, member: &Member) -> Result<(), NoMemory> {
    out.push_str(" ")?;
    put_number(alloc, out, u32::from(member.flags))?;
    out.push_str(" ")?;
    out.push_str(member.name.as_str())?;
    out.push_str(" ")?;
    out.push_str(member.signature.as_str())
}

/// Puts members at the end, behind a `/`.
fn put_members(alloc: Global, out: &mut Text, members: &Members) -> Result<(), NoMemory> {
    out.push_str(" /")?;
    for member in members.as_slice() {
        put_member(alloc, out, member)?;
    }
    Ok(())
}

/// Puts a class at the end: its flags, its signature, its fields and its methods.
fn put_class(alloc: Global, out: &mut Text, class: &ClassInfo) -> Result<(), NoMemory> {
    put_number(alloc, out, u32::from(class.flags))?;
    out.push_str(" ")?;
    out.push_str(class.signature.as_str())?;
    put_members(alloc, out, &class.fields)?;
    put_members(alloc, out, &class.methods)
}

/// Puts an answer at the end.
pub fn put_answer(alloc: Global, out: &mut Text, answer: &Answer) -> Result<(), NoMemory> {
    match answer {
        Answer::Found(class) => put_class(alloc, out, class),
        Answer::Absent => out.push_str("absent"),
        Answer::Broken(_) => out.push_str("broken"),
    }
}
