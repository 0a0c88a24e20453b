//! Types as signatures spell them (JVMS 4.7.9.1).

ghost use Rattle.std.specs.Prelude.{◌≡◌, ◌++◌, ◌∷◌, [], IfOk, OnOk};
ghost use Rattle.pj_names.specs.JavaType.{java_type, java_types, type_list};
ghost use Rattle.pj_signatures.specs.Signature.{letter};
ghost use Rattle.pj_written.specs.Seen.{all_parameters, parameter_view};
ghost use Rattle.pj_written.specs.Spelling.{all_parameters_spelled, all_spelled, class_signature_text, further_bounds, internal, listed, method_signature_text, spelled, spelled_arguments, spelled_bounds, spelled_parameter, spelled_parameters};

use pj_base::{ListOf, NoMemory, Text};
use pj_names::{Prim, Ty, TyList, Types};
use std::alloc::Global;

/// A type parameter.
#[derive(Drop)]
pub struct Parameter {
    /// Its simple name.
    pub name: Text,
    /// Its bounds, in the order in which they are written.
    pub bounds: TyList,
}

/// Type parameters, in their order.
pub type Parameters = ListOf<Parameter>;

/// The sign of a primitive type.
fn letter(prim: Prim) -> &'static str
    ensures { result.now ≡ letter prim ∷ [] }
{
    match prim {
        Prim::Byte => "B",
        Prim::Char => "C",
        Prim::Double => "D",
        Prim::Float => "F",
        Prim::Int => "I",
        Prim::Long => "J",
        Prim::Short => "S",
        Prim::Boolean => "Z",
    }
}

/// Puts the name of a class at the end, with solidi in place of dots.
fn put_internal(text: &mut Text, name: &str) -> Result<(), NoMemory>
    ensures { OnOk result (text.new ≡ text.old ++ internal name.now) }
{
    let mut left = name;
    while let Some((part, rest)) = left.split_once('.') {
        text.push_str(part)?;
        text.push_str("/")?;
        left = rest;
    }
    text.push_str(left)?;
    Ok(())
}

/// Puts a type at the end.
#[cycle(spelled)]
fn put_spelled(text: &mut Text, ty: &Ty) -> Result<(), NoMemory>
    ensures { OnOk result (text.new ≡ text.old ++ spelled (java_type ty.now)) }
{
    match ty {
        Ty::Prim(prim) => text.push_str(letter(*prim)),
        Ty::Void => text.push_str("V"),
        Ty::Null | Ty::Unknown => text.push_str("L?;"),
        Ty::Class(name, arguments) => {
            text.push_str("L")?;
            put_internal(text, name.as_str())?;
            put_listed(text, arguments)?;
            text.push_str(";")?;
            Ok(())
        }
        Ty::Array(member) => {
            text.push_str("[")?;
            put_spelled(text, member)?;
            Ok(())
        }
        Ty::Var(name, _) => {
            text.push_str("T")?;
            text.push_str(name.as_str())?;
            text.push_str(";")?;
            Ok(())
        }
    }
}

/// Puts a list of type arguments at the end, where there are some.
#[cycle(spelled)]
fn put_listed(text: &mut Text, arguments: &Types) -> Result<(), NoMemory>
    ensures { OnOk result (text.new ≡ text.old ++ listed (java_types arguments.now)) }
{
    match arguments {
        Types::End => Ok(()),
        Types::More(first, rest) => {
            text.push_str("<")?;
            put_spelled(text, first)?;
            put_arguments(text, rest)?;
            text.push_str(">")?;
            Ok(())
        }
    }
}

/// Puts type arguments at the end.
#[cycle(spelled)]
fn put_arguments(text: &mut Text, arguments: &Types) -> Result<(), NoMemory>
    ensures { OnOk result (text.new ≡ text.old ++ spelled_arguments (java_types arguments.now)) }
{
    match arguments {
        Types::End => Ok(()),
        Types::More(first, rest) => {
            put_spelled(text, first)?;
            put_arguments(text, rest)?;
            Ok(())
        }
    }
}

/// Puts types at the end.
fn put_all(text: &mut Text, types: &TyList) -> Result<(), NoMemory>
    ensures { OnOk result (text.new ≡ text.old ++ all_spelled (type_list types.now)) }
{
    for ty in types.as_slice() {
        put_spelled(text, ty)?;
    }
    Ok(())
}

/// Puts types at the end, each behind a colon.
fn put_further_bounds(text: &mut Text, bounds: &TyList) -> Result<(), NoMemory>
    ensures { OnOk result (text.new ≡ text.old ++ further_bounds (type_list bounds.now)) }
{
    for bound in bounds.as_slice() {
        text.push_str(":")?;
        put_spelled(text, bound)?;
    }
    Ok(())
}

/// Puts the bounds of a type parameter at the end, and `java.lang.Object` where it has none.
fn put_bounds(text: &mut Text, bounds: &TyList) -> Result<(), NoMemory>
    ensures { OnOk result (text.new ≡ text.old ++ spelled_bounds (type_list bounds.now)) }
{
    if bounds.is_empty() {
        text.push_str(":Ljava/lang/Object;")
    } else {
        put_further_bounds(text, bounds)
    }
}

/// Puts a type parameter at the end.
fn put_parameter(text: &mut Text, parameter: &Parameter) -> Result<(), NoMemory>
    ensures { OnOk result (text.new ≡ text.old ++ spelled_parameter (parameter_view parameter.now)) }
{
    text.push_str(parameter.name.as_str())?;
    put_bounds(text, &parameter.bounds)?;
    Ok(())
}

/// Puts each type parameter at the end.
fn put_each_parameter(text: &mut Text, parameters: &Parameters) -> Result<(), NoMemory>
    ensures { OnOk result (text.new ≡ text.old ++ all_parameters_spelled (all_parameters parameters.now)) }
{
    for parameter in parameters.as_slice() {
        put_parameter(text, parameter)?;
    }
    Ok(())
}

/// Puts type parameters at the end, where there are some.
fn put_parameters(text: &mut Text, parameters: &Parameters) -> Result<(), NoMemory>
    ensures { OnOk result (text.new ≡ text.old ++ spelled_parameters (all_parameters parameters.now)) }
{
    if parameters.is_empty() {
        return Ok(());
    }
    text.push_str("<")?;
    put_each_parameter(text, parameters)?;
    text.push_str(">")?;
    Ok(())
}

/// The signature of a type (JVMS 4.7.9.1); a type that is not known, and that of `null`, is the class `?`.
pub fn type_signature(alloc: Global, ty: &Ty) -> Result<Text, NoMemory>
    ensures { IfOk result (λ text. text ≡ spelled (java_type ty.now)) }
{
    let mut text = Text::new(alloc);
    put_spelled(&mut text, ty)?;
    Ok(text)
}

/// The signature of a class: its type parameters, its superclass and its interfaces.
pub fn class_signature(
    alloc: Global,
    parameters: &Parameters,
    superclass: &Ty,
    interfaces: &TyList,
) -> Result<Text, NoMemory>
    ensures { IfOk result (λ text. text ≡ class_signature_text (all_parameters parameters.now) (java_type superclass.now) (type_list interfaces.now)) }
{
    let mut text = Text::new(alloc);
    put_parameters(&mut text, parameters)?;
    put_spelled(&mut text, superclass)?;
    put_all(&mut text, interfaces)?;
    Ok(text)
}

/// The signature of a method: its type parameters, its parameters in parentheses, and its result. What it throws is left out.
pub fn method_signature(
    alloc: Global,
    parameters: &Parameters,
    arguments: &TyList,
    returned: &Ty,
) -> Result<Text, NoMemory>
    ensures { IfOk result (λ text. text ≡ method_signature_text (all_parameters parameters.now) (type_list arguments.now) (java_type returned.now)) }
{
    let mut text = Text::new(alloc);
    put_parameters(&mut text, parameters)?;
    text.push_str("(")?;
    put_all(&mut text, arguments)?;
    text.push_str(")")?;
    put_spelled(&mut text, returned)?;
    Ok(text)
}
