//! What is asked over the oracle of a file.

ghost use Rattle.std.specs.Prelude.{◌<◌, length};

use crate::question::{Asked, Asking};
use crate::variables::put_variable;
use pj_base::{NoMemory, Text};
use pj_file_oracle::{Held, resolve_type};
use pj_members::find_field;
use pj_names::{AskFault, ClassName, Oracle};
use pj_outer_names::File;
use pj_row_java::{Beneath, place_of, put_answer, put_type, put_word};
use pj_scopes::{FileOracle, resolve_name};
use pj_tree::Node;
use pj_types::{Field, supertypes};
use std::alloc::Global;

/// The name of the last class of the file whose name begins with a text, and the text where there is none.
fn last_beginning<'c>(file: &'c File<'_>, name: &'c str) -> &'c str {
    let mut last = name;
    for class in file.classes().as_slice() {
        if class.name.as_str().starts_with(name) {
            last = class.name.as_str();
        }
    }
    last
}

/// The class of the name. One that ends with `$$` is that of the last class that has it with a number behind.
fn class_of(alloc: Global, file: &File<'_>, name: &str) -> Result<Option<ClassName>, NoMemory> {
    if name.ends_with("$$") {
        ClassName::of(alloc, last_beginning(file, name))
    } else {
        ClassName::of(alloc, name)
    }
}

/// Puts the answer for a class.
fn put_class(
    alloc: Global,
    file: &File<'_>,
    beneath: &mut Beneath,
    class: &ClassName,
    out: &mut Text,
) -> Result<(), AskFault> {
    let mut held = Held::new(alloc);
    let mut oracle = FileOracle::new(alloc, file, beneath, &mut held);
    let answer = oracle.ask(class)?;
    Ok(put_answer(alloc, out, &answer)?)
}

/// Puts the answer for a class that is given when it is asked once more. Just what is asked then is noted.
fn put_class_again(
    alloc: Global,
    file: &File<'_>,
    beneath: &mut Beneath,
    class: &ClassName,
    out: &mut Text,
) -> Result<(), AskFault> {
    let mut held = Held::new(alloc);
    let mut oracle = FileOracle::new(alloc, file, beneath, &mut held);
    let _ = oracle.ask(class)?;
    oracle.inner.forget();
    let answer = oracle.ask(class)?;
    Ok(put_answer(alloc, out, &answer)?)
}

/// Puts names.
fn put_names(out: &mut Text, names: &[Text]) -> Result<(), NoMemory> {
    for name in names {
        put_word(out, name.as_str())?;
    }
    Ok(())
}

/// Puts the list of the supertypes of a class.
fn put_supertypes(
    alloc: Global,
    file: &File<'_>,
    beneath: &mut Beneath,
    class: &ClassName,
    out: &mut Text,
) -> Result<(), AskFault> {
    let mut held = Held::new(alloc);
    let mut oracle = FileOracle::new(alloc, file, beneath, &mut held);
    let names = supertypes(alloc, &mut oracle, class)?;
    Ok(put_names(out, names.as_slice())?)
}

/// Puts the class that has a field, and the type of the field.
fn put_field(out: &mut Text, field: &Option<Field>) -> Result<(), NoMemory> {
    match field {
        Some(field) => {
            out.push_str(field.owner.as_str())?;
            out.push_str(" ")?;
            put_type(out, &field.ty)
        }
        None => out.push_str("none"),
    }
}

/// Puts the field `x` of a class.
fn put_found_field(
    alloc: Global,
    file: &File<'_>,
    beneath: &mut Beneath,
    class: &ClassName,
    out: &mut Text,
) -> Result<(), AskFault> {
    let mut held = Held::new(alloc);
    let mut oracle = FileOracle::new(alloc, file, beneath, &mut held);
    let field = find_field(alloc, &mut oracle, class, "x")?;
    Ok(put_field(out, &field)?)
}

/// Puts the type that a name means at a place.
fn put_type_at(
    alloc: Global,
    file: &File<'_>,
    beneath: &mut Beneath,
    name: &str,
    at: Node,
    out: &mut Text,
) -> Result<(), AskFault>
    requires inside { at.0 < length file.now.nodes }
{
    let mut held = Held::new(alloc);
    let mut oracle = FileOracle::new(alloc, file, beneath, &mut held);
    let ty = resolve_type(&mut oracle, at, name)?;
    Ok(put_type(out, &ty)?)
}

/// Puts the variable that a name means at a place.
fn put_variable_at(
    alloc: Global,
    file: &File<'_>,
    beneath: &mut Beneath,
    asked: &Asked<'_>,
    at: Node,
    out: &mut Text,
) -> Result<(), AskFault>
    requires inside { at.0 < length file.now.nodes }
{
    let mut held = Held::new(alloc);
    let mut oracle = FileOracle::new(alloc, file, beneath, &mut held);
    let variable = resolve_name(&mut oracle, at, asked.name())?;
    Ok(put_variable(alloc, out, file, asked.text, &variable)?)
}

/// Puts what is found of the class that is named.
fn put_of_class(
    alloc: Global,
    file: &File<'_>,
    beneath: &mut Beneath,
    asking: Asking,
    asked: &Asked<'_>,
    out: &mut Text,
) -> Result<(), AskFault> {
    let Some(class) = class_of(alloc, file, asked.name())? else {
        return Ok(out.push_str("! no class")?);
    };
    match asking {
        Asking::AnswerAgain => put_class_again(alloc, file, beneath, &class, out),
        Asking::Supertypes => put_supertypes(alloc, file, beneath, &class, out),
        Asking::Field => put_found_field(alloc, file, beneath, &class, out),
        _ => put_class(alloc, file, beneath, &class, out),
    }
}

/// Puts what is found of the marked place, or of the class that is named.
pub fn put_asked(
    alloc: Global,
    file: &File<'_>,
    beneath: &mut Beneath,
    asking: Asking,
    asked: &Asked<'_>,
    out: &mut Text,
) -> Result<(), AskFault> {
    match (asking, place_of(file.tree(), asked.text)) {
        (Asking::Type, Some(at)) => put_type_at(alloc, file, beneath, asked.name(), at, out),
        (Asking::Variable, Some(at)) => put_variable_at(alloc, file, beneath, asked, at, out),
        _ => put_of_class(alloc, file, beneath, asking, asked, out),
    }
}
