//! Classes around a place, supertypes, and member classes along them.

use crate::question::Asked;
use pj_base::{NoMemory, Text};
use pj_declared::Declared;
use pj_names::{Answer, AskFault, ClassName, ClassNames, Oracle, TyList};
use pj_outer_names::{File, member_in, next_searched, outside_supertypes, with_classes};
use pj_row_java::{Over, place_of, put_word, unquoted, without_number};
use pj_signatures::{ClassSig, class_signature};
use pj_tree::Node;
use pj_types::NameWalk;
use std::alloc::Global;

/// Puts `nothing` where nothing was put.
fn put_nothing(out: &mut Text) -> Result<(), NoMemory> {
    if out.is_empty() {
        return out.push_str("nothing");
    }
    Ok(())
}

/// Puts the classes around a place, up to what was found.
fn put_around(
    out: &mut Text,
    file: &File<'_>,
    found: Option<Declared>,
    place: Node,
) -> Result<(), NoMemory> {
    let tree = file.tree();
    let mut inside = place;
    for _class in 0..tree.len() {
        if inside.0 >= tree.len() {
            break;
        }
        let Some(class) = next_searched(tree, found, inside) else {
            break;
        };
        put_word(out, without_number(file.class_text(class)))?;
        inside = class;
    }
    put_nothing(out)
}

/// Puts the classes around the marked place, from the inside out, that stand further in than what the name means there by the file alone.
pub fn put_classes_around(
    out: &mut Text,
    file: &File<'_>,
    asked: &Asked<'_>,
) -> Result<(), NoMemory> {
    let Some(place) = place_of(file.tree(), asked.text) else {
        return out.push_str("! no place");
    };
    let found = file
        .declarations()
        .class_or_type_parameter(asked.name(), place);
    put_around(out, file, found, place)
}

/// Puts names.
fn put_names(out: &mut Text, names: &ClassNames) -> Result<(), NoMemory> {
    for name in names.as_slice() {
        put_word(out, name.as_str())?;
    }
    put_nothing(out)
}

/// Puts the direct supertypes of a class, which is asked.
pub fn put_supertypes<O: Oracle>(
    alloc: Global,
    over: &mut Over<'_, O>,
    class: &str,
    out: &mut Text,
) -> Result<(), AskFault> {
    let Some(name) = ClassName::of(alloc, class)? else {
        return Ok(out.push_str("! no class")?);
    };
    let names = outside_supertypes(alloc, over, &name)?;
    Ok(put_names(out, &names)?)
}

/// The superclass and the interfaces of a signature, one list.
fn types_of(alloc: Global, signature: ClassSig) -> Result<TyList, NoMemory> {
    let ClassSig {
        params: _params,
        superclass,
        interfaces,
    } = signature;
    let mut types = TyList::new(alloc);
    types.push(superclass)?;
    types.append(interfaces)?;
    Ok(types)
}

/// The direct supertypes that a signature spells.
fn spelled_supertypes(alloc: Global, signature: &str) -> Result<ClassNames, NoMemory> {
    let names = ClassNames::new(alloc);
    match class_signature(alloc, signature)? {
        Some(signature) => with_classes(names, types_of(alloc, signature)?),
        None => Ok(names),
    }
}

/// The direct supertypes of a class by its answer.
fn answered_supertypes(alloc: Global, answer: &Answer) -> Result<ClassNames, NoMemory> {
    match answer {
        Answer::Found(class) => spelled_supertypes(alloc, class.signature.as_str()),
        Answer::Absent | Answer::Broken(_) => Ok(ClassNames::new(alloc)),
    }
}

/// The direct supertypes of a class of the file, for which it is not asked.
fn supertypes_in_file<O: Oracle>(
    alloc: Global,
    over: &mut Over<'_, O>,
    name: &ClassName,
) -> Result<ClassNames, AskFault> {
    let answer = over.answer(name)?;
    Ok(answered_supertypes(alloc, &answer)?)
}

/// The direct supertypes of a class.
fn supertypes<O: Oracle>(
    alloc: Global,
    file: &File<'_>,
    over: &mut Over<'_, O>,
    name: &ClassName,
) -> Result<ClassNames, AskFault> {
    if name.is_object() {
        return Ok(ClassNames::new(alloc));
    }
    if file.class_named(name.as_str()).is_some() {
        return supertypes_in_file(alloc, over, name);
    }
    outside_supertypes(alloc, over, name)
}

/// The first member class of the simple name along the supertypes of a class.
fn first_member<O: Oracle>(
    alloc: Global,
    file: &File<'_>,
    over: &mut Over<'_, O>,
    own_counts: bool,
    class: &ClassName,
    simple: &str,
) -> Result<Option<ClassName>, AskFault> {
    let mut walk = NameWalk::of(alloc, class)?;
    for _class in 0..1000 {
        let Some(next) = walk.next_class()? else {
            return Ok(None);
        };
        let hit = member_in(alloc, file, over, own_counts, class, simple, &next)?;
        if let Some(hit) = hit {
            return Ok(Some(hit));
        }
        let more = supertypes(alloc, file, over, &next)?;
        walk.put(more)?;
    }
    Err(AskFault::Memory)
}

/// Puts the member class of a simple name and a class, with `of` between.
pub fn put_member<O: Oracle>(
    alloc: Global,
    file: &File<'_>,
    over: &mut Over<'_, O>,
    own_counts: bool,
    sought: &str,
    out: &mut Text,
) -> Result<(), AskFault> {
    let (simple, class) = sought.split_once(" of ").unwrap_or(("", ""));
    let Some(class) = ClassName::of(alloc, class)? else {
        return Ok(out.push_str("! no class")?);
    };
    match first_member(alloc, file, over, own_counts, &class, unquoted(simple))? {
        Some(member) => Ok(out.push_str(member.as_str())?),
        None => Ok(out.push_str("none")?),
    }
}
