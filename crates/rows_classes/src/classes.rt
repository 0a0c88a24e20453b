//! The classes of a section.
use crate::row_fault::RowFault;
use pj_base::Text;
use pj_names::{Answer, Answers, Broken, ClassInfo, ClassName, MapOracle, Member, Members};
use pj_rows::Section;
use std::alloc::Global;
use std::sync::Arc;

/// The name of a class.
pub fn class_name(alloc: Global, text: &str) -> Result<ClassName, RowFault> {
    match ClassName::of(alloc, text)? {
        Some(name) => Ok(name),
        None => Err(RowFault::Unread("no name of a class")),
    }
}

/// Puts a public member from its name and its signature, a space between them.
fn put_member(alloc: Global, members: &mut Members, text: &str) -> Result<(), RowFault> {
    let Some((name, signature)) = text.split_once(' ') else {
        return Err(RowFault::Unread("a member without a signature"));
    };
    members.push(Member {
        flags: 1,
        name: Text::from_str(alloc, name)?,
        signature: Text::from_str(alloc, signature)?,
    })?;
    Ok(())
}

/// The members of a text that have parentheses, the methods, or those that have none, the fields. A bar stands before each.
fn members_of(alloc: Global, are_methods: bool, text: &str) -> Result<Members, RowFault> {
    let mut members = Members::new(alloc);
    for part in text.split('|').skip(1) {
        if part.contains('(') == are_methods {
            put_member(alloc, &mut members, part)?;
        }
    }
    Ok(members)
}

/// The class of a name, from its signature and its members; or that it is `broken` or `absent`.
fn answer_of(alloc: Global, name: &str, text: &str) -> Result<Answer, RowFault> {
    match text {
        "broken" => return Ok(Answer::Broken(Broken::OtherName)),
        "absent" => return Ok(Answer::Absent),
        _ => {}
    }
    let signature = text.split('|').next().unwrap_or("");
    Ok(Answer::Found(ClassInfo {
        name: class_name(alloc, name)?,
        flags: 33,
        signature: Text::from_str(alloc, signature)?,
        fields: members_of(alloc, false, text)?,
        methods: members_of(alloc, true, text)?,
    }))
}

/// Puts the class of a text: its name, a space, and what it is.
pub fn put_class(alloc: Global, answers: &mut Answers, text: &str) -> Result<(), RowFault> {
    let Some((name, told)) = text.split_once(' ') else {
        return Err(RowFault::Unread("a class without a signature"));
    };
    let answer = answer_of(alloc, name, told)?;
    let answer = Arc::new(alloc, answer)?;
    answers.push(class_name(alloc, name)?, answer)?;
    Ok(())
}

/// The classes of a section's settings.
pub fn oracle_of(alloc: Global, section: &Section) -> Result<MapOracle, RowFault> {
    let mut answers = Answers::new(alloc);
    for setting in &section.settings {
        if setting.name.as_str() == "class" {
            put_class(alloc, &mut answers, setting.value.as_str())?;
        }
    }
    Ok(MapOracle::new(alloc, answers))
}
