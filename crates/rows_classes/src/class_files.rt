//! Bytes of class files, with the class that is read of them or its first fault.
use crate::classes::class_name;
use crate::row_fault::{RowFault, answer_text};
use crate::shown::text_of;
use pj_base::{Bytes, NoMemory, Text};
use pj_classfile::{ClassRefused, answer_of, parse};
use pj_names::{Answer, Broken, ClassFault, ClassInfo, ClassName, Members};
use pj_outside::Reading;
use pj_rows::{Row, Section, Table};
use std::alloc::Global;

/// The table.
pub struct ClassFiles;

impl Table for ClassFiles {
    fn has_setting(&self, name: &str) -> bool {
        name == "class" || name == "front" || name == "shows"
    }

    fn answer(&self, alloc: Global, section: &Section, row: &Row) -> Result<String, NoMemory> {
        answer_text(alloc, answer(alloc, section, row.given.as_str()))
    }
}

fn answer(alloc: Global, section: &Section, given: &str) -> Result<String, RowFault> {
    let class = section.setting("class").unwrap_or("");
    let front = section.setting("front").unwrap_or("");
    match section.setting("shows").unwrap_or("") {
        "cut" => faults_of_range(alloc, &bytes_of(alloc, class, "")?, given, true),
        "changed" => faults_of_range(alloc, &bytes_of(alloc, class, "")?, given, false),
        "name" => fault_of_name(alloc, bytes_of(alloc, class, "")?, given),
        "fault" => fault_text(alloc, fault_in(alloc, &bytes_of(alloc, front, given)?)?),
        "class" => class_of(alloc, &bytes_of(alloc, front, given)?),
        "answer" => answer_for(alloc, bytes_of(alloc, class, "")?, given),
        _ => Err(RowFault::Unread("no such @shows")),
    }
}

/// Puts the bytes of hexadecimal digits.
fn put_digits(bytes: &mut Vec<u8>, digits: &str) -> Result<(), RowFault> {
    let mut high = None;
    for digit in digits.chars() {
        let digit = match digit.to_digit(16) {
            Some(digit) => u8::try_from(digit).unwrap_or(0),
            None => return Err(RowFault::Unread("no hexadecimal digit")),
        };
        high = match high {
            None => Some(digit),
            Some(high) => {
                let high: u8 = high;
                bytes.push(high.saturating_mul(16).saturating_add(digit))?;
                None
            }
        };
    }
    if high.is_some() {
        return Err(RowFault::Unread("a digit too many"));
    }
    Ok(())
}

/// Puts the bytes of a word: characters between quotes, or hexadecimal digits.
fn put_word(bytes: &mut Vec<u8>, word: &str) -> Result<(), RowFault> {
    match word.strip_prefix("'") {
        Some(characters) => {
            let characters = characters.strip_suffix("'").unwrap_or(characters);
            bytes.extend_from_slice(characters.as_bytes())?;
            Ok(())
        }
        None => put_digits(bytes, word),
    }
}

/// The bytes of the words of a front and of what stands behind it.
fn bytes_of(alloc: Global, front: &str, behind: &str) -> Result<Vec<u8>, RowFault> {
    let mut bytes = Vec::new(alloc);
    for word in front.split_whitespace() {
        put_word(&mut bytes, word)?;
    }
    for word in behind.split_whitespace() {
        put_word(&mut bytes, word)?;
    }
    Ok(bytes)
}

/// The fault of bytes, or `None` where they are a class.
fn fault_in(alloc: Global, bytes: &[u8]) -> Result<Option<ClassFault>, RowFault> {
    if bytes.len() > 4_294_967_294 {
        return Err(RowFault::Unread("too many bytes"));
    }
    match parse(alloc, bytes) {
        Ok(_) => Ok(None),
        Err(ClassRefused::Fault(fault)) => Ok(Some(fault)),
        Err(ClassRefused::Memory) => Err(RowFault::Memory),
    }
}

fn fault_text(alloc: Global, fault: Option<ClassFault>) -> Result<String, RowFault> {
    match fault {
        None => Ok(text_of(alloc, "class")?),
        Some(ClassFault { kind, offset }) => Ok(format!(in alloc; "! {kind} at {offset}")?),
    }
}

/// The first and the last number of a range, as `3 to 5` or `3`.
fn range_of(range: &str) -> Result<(usize, usize), RowFault> {
    let (first, last) = range.split_once(" to ").unwrap_or((range, range));
    match (first.parse::<usize>(), last.parse::<usize>()) {
        (Ok(first), Ok(last)) => Ok((first, last)),
        _ => Err(RowFault::Unread("no numbers")),
    }
}

/// The fault of the first bytes of a class, so many of them.
fn cut_fault(alloc: Global, class: &[u8], len: usize) -> Result<Option<ClassFault>, RowFault> {
    match class.get(..len) {
        Some(bytes) => fault_in(alloc, bytes),
        None => Err(RowFault::Unread("the class is shorter")),
    }
}

/// The fault of a class where the byte of a place is 0xff.
fn changed_fault(
    alloc: Global,
    class: &[u8],
    place: usize,
) -> Result<Option<ClassFault>, RowFault> {
    let mut bytes = Vec::from_slice(alloc, class)?;
    match bytes.get_mut(place) {
        Some(byte) => *byte = 0xff,
        None => return Err(RowFault::Unread("the class is shorter")),
    }
    fault_in(alloc, &bytes)
}

/// The faults of the lengths or places of a range, those that follow each other and are the same once.
fn faults_of_range(
    alloc: Global,
    class: &[u8],
    range: &str,
    is_cut: bool,
) -> Result<String, RowFault> {
    let (first, last) = range_of(range)?;
    let mut text = String::new(alloc);
    let mut latest = None;
    for number in first..last.saturating_add(1) {
        let fault = if is_cut {
            cut_fault(alloc, class, number)?
        } else {
            changed_fault(alloc, class, number)?
        };
        if latest != Some(fault) {
            text.push_str(if latest.is_some() { ", " } else { "" })?;
            text.push_str(fault_text(alloc, fault)?.as_str())?;
        }
        latest = Some(fault);
    }
    Ok(text)
}

/// The kind of the fault of the class with other bytes in the place of its name.
fn fault_of_name(alloc: Global, class: Vec<u8>, name: &str) -> Result<String, RowFault> {
    let name = bytes_of(alloc, name, "")?;
    let mut bytes = class;
    for (place, byte) in name.iter().enumerate() {
        if let Some(there) = bytes.get_mut(place.saturating_add(16)) {
            *there = *byte;
        }
    }
    match fault_in(alloc, &bytes)? {
        None => Ok(text_of(alloc, "class")?),
        Some(fault) => {
            let kind = fault.kind;
            Ok(format!(in alloc; "! {kind}")?)
        }
    }
}

/// Puts members at the end, each with its signature.
fn put_members(text: &mut Text, word: &str, members: &Members) -> Result<(), NoMemory> {
    for member in members.as_slice() {
        text.push_str(word)?;
        text.push_str(member.name.as_str())?;
        text.push_str(" ")?;
        text.push_str(member.signature.as_str())?;
    }
    Ok(())
}

/// A class: its name, flags, signature and members.
fn class_text(alloc: Global, class: &ClassInfo) -> Result<String, RowFault> {
    let flags = class.flags;
    let mut text = Text::new(alloc);
    text.push_str(class.name.as_str())?;
    text.push_str(format!(in alloc; ", flags {flags}, ")?.as_str())?;
    text.push_str(class.signature.as_str())?;
    put_members(&mut text, ", field ", &class.fields)?;
    put_members(&mut text, ", method ", &class.methods)?;
    Ok(text.into_string())
}

/// The class that is read of bytes, or their fault.
fn class_of(alloc: Global, bytes: &[u8]) -> Result<String, RowFault> {
    if bytes.len() > 4_294_967_294 {
        return Err(RowFault::Unread("too many bytes"));
    }
    match parse(alloc, bytes) {
        Ok(class) => class_text(alloc, &class),
        Err(ClassRefused::Fault(fault)) => fault_text(alloc, Some(fault)),
        Err(ClassRefused::Memory) => Err(RowFault::Memory),
    }
}

/// What was read of a class's file: `absent`, `longer`, or `of 54 bytes` of the class.
fn reading_of(alloc: Global, class: Vec<u8>, read: &str) -> Result<Reading, RowFault> {
    match read {
        "absent" => return Ok(Reading::Absent),
        "longer" => return Ok(Reading::Longer),
        _ => {}
    }
    let words = read.strip_prefix("of ").unwrap_or("");
    match words.strip_suffix(" bytes").unwrap_or("").parse::<usize>() {
        Ok(len) => {
            let mut bytes = class;
            bytes.truncate(len);
            Ok(Reading::Whole(Bytes::from_vec(bytes)))
        }
        Err(_) => Err(RowFault::Unread("no such reading")),
    }
}

/// An answer in a word.
fn word_of(answer: &Answer) -> &'static str {
    match answer {
        Answer::Found(_) => "found",
        Answer::Absent => "absent",
        Answer::Broken(Broken::TooLong) => "longer",
        Answer::Broken(Broken::OtherName) => "other name",
        Answer::Broken(Broken::Class(_)) => "fault",
    }
}

/// The answer for a name, in a word.
fn answer_word(
    alloc: Global,
    name: &ClassName,
    reading: &Reading,
) -> Result<&'static str, RowFault> {
    if let Reading::Whole(bytes) = reading
        && bytes.len() > 4_294_967_294
    {
        return Err(RowFault::Unread("too many bytes"));
    }
    Ok(word_of(&answer_of(alloc, name, reading)?))
}

/// The answer for a name whose file was read so, as `p.X of 54 bytes`.
fn answer_for(alloc: Global, class: Vec<u8>, given: &str) -> Result<String, RowFault> {
    let Some((name, read)) = given.split_once(' ') else {
        return Err(RowFault::Unread("no reading"));
    };
    let name = class_name(alloc, name)?;
    let reading = reading_of(alloc, class, read)?;
    Ok(text_of(alloc, answer_word(alloc, &name, &reading)?)?)
}
