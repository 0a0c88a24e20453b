//! Writing numbers, byte strings and answers.
ghost use Rattle.std.specs.Prelude.{◌≡◌, ◌++◌, ◌∷◌, ◌<◌, ◌^◌, [], OnOk};
ghost use Rattle.pj_cache_format.specs.Fitting.{HasRoom, AllFit, FitsText, FitsMember, FitsClass, FitsBroken, FitsAnswer, FitsNamed};
ghost use Rattle.pj_cache_format.specs.Texts.{number, flags, string, counted, member_text, class_text, broken_text, answer_tag, answer_content, answer_text};

use pj_base::NoMemory;
use pj_names::{Answer, Broken, ClassInfo, ClassName, Member};
use std::sync::Arc;

/// Puts a number of four bytes at the end, the highest one first.
pub fn put_number(out: &mut Vec<u8>, n: u32) -> Result<(), NoMemory>
    ensures { OnOk result (out.new.items ≡ out.old.items ++ number n) }
{
    out.extend_from_slice(&n.to_be_bytes())?;
    Ok(())
}

/// Puts how many there are at the end. More than four bytes tell are want of memory.
pub fn put_count(out: &mut Vec<u8>, count: usize) -> Result<(), NoMemory>
    ensures put { OnOk result (out.new.items ≡ out.old.items ++ number count) }
    ensures room { OnOk result (count < 2 ^ 32) }
{
    if count > 0xffff_ffff {
        return Err(NoMemory);
    }
    put_number(out, count as u32)
}

/// Puts bytes at the end, behind their number. More than four bytes tell are want of memory.
pub fn put_bytes(out: &mut Vec<u8>, bytes: &[u8]) -> Result<(), NoMemory>
    ensures put { OnOk result (out.new.items ≡ out.old.items ++ string bytes.now) }
    ensures room { OnOk result (HasRoom bytes.now) }
{
    put_count(out, bytes.len())?;
    out.extend_from_slice(bytes)?;
    Ok(())
}

/// Puts a text at the end, behind the number of its bytes. More than four bytes tell are want of memory.
pub fn put_text(out: &mut Vec<u8>, text: &str) -> Result<(), NoMemory>
    ensures put { OnOk result (out.new.items ≡ out.old.items ++ string text.now) }
    ensures room { OnOk result (FitsText text.now) }
{
    put_bytes(out, text.as_bytes())
}

/// Puts access flags at the end.
fn put_flags(out: &mut Vec<u8>, n: u16) -> Result<(), NoMemory>
    ensures { OnOk result (out.new.items ≡ out.old.items ++ flags n) }
{
    out.extend_from_slice(&n.to_be_bytes())?;
    Ok(())
}

/// Puts a field or a method at the end.
fn put_member(out: &mut Vec<u8>, member: &Member) -> Result<(), NoMemory>
    ensures put { OnOk result (out.new.items ≡ out.old.items ++ member_text member.now) }
    ensures room { OnOk result (FitsMember member.now) }
{
    put_flags(out, member.flags)?;
    put_text(out, member.name.as_str())?;
    put_text(out, member.signature.as_str())
}

/// Puts fields or methods at the end.
fn put_members(out: &mut Vec<u8>, members: &[Member]) -> Result<(), NoMemory>
    ensures put { OnOk result (out.new.items ≡ out.old.items ++ counted member_text members.now) }
    ensures room { OnOk result (AllFit FitsMember members.now) }
{
    put_count(out, members.len())?;
    for member in members {
        put_member(out, member)?;
    }
    Ok(())
}

/// Puts a class at the end, without its name.
fn put_class(out: &mut Vec<u8>, class: &ClassInfo) -> Result<(), NoMemory>
    ensures put { OnOk result (out.new.items ≡ out.old.items ++ class_text class.now) }
    ensures room { OnOk result (FitsClass class.now) }
{
    put_flags(out, class.flags)?;
    put_text(out, class.signature.as_str())?;
    put_members(out, class.fields.as_slice())?;
    put_members(out, class.methods.as_slice())
}

/// Puts why a class is not readable at the end.
fn put_broken(out: &mut Vec<u8>, broken: &Broken) -> Result<(), NoMemory>
    ensures put { OnOk result (out.new.items ≡ out.old.items ++ broken_text broken.now) }
    ensures room { OnOk result (FitsBroken broken.now) }
{
    match broken {
        Broken::Class(fault) => {
            out.push(1)?;
            out.push(fault.kind)?;
            put_number(out, fault.offset)?;
        }
        Broken::OtherName => out.push(2)?,
        Broken::TooLong => out.push(3)?,
    }
    Ok(())
}

/// Puts what stands behind the name of an answer at the end.
fn put_content(out: &mut Vec<u8>, answer: &Answer) -> Result<(), NoMemory>
    ensures put { OnOk result (out.new.items ≡ out.old.items ++ answer_tag answer.now ∷ answer_content answer.now) }
    ensures room { OnOk result (FitsAnswer answer.now) }
{
    match answer {
        Answer::Absent => {
            out.push(0)?;
            Ok(())
        }
        Answer::Found(class) => {
            out.push(1)?;
            put_class(out, class)
        }
        Answer::Broken(broken) => {
            out.push(2)?;
            put_broken(out, broken)
        }
    }
}

/// Puts a name with its answer at the end.
fn put_answer(out: &mut Vec<u8>, name: &ClassName, answer: &Answer) -> Result<(), NoMemory>
    ensures put { OnOk result (out.new.items ≡ out.old.items ++ answer_text (name.now, answer.now)) }
    ensures room { OnOk result (FitsNamed (name.now, answer.now)) }
{
    put_text(out, name.as_str())?;
    put_content(out, answer)
}

/// Puts answers with their names at the end, behind their number. More members or bytes than four bytes tell are want of memory.
pub fn put_answers(out: &mut Vec<u8>, answers: &[(ClassName, Arc<Answer>)]) -> Result<(), NoMemory>
    ensures put { OnOk result (out.new.items ≡ out.old.items ++ counted (λ a. answer_text (a.0, a.1.value)) answers.now) }
    ensures room { OnOk result (AllFit (λ a. FitsNamed (a.0, a.1.value)) answers.now) }
{
    put_count(out, answers.len())?;
    for (name, answer) in answers {
        put_answer(out, name, answer)?;
    }
    Ok(())
}
