//! Reading answers about classes.
ghost use Rattle.std.specs.Prelude.{◌≡◌, ◌≤◌, length, map, true, false, Some, None, IfOk, MatchOption};
ghost use Rattle.std.specs.Option.{option_copied};
ghost use Rattle.pj_format.specs.Format.{first};
ghost use Rattle.pj_format.specs.Fields.{Gives, several, several_from};
ghost use Rattle.pj_names.specs.ClassName.{is_class_name};
ghost use Rattle.pj_cache_format.specs.Answers.{member, members, found, class_fault, is_broken_tag, broken_class, answer_behind, is_name_behind, answer, answer_list};

use crate::fields::{is_behind, is_text, made_text, or_memory, text_of, wrong};
use pj_base::{Copied, NoMemory};
use pj_format::{Refused, sized_of, u8_of, u16_of, u32_of};
use pj_names::{Answer, Answers, Broken, ClassFault, ClassInfo, ClassName, Member, Members};
use std::alloc::Global;
use std::sync::Arc;

/// A field or a method.
#[tactic(auto, using(pj_format::proofs::Laws::reads), unfolding(pj_cache_format::specs::Answers::member))]
fn member_of(alloc: Global, bytes: &[u8], at: u32) -> Result<(Member, u32), Refused>
    requires { length bytes.now ≤ 4294967294 }
    ensures { Gives (λ x. x) result (first member bytes.now at) }
{
    let (flags, behind) = u16_of(bytes, at)?;
    let (name, behind) = text_of(alloc, bytes, behind)?;
    let (signature, behind) = text_of(alloc, bytes, behind)?;
    Ok((
        Member {
            flags,
            name,
            signature,
        },
        behind,
    ))
}

/// So many fields or methods.
fn member_list_of(
    alloc: Global,
    bytes: &[u8],
    count: u32,
    at: u32,
) -> Result<(Vec<Member>, u32), Refused>
    requires { length bytes.now ≤ 4294967294 }
    ensures { Gives (λ x. (x.0.items, x.1)) result (first (several member count) bytes.now at) }
{
    let mut list = Vec::new(alloc);
    let mut place = at;
    for _ in 0..count {
        let (item, behind) = member_of(alloc, bytes, place)?;
        list.push(item)?;
        place = behind;
    }
    Ok((list, place))
}

/// Fields or methods behind their number.
#[tactic(auto, using(pj_format::proofs::Laws::reads), unfolding(pj_cache_format::specs::Answers::members))]
fn members_of(alloc: Global, bytes: &[u8], at: u32) -> Result<(Members, u32), Refused>
    requires { length bytes.now ≤ 4294967294 }
    ensures { Gives (λ x. x) result (first members bytes.now at) }
{
    let (count, behind) = u32_of(bytes, at)?;
    let (list, end) = member_list_of(alloc, bytes, count, behind)?;
    Ok((Members::from_vec(list), end))
}

/// A class of this name.
#[tactic(auto, using(pj_format::proofs::Laws::reads), unfolding(pj_cache_format::specs::Answers::found))]
fn found_of(
    alloc: Global,
    name: &ClassName,
    bytes: &[u8],
    at: u32,
) -> Result<(Answer, u32), Refused>
    requires { length bytes.now ≤ 4294967294 }
    ensures { Gives (λ x. x) result (first (found name.now) bytes.now at) }
{
    let (flags, behind) = u16_of(bytes, at)?;
    let (signature, behind) = text_of(alloc, bytes, behind)?;
    let (fields, behind) = members_of(alloc, bytes, behind)?;
    let (methods, behind) = members_of(alloc, bytes, behind)?;
    let name = or_memory(name.copied())?;
    Ok((
        Answer::Found(ClassInfo {
            name,
            flags,
            signature,
            fields,
            methods,
        }),
        behind,
    ))
}

/// A fault of the bytes of a class file.
#[tactic(auto, using(pj_format::proofs::Laws::reads), unfolding(pj_cache_format::specs::Answers::class_fault))]
fn class_fault_of(bytes: &[u8], at: u32) -> Result<(Broken, u32), Refused>
    requires { length bytes.now ≤ 4294967294 }
    ensures { Gives (λ x. x) result (first class_fault bytes.now at) }
{
    let (kind, behind) = u8_of(bytes, at)?;
    let (offset, behind) = u32_of(bytes, behind)?;
    Ok((Broken::Class(ClassFault { kind, offset }), behind))
}

/// Whether it is a tag of a class that is not readable.
fn is_broken_tag(tag: u8) -> bool
    ensures { result ≡ is_broken_tag tag }
{
    0 < tag && tag < 4
}

/// A class that is not readable.
#[tactic(auto, using(pj_format::proofs::Laws::reads), unfolding(pj_cache_format::specs::Answers::broken_class))]
fn broken_of(bytes: &[u8], at: u32) -> Result<(Answer, u32), Refused>
    requires { length bytes.now ≤ 4294967294 }
    ensures { Gives (λ x. x) result (first broken_class bytes.now at) }
{
    let (tag, behind) = u8_of(bytes, at)?;
    if !is_broken_tag(tag) {
        return Err(wrong(at));
    }
    if tag == 1 {
        let (what, behind) = class_fault_of(bytes, behind)?;
        return Ok((Answer::Broken(what), behind));
    }
    if tag == 2 {
        return Ok((Answer::Broken(Broken::OtherName), behind));
    }
    Ok((Answer::Broken(Broken::TooLong), behind))
}

/// What stands behind the tag of an answer.
#[tactic(auto, using(pj_format::proofs::Laws::reads))]
fn content_of(
    alloc: Global,
    name: &ClassName,
    tag: u8,
    bytes: &[u8],
    at: u32,
) -> Result<(Answer, u32), Refused>
    requires { length bytes.now ≤ 4294967294 }
    ensures { Gives (λ x. x) result (first (answer_behind name.now tag) bytes.now at) }
{
    if tag == 0 {
        return Ok((Answer::Absent, at));
    }
    if tag == 1 {
        return found_of(alloc, name, bytes, at);
    }
    broken_of(bytes, at)
}

/// The name that bytes are, where it stands behind the bytes before it.
fn name_behind(
    alloc: Global,
    before: Option<&[u8]>,
    bytes: &[u8],
) -> Result<Option<ClassName>, NoMemory>
    ensures { IfOk result (λ name. MatchOption name (is_name_behind (option_copied before.entry) bytes.now ≡ false)
        (λ made. (is_name_behind (option_copied before.entry) bytes.now ≡ true) × (made ≡ bytes.now))) }
{
    if !is_text(bytes) || !is_behind(before, bytes) {
        return Ok(None);
    }
    match str::from_utf8(bytes) {
        Ok(text) => ClassName::of(alloc, text),
        Err(_) => Err(NoMemory),
    }
}

/// A name with its answer, and the name's bytes.
type Named<'b> = ((ClassName, Arc<Answer>), &'b [u8]);

/// An answer behind that of another name.
#[tactic(auto, using(pj_format::proofs::Laws::reads), unfolding(pj_cache_format::specs::Answers::answer))]
fn answer_of<'b>(
    alloc: Global,
    before: Option<&[u8]>,
    bytes: &'b [u8],
    at: u32,
) -> Result<(Named<'b>, u32), Refused>
    requires { length bytes.now ≤ 4294967294 }
    ensures { Gives (λ x. (((x.0.0.0, x.0.0.1.value), Some x.0.1.now), x.1)) result (first (answer (option_copied before.entry)) bytes.now at) }
{
    let (found, tag_at) = sized_of(bytes, at)?;
    let name = match name_behind(alloc, before, found) {
        Ok(Some(name)) => name,
        Ok(None) => return Err(wrong(at)),
        Err(_) => return Err(Refused::Memory),
    };
    let (tag, behind) = u8_of(bytes, tag_at)?;
    if tag >= 3 {
        return Err(wrong(tag_at));
    }
    let (answer, behind) = content_of(alloc, &name, tag, bytes, behind)?;
    Ok((((name, Arc::new(alloc, answer)?), found), behind))
}

/// So many answers by strictly ascending name.
fn several_answers_of(
    alloc: Global,
    bytes: &[u8],
    count: u32,
    at: u32,
) -> Result<(Vec<(ClassName, Arc<Answer>)>, u32), Refused>
    requires { length bytes.now ≤ 4294967294 }
    ensures { Gives (λ x. (map (λ a. (a.0, a.1.value)) x.0.items, x.1)) result (first (several_from answer count None) bytes.now at) }
{
    let mut list = Vec::new(alloc);
    let mut before = None;
    let mut place = at;
    for _ in 0..count {
        let ((item, found), behind) = answer_of(alloc, before, bytes, place)?;
        list.push(item)?;
        before = Some(found);
        place = behind;
    }
    Ok((list, place))
}

/// The answers by strictly ascending name, behind their number.
#[tactic(auto, using(pj_format::proofs::Laws::reads), unfolding(pj_cache_format::specs::Answers::answer_list))]
pub(crate) fn answers_of(alloc: Global, bytes: &[u8], at: u32) -> Result<(Answers, u32), Refused>
    requires { length bytes.now ≤ 4294967294 }
    ensures { Gives (λ x. x) result (first answer_list bytes.now at) }
{
    let (count, behind) = u32_of(bytes, at)?;
    let (list, end) = several_answers_of(alloc, bytes, count, behind)?;
    Ok((Answers::from_vec(list), end))
}
