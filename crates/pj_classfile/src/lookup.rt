//! What stands behind an index into the constant pool.
ghost use Rattle.std.specs.Prelude.{◌≡◌, IfOk, IsTrue, OnOk};
ghost use Rattle.pj_format.specs.Format.{judged};
ghost use Rattle.pj_format.specs.Fields.{Gives};
ghost use Rattle.pj_signatures.specs.Names.{is_internal_name};
ghost use Rattle.pj_classfile.specs.ClassFile.{views, bytes_in, text_in, class_in, descriptor_in, is_descriptor_of, signature_in, is_signature_of};
ghost use Rattle.pj_classfile.specs.Passed.{ArePassed, text_at};

use crate::fault::{BAD_DESCRIPTOR, BAD_INDEX, BAD_SIGNATURE, BAD_TEXT, or_memory};
use crate::member::{Holder, MemberKind};
use crate::modified_utf8::decode;
use crate::passed::Passed;
use crate::pool::Constant;
use crate::texts::{fits_descriptor, fits_signature};
use pj_base::{NoMemory, Text};
use pj_format::{Refused, refused};
use pj_signatures::is_internal_name;
use std::alloc::Global;

/// The bytes of the text behind an index that stands at `offset`.
#[tactic(auto, unfolding(crate::specs::ClassFile::bytes_in))]
pub fn bytes_of<'b>(pool: &[Constant<'b>], index: u16, offset: u32) -> Result<&'b [u8], Refused>
    ensures { Gives (λ x. x.now) result (judged offset (bytes_in (views pool.now) index)) }
{
    match pool.get(index as usize) {
        Some(Constant::Utf8(bytes)) => Ok(bytes),
        _ => Err(refused(BAD_INDEX, offset)),
    }
}

/// The text behind an index that stands at `offset`.
#[tactic(auto, unfolding(crate::specs::ClassFile::text_in))]
pub fn text_of(alloc: Global, pool: &[Constant], index: u16, offset: u32) -> Result<Text, Refused>
    ensures { Gives (λ x. x) result (judged offset (text_in (views pool.now) index)) }
{
    let bytes = bytes_of(pool, index, offset)?;
    match or_memory(decode(alloc, bytes))? {
        Some(text) => Ok(text),
        None => Err(refused(BAD_TEXT, offset)),
    }
}

/// The name, in internal form, of the class behind an index that stands at `offset`.
#[tactic(auto, unfolding(crate::specs::ClassFile::class_in))]
pub fn class_of(alloc: Global, pool: &[Constant], index: u16, offset: u32) -> Result<Text, Refused>
    ensures value { Gives (λ x. x) result (judged offset (class_in (views pool.now) index)) }
    ensures internal { IfOk result (λ name. IsTrue (is_internal_name name)) }
{
    let name = match pool.get(index as usize) {
        Some(Constant::Class(name)) => *name,
        _ => return Err(refused(BAD_INDEX, offset)),
    };
    let text = text_of(alloc, pool, name, offset)?;
    if is_internal_name(text.as_str()) {
        return Ok(text);
    }
    Err(refused(BAD_TEXT, offset))
}

/// The text behind an index, and the empty one where there is none.
#[tactic(auto, unfolding(crate::specs::ClassFile::text_in, crate::specs::ClassFile::bytes_in))]
pub fn text_at(alloc: Global, pool: &[Constant], index: u16) -> Result<Text, NoMemory>
    ensures { IfOk result (λ text. text ≡ text_at (views pool.now) index) }
{
    let bytes = match pool.get(index as usize) {
        Some(Constant::Utf8(bytes)) => *bytes,
        _ => return Ok(Text::new(alloc)),
    };
    match decode(alloc, bytes)? {
        Some(text) => Ok(text),
        None => Ok(Text::new(alloc)),
    }
}

/// The index of the name, in internal form, of the class behind an index that stands at `offset`. It is judged where it has not
/// passed before.
#[tactic(auto, unfolding(crate::specs::ClassFile::class_in))]
pub fn class_at(
    alloc: Global,
    passed: &mut Passed,
    pool: &[Constant],
    index: u16,
    offset: u32,
) -> Result<u16, Refused>
    requires { ArePassed is_internal_name (views pool.now) passed.old }
    ensures value { Gives (text_at (views pool.now)) result (judged offset (class_in (views pool.now) index)) }
    ensures passed { OnOk result (ArePassed is_internal_name (views pool.now) passed.new) }
{
    let name = match pool.get(index as usize) {
        Some(Constant::Class(name)) => *name,
        _ => return Err(refused(BAD_INDEX, offset)),
    };
    if passed.has(name) {
        return Ok(name);
    }
    let text = text_of(alloc, pool, name, offset)?;
    if !is_internal_name(text.as_str()) {
        return Err(refused(BAD_TEXT, offset));
    }
    or_memory(passed.add(name))?;
    Ok(name)
}

/// The index, which stands at `offset`, of the descriptor of a member. It is judged where it has not passed before.
#[tactic(auto, unfolding(crate::specs::ClassFile::descriptor_in))]
pub fn descriptor_at(
    alloc: Global,
    passed: &mut Passed,
    kind: MemberKind,
    pool: &[Constant],
    index: u16,
    offset: u32,
) -> Result<u16, Refused>
    requires { ArePassed (is_descriptor_of kind) (views pool.now) passed.old }
    ensures value { Gives (text_at (views pool.now)) result (judged offset (descriptor_in kind (views pool.now) index)) }
    ensures passed { OnOk result (ArePassed (is_descriptor_of kind) (views pool.now) passed.new) }
{
    if passed.has(index) {
        return Ok(index);
    }
    let text = text_of(alloc, pool, index, offset)?;
    if !or_memory(fits_descriptor(alloc, kind, text.as_str()))? {
        return Err(refused(BAD_DESCRIPTOR, offset));
    }
    or_memory(passed.add(index))?;
    Ok(index)
}

/// The index, which stands at `offset`, of a signature. It is judged where it has not passed before.
#[tactic(auto, unfolding(crate::specs::ClassFile::signature_in))]
pub fn signature_at(
    alloc: Global,
    passed: &mut Passed,
    holder: Holder,
    pool: &[Constant],
    index: u16,
    offset: u32,
) -> Result<u16, Refused>
    requires { ArePassed (is_signature_of holder) (views pool.now) passed.old }
    ensures value { Gives (text_at (views pool.now)) result (judged offset (signature_in holder (views pool.now) index)) }
    ensures passed { OnOk result (ArePassed (is_signature_of holder) (views pool.now) passed.new) }
{
    if passed.has(index) {
        return Ok(index);
    }
    let text = text_of(alloc, pool, index, offset)?;
    if !or_memory(fits_signature(alloc, holder, text.as_str()))? {
        return Err(refused(BAD_SIGNATURE, offset));
    }
    or_memory(passed.add(index))?;
    Ok(index)
}
