//! Attributes (JVMS 4.7), of which one is read.
ghost use Rattle.std.specs.Prelude.{◌≡◌, ◌≤◌, List, length, None, OnOk, option_map};
ghost use Rattle.pj_format.specs.Format.{first};
ghost use Rattle.pj_format.specs.Fields.{Gives};
ghost use Rattle.pj_classfile.specs.ClassFile.{Slot, views, is_signature_of, signature_content, other_content, attribute, signature_among, signature, or_next};
ghost use Rattle.pj_classfile.specs.Passed.{ArePassed, seen_at, text_at};

use crate::fault::BAD_LENGTH;
use crate::lookup::{bytes_of, signature_at};
use crate::member::Holder;
use crate::passed::Passed;
use crate::pool::Constant;
use pj_format::{Refused, refused, run_of, u16_of, u32_of};
use std::alloc::Global;

/// The content of a Signature attribute: the index of its text.
#[tactic(auto, using(pj_format::proofs::Laws::reads), unfolding(crate::specs::ClassFile::signature_content))]
fn signature_content_of(
    alloc: Global,
    passed: &mut Passed,
    holder: Holder,
    bytes: &[u8],
    pool: &[Constant],
    at: u32,
) -> Result<(Option<u16>, u32), Refused>
    requires small { length bytes.now ≤ 4294967294 }
    requires passed { ArePassed (is_signature_of holder) (views pool.now) passed.old }
    ensures value { Gives (seen_at (views pool.now)) result (first (signature_content holder (views pool.now)) bytes.now at) }
    ensures passed { OnOk result (ArePassed (is_signature_of holder) (views pool.now) passed.new) }
{
    let (count, place) = u32_of(bytes, at)?;
    if count != 2 {
        return Err(refused(BAD_LENGTH, at));
    }
    let (index, behind) = u16_of(bytes, place)?;
    let signature = signature_at(alloc, passed, holder, pool, index, place)?;
    Ok((Some(signature), behind))
}

/// The content of any other attribute.
#[tactic(auto, using(pj_format::proofs::Laws::reads), unfolding(crate::specs::ClassFile::other_content))]
fn other_content_of(bytes: &[u8], at: u32) -> Result<(Option<u16>, u32), Refused>
    requires { length bytes.now ≤ 4294967294 }
    ensures { (pool : List Slot) → Gives (seen_at pool) result (first other_content bytes.now at) }
{
    let (count, place) = u32_of(bytes, at)?;
    let (_, behind) = run_of(bytes, count, place)?;
    Ok((None, behind))
}

/// An attribute: the index of its signature, where it is one.
#[tactic(auto, using(pj_format::proofs::Laws::reads), unfolding(crate::specs::ClassFile::attribute, crate::specs::ClassFile::is_signature_in))]
fn attribute_of(
    alloc: Global,
    passed: &mut Passed,
    holder: Holder,
    bytes: &[u8],
    pool: &[Constant],
    at: u32,
) -> Result<(Option<u16>, u32), Refused>
    requires small { length bytes.now ≤ 4294967294 }
    requires passed { ArePassed (is_signature_of holder) (views pool.now) passed.old }
    ensures value { Gives (seen_at (views pool.now)) result (first (attribute holder (views pool.now)) bytes.now at) }
    ensures passed { OnOk result (ArePassed (is_signature_of holder) (views pool.now) passed.new) }
{
    let (index, behind) = u16_of(bytes, at)?;
    let name = bytes_of(pool, index, at)?;
    if name == b"Signature".as_slice() {
        return signature_content_of(alloc, passed, holder, bytes, pool, behind);
    }
    other_content_of(bytes, behind)
}

/// The earlier one of two signatures.
fn earlier(found: Option<u16>, next: Option<u16>) -> Option<u16>
    ensures { (pool : List Slot) → option_map (text_at pool) result ≡ or_next (option_map (text_at pool) found) (option_map (text_at pool) next) }
{
    match found {
        Some(signature) => Some(signature),
        None => next,
    }
}

/// So many attributes: the first signature among them.
fn signature_among_of(
    alloc: Global,
    passed: &mut Passed,
    holder: Holder,
    bytes: &[u8],
    pool: &[Constant],
    count: u16,
    at: u32,
) -> Result<(Option<u16>, u32), Refused>
    requires small { length bytes.now ≤ 4294967294 }
    requires passed { ArePassed (is_signature_of holder) (views pool.now) passed.old }
    ensures value { Gives (seen_at (views pool.now)) result (first (signature_among holder (views pool.now) count None) bytes.now at) }
    ensures passed { OnOk result (ArePassed (is_signature_of holder) (views pool.now) passed.new) }
{
    let mut found = None;
    let mut place = at;
    for _ in 0..count {
        let (signature, behind) = attribute_of(alloc, passed, holder, bytes, pool, place)?;
        found = earlier(found, signature);
        place = behind;
    }
    Ok((found, place))
}

/// A table of attributes: the index of the first signature in it, and the place behind the table.
#[tactic(auto, using(pj_format::proofs::Laws::reads), unfolding(crate::specs::ClassFile::signature))]
pub fn signature_in_table(
    alloc: Global,
    passed: &mut Passed,
    holder: Holder,
    bytes: &[u8],
    pool: &[Constant],
    at: u32,
) -> Result<(Option<u16>, u32), Refused>
    requires small { length bytes.now ≤ 4294967294 }
    requires passed { ArePassed (is_signature_of holder) (views pool.now) passed.old }
    ensures value { Gives (seen_at (views pool.now)) result (first (signature holder (views pool.now)) bytes.now at) }
    ensures passed { OnOk result (ArePassed (is_signature_of holder) (views pool.now) passed.new) }
{
    let (count, behind) = u16_of(bytes, at)?;
    signature_among_of(alloc, passed, holder, bytes, pool, count, behind)
}
