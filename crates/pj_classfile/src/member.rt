//! Fields and methods (JVMS 4.5 and 4.6).
ghost use Rattle.std.specs.Prelude.{◌≡◌, ◌≤◌, length, OnOk};
ghost use Rattle.pj_format.specs.Format.{first};
ghost use Rattle.pj_format.specs.Fields.{Gives, several};
ghost use Rattle.pj_classfile.specs.ClassFile.{views, holder_of, member, members};
ghost use Rattle.pj_classfile.specs.Passed.{AreJudged};

use crate::attribute::signature_in_table;
use crate::fault::or_memory;
use crate::lookup::{descriptor_at, text_at, text_of};
use crate::passed::Passed;
use crate::pool::Constant;
use pj_format::{Refused, u16_of};
use pj_names::{Member, Members};
use std::alloc::Global;

/// A field or a method.
#[derive(Clone, Copy, Debug)]
pub enum MemberKind {
    Field,
    Method,
}

/// What a signature is of.
#[derive(Clone, Copy, Debug)]
pub enum Holder {
    Class,
    Field,
    Method,
}

/// The texts that passed as descriptors and as signatures of members of one kind.
#[derive(Drop)]
pub struct Judged {
    /// The descriptors.
    pub descriptors: Passed,
    /// The signatures.
    pub signatures: Passed,
}

/// What has the attributes of a member: a field or a method.
fn holder_of(kind: MemberKind) -> Holder
    ensures { result ≡ holder_of kind }
{
    match kind {
        MemberKind::Field => Holder::Field,
        MemberKind::Method => Holder::Method,
    }
}

/// A field or a method from a place on, with the place behind it.
#[tactic(auto, using(pj_format::proofs::Laws::reads), unfolding(crate::specs::ClassFile::member))]
fn member_of(
    alloc: Global,
    judged: &mut Judged,
    kind: MemberKind,
    bytes: &[u8],
    pool: &[Constant],
    at: u32,
) -> Result<(Member, u32), Refused>
    requires small { length bytes.now ≤ 4294967294 }
    requires judged { AreJudged kind (views pool.now) judged.old }
    ensures value { Gives (λ x. x) result (first (member kind (views pool.now)) bytes.now at) }
    ensures judged { OnOk result (AreJudged kind (views pool.now) judged.new) }
{
    let (flags, place) = u16_of(bytes, at)?;
    let (index, behind) = u16_of(bytes, place)?;
    let name = text_of(alloc, pool, index, place)?;
    let (index, table) = u16_of(bytes, behind)?;
    let descriptor = descriptor_at(alloc, &mut judged.descriptors, kind, pool, index, behind)?;
    let (written, end) = signature_in_table(
        alloc,
        &mut judged.signatures,
        holder_of(kind),
        bytes,
        pool,
        table,
    )?;
    let signature = or_memory(text_at(alloc, pool, written.unwrap_or(descriptor)))?;
    Ok((
        Member {
            flags,
            name,
            signature,
        },
        end,
    ))
}

/// So many fields or methods from a place on, with the place behind them.
fn member_list_of(
    alloc: Global,
    judged: &mut Judged,
    kind: MemberKind,
    bytes: &[u8],
    pool: &[Constant],
    count: u16,
    at: u32,
) -> Result<(Vec<Member>, u32), Refused>
    requires small { length bytes.now ≤ 4294967294 }
    requires judged { AreJudged kind (views pool.now) judged.old }
    ensures value { Gives (λ x. (x.0.items, x.1)) result (first (several (member kind (views pool.now)) count) bytes.now at) }
    ensures judged { OnOk result (AreJudged kind (views pool.now) judged.new) }
{
    let mut list = Vec::new(alloc);
    let mut place = at;
    for _ in 0..count {
        let (item, behind) = member_of(alloc, judged, kind, bytes, pool, place)?;
        list.push(item)?;
        place = behind;
    }
    Ok((list, place))
}

/// The fields or the methods, and the place behind them.
#[tactic(auto, using(pj_format::proofs::Laws::reads), unfolding(crate::specs::ClassFile::members))]
pub fn members_of(
    alloc: Global,
    kind: MemberKind,
    bytes: &[u8],
    pool: &[Constant],
    at: u32,
) -> Result<(Members, u32), Refused>
    requires { length bytes.now ≤ 4294967294 }
    ensures { Gives (λ x. x) result (first (members kind (views pool.now)) bytes.now at) }
{
    let (count, behind) = u16_of(bytes, at)?;
    let mut judged = Judged {
        descriptors: Passed::new(alloc),
        signatures: Passed::new(alloc),
    };
    let (list, end) = member_list_of(alloc, &mut judged, kind, bytes, pool, count, behind)?;
    Ok((Members::from_vec(list), end))
}
