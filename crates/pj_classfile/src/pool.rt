//! The constant pool (JVMS 4.4).
ghost use Rattle.std.specs.Prelude.{◌≡◌, ◌≤◌, length};
ghost use Rattle.pj_format.specs.Format.{first};
ghost use Rattle.pj_format.specs.Fields.{Gives};
ghost use Rattle.pj_classfile.specs.ClassFile.{view, views, tag, content, slot, slots, utf8, class, index, two_indices, number, wide_number, method_handle};

use crate::fault::NO_TAG;
use pj_format::{Refused, refused, run_of, u8_of, u16_of, u32_of};
use std::alloc::Global;

/// What a slot of the pool is to the rest of the class.
#[derive(Clone, Copy, Debug)]
pub enum Constant<'b> {
    /// The bytes of a text.
    Utf8(&'b [u8]),
    /// The index of a class's name.
    Class(u16),
    /// Any other constant, and a slot that no constant stands in.
    Other,
}

/// The kind of a constant (JVMS table 4.4-A).
#[derive(Clone, Copy, Debug)]
pub enum Tag {
    Utf8,
    Integer,
    Float,
    Long,
    Double,
    Class,
    String,
    Fieldref,
    Methodref,
    InterfaceMethodref,
    NameAndType,
    MethodHandle,
    MethodType,
    Dynamic,
    InvokeDynamic,
    Module,
    Package,
}

/// A slot, whether the constant takes the next slot too, and the place behind it.
type Slot<'b> = ((Constant<'b>, bool), u32);

/// The tag of a constant (JVMS 4.4, table 4.4-A).
#[tactic(auto, using(pj_format::proofs::Laws::reads), unfolding(crate::specs::ClassFile::tag))]
fn tag_of(bytes: &[u8], at: u32) -> Result<(Tag, u32), Refused>
    requires { length bytes.now ≤ 4294967294 }
    ensures { Gives (λ x. x) result (first tag bytes.now at) }
{
    let (number, behind) = u8_of(bytes, at)?;
    match number {
        1 => Ok((Tag::Utf8, behind)),
        3 => Ok((Tag::Integer, behind)),
        4 => Ok((Tag::Float, behind)),
        5 => Ok((Tag::Long, behind)),
        6 => Ok((Tag::Double, behind)),
        7 => Ok((Tag::Class, behind)),
        8 => Ok((Tag::String, behind)),
        9 => Ok((Tag::Fieldref, behind)),
        10 => Ok((Tag::Methodref, behind)),
        11 => Ok((Tag::InterfaceMethodref, behind)),
        12 => Ok((Tag::NameAndType, behind)),
        15 => Ok((Tag::MethodHandle, behind)),
        16 => Ok((Tag::MethodType, behind)),
        17 => Ok((Tag::Dynamic, behind)),
        18 => Ok((Tag::InvokeDynamic, behind)),
        19 => Ok((Tag::Module, behind)),
        20 => Ok((Tag::Package, behind)),
        _ => Err(refused(NO_TAG, at)),
    }
}

/// The content of a constant with a text (JVMS 4.4.7). Whether a slot takes two numbers stands beside it, here and below.
#[tactic(auto, using(pj_format::proofs::Laws::reads), unfolding(crate::specs::ClassFile::utf8))]
fn utf8_of(bytes: &[u8], at: u32) -> Result<Slot<'_>, Refused>
    requires { length bytes.now ≤ 4294967294 }
    ensures { Gives (λ x. ((view x.0.0, x.0.1), x.1)) result (first utf8 bytes.now at) }
{
    let (count, behind) = u16_of(bytes, at)?;
    let (text, behind) = run_of(bytes, u32::from(count), behind)?;
    Ok(((Constant::Utf8(text), false), behind))
}

/// The content of a constant that names a class (JVMS 4.4.1).
#[tactic(auto, using(pj_format::proofs::Laws::reads), unfolding(crate::specs::ClassFile::class))]
fn class_of(bytes: &[u8], at: u32) -> Result<Slot<'_>, Refused>
    requires { length bytes.now ≤ 4294967294 }
    ensures { Gives (λ x. ((view x.0.0, x.0.1), x.1)) result (first class bytes.now at) }
{
    let (name, behind) = u16_of(bytes, at)?;
    Ok(((Constant::Class(name), false), behind))
}

/// The content of a constant of one index, which nothing asks for.
#[tactic(auto, using(pj_format::proofs::Laws::reads), unfolding(crate::specs::ClassFile::index))]
fn index_of(bytes: &[u8], at: u32) -> Result<Slot<'_>, Refused>
    requires { length bytes.now ≤ 4294967294 }
    ensures { Gives (λ x. ((view x.0.0, x.0.1), x.1)) result (first index bytes.now at) }
{
    let (_, behind) = u16_of(bytes, at)?;
    Ok(((Constant::Other, false), behind))
}

/// The content of a constant of two indices, which nothing asks for.
#[tactic(auto, using(pj_format::proofs::Laws::reads), unfolding(crate::specs::ClassFile::two_indices))]
fn two_indices_of(bytes: &[u8], at: u32) -> Result<Slot<'_>, Refused>
    requires { length bytes.now ≤ 4294967294 }
    ensures { Gives (λ x. ((view x.0.0, x.0.1), x.1)) result (first two_indices bytes.now at) }
{
    let (_, behind) = u16_of(bytes, at)?;
    let (_, behind) = u16_of(bytes, behind)?;
    Ok(((Constant::Other, false), behind))
}

/// The content of a number of four bytes (JVMS 4.4.4), which nothing asks for.
#[tactic(auto, using(pj_format::proofs::Laws::reads), unfolding(crate::specs::ClassFile::number))]
fn number_of(bytes: &[u8], at: u32) -> Result<Slot<'_>, Refused>
    requires { length bytes.now ≤ 4294967294 }
    ensures { Gives (λ x. ((view x.0.0, x.0.1), x.1)) result (first number bytes.now at) }
{
    let (_, behind) = u32_of(bytes, at)?;
    Ok(((Constant::Other, false), behind))
}

/// The content of a number of eight bytes, which takes two numbers of the pool (JVMS 4.4.5).
#[tactic(auto, using(pj_format::proofs::Laws::reads), unfolding(crate::specs::ClassFile::wide_number))]
fn wide_number_of(bytes: &[u8], at: u32) -> Result<Slot<'_>, Refused>
    requires { length bytes.now ≤ 4294967294 }
    ensures { Gives (λ x. ((view x.0.0, x.0.1), x.1)) result (first wide_number bytes.now at) }
{
    let (_, behind) = u32_of(bytes, at)?;
    let (_, behind) = u32_of(bytes, behind)?;
    Ok(((Constant::Other, true), behind))
}

/// The content of a method handle (JVMS 4.4.8), which nothing asks for.
#[tactic(auto, using(pj_format::proofs::Laws::reads), unfolding(crate::specs::ClassFile::method_handle))]
fn method_handle_of(bytes: &[u8], at: u32) -> Result<Slot<'_>, Refused>
    requires { length bytes.now ≤ 4294967294 }
    ensures { Gives (λ x. ((view x.0.0, x.0.1), x.1)) result (first method_handle bytes.now at) }
{
    let (_, behind) = u8_of(bytes, at)?;
    let (_, behind) = u16_of(bytes, behind)?;
    Ok(((Constant::Other, false), behind))
}

/// What stands behind a tag.
fn content_of(bytes: &[u8], tag: Tag, at: u32) -> Result<Slot<'_>, Refused>
    requires { length bytes.now ≤ 4294967294 }
    ensures { Gives (λ x. ((view x.0.0, x.0.1), x.1)) result (first (content tag) bytes.now at) }
{
    match tag {
        Tag::Utf8 => utf8_of(bytes, at),
        Tag::Integer => number_of(bytes, at),
        Tag::Float => number_of(bytes, at),
        Tag::Long => wide_number_of(bytes, at),
        Tag::Double => wide_number_of(bytes, at),
        Tag::Class => class_of(bytes, at),
        Tag::String => index_of(bytes, at),
        Tag::Fieldref => two_indices_of(bytes, at),
        Tag::Methodref => two_indices_of(bytes, at),
        Tag::InterfaceMethodref => two_indices_of(bytes, at),
        Tag::NameAndType => two_indices_of(bytes, at),
        Tag::MethodHandle => method_handle_of(bytes, at),
        Tag::MethodType => index_of(bytes, at),
        Tag::Dynamic => two_indices_of(bytes, at),
        Tag::InvokeDynamic => two_indices_of(bytes, at),
        Tag::Module => index_of(bytes, at),
        Tag::Package => index_of(bytes, at),
    }
}

/// A slot, where the one before it may have taken it.
#[tactic(auto, using(pj_format::proofs::Laws::reads), unfolding(crate::specs::ClassFile::slot))]
fn slot_of(bytes: &[u8], taken: bool, at: u32) -> Result<Slot<'_>, Refused>
    requires { length bytes.now ≤ 4294967294 }
    ensures { Gives (λ x. ((view x.0.0, x.0.1), x.1)) result (first (slot taken) bytes.now at) }
{
    if taken {
        return Ok(((Constant::Other, false), at));
    }
    let (tag, behind) = tag_of(bytes, at)?;
    content_of(bytes, tag, behind)
}

/// The slots of a pool by their numbers, and the place behind them. Slot 0 holds nothing.
pub fn pool_of(
    alloc: Global,
    bytes: &[u8],
    count: u16,
    at: u32,
) -> Result<(Vec<Constant<'_>>, u32), Refused>
    requires { length bytes.now ≤ 4294967294 }
    ensures { Gives (λ x. (views x.0.items, x.1)) result (first (slots count) bytes.now at) }
{
    let mut pool = Vec::new(alloc);
    let mut taken = true;
    let mut place = at;
    for _ in 0..count {
        let ((constant, wide), behind) = slot_of(bytes, taken, place)?;
        pool.push(constant)?;
        taken = wide;
        place = behind;
    }
    Ok((pool, place))
}
