//! A class from its bytes (JVMS 4.1).
ghost use Rattle.std.specs.Prelude.{◌≡◌, ◌≤◌, ◌++◌, length, map, option_map, unwrap_or, IsTrue, OnOk, IfOk};
ghost use Rattle.pj_format.specs.Format.{first};
ghost use Rattle.pj_format.specs.Fields.{Gives, several, u16_as};
ghost use Rattle.pj_signatures.specs.Names.{is_internal_name};
ghost use Rattle.pj_classfile.specs.ClassFile.{views, head, class_in, superclass_in, is_object, class_type, named_superclass, made_signature, body, class_structure, class_file};
ghost use Rattle.pj_classfile.specs.ClassOf.{IsRead};
ghost use Rattle.pj_classfile.specs.Passed.{ArePassed, text_at};

use crate::attribute::signature_in_table;
use crate::fault::{BYTES_BEHIND, ClassRefused, LOW_VERSION, OTHER_MAGIC, or_memory};
use crate::lookup::{class_at, class_of, text_at};
use crate::member::{Holder, MemberKind, members_of};
use crate::passed::Passed;
use crate::pool::{Constant, pool_of};
use crate::texts::class_name_of;
use pj_base::{NoMemory, Text};
use pj_format::{Refused, refused, u16_of, u32_of};
use pj_names::{ClassFault, ClassInfo};
use std::alloc::Global;

/// All up to the constant pool: the pool, and the place behind it.
#[tactic(auto, using(pj_format::proofs::Laws::reads), unfolding(crate::specs::ClassFile::head))]
fn head_of(alloc: Global, bytes: &[u8]) -> Result<(Vec<Constant<'_>>, u32), Refused>
    requires { length bytes.now ≤ 4294967294 }
    ensures { Gives (λ x. (views x.0.items, x.1)) result (first head bytes.now 0) }
{
    let (magic, behind) = u32_of(bytes, 0)?;
    if magic != 0xcafebabe {
        return Err(refused(OTHER_MAGIC, 0));
    }
    let (_, place) = u16_of(bytes, behind)?;
    let (major, behind) = u16_of(bytes, place)?;
    if major < 45 {
        return Err(refused(LOW_VERSION, place));
    }
    let (count, behind) = u16_of(bytes, behind)?;
    pool_of(alloc, bytes, count, behind)
}

/// The name of a class behind an index.
#[tactic(auto, using(pj_format::proofs::Laws::reads))]
fn name_of(alloc: Global, bytes: &[u8], pool: &[Constant], at: u32) -> Result<(Text, u32), Refused>
    requires { length bytes.now ≤ 4294967294 }
    ensures value { Gives (λ x. x) result (first (u16_as (class_in (views pool.now))) bytes.now at) }
    ensures internal { IfOk result (λ x. IsTrue (is_internal_name x.0)) }
{
    let (index, behind) = u16_of(bytes, at)?;
    let name = class_of(alloc, pool, index, at)?;
    Ok((name, behind))
}

/// Whether it is the class without a superclass.
fn is_root(name: &str) -> bool
    ensures { result ≡ is_object name.now }
{
    name == "java/lang/Object"
}

/// The superclass of the class of a name.
#[tactic(auto, using(pj_format::proofs::Laws::reads), unfolding(crate::specs::ClassFile::superclass_in))]
fn superclass_of(
    alloc: Global,
    bytes: &[u8],
    pool: &[Constant],
    name: &str,
    at: u32,
) -> Result<(Text, u32), Refused>
    requires { length bytes.now ≤ 4294967294 }
    ensures { Gives (λ x. x) result (first (u16_as (superclass_in (views pool.now) name.now)) bytes.now at) }
{
    let (index, behind) = u16_of(bytes, at)?;
    if index == 0 && is_root(name) {
        let object = or_memory(Text::from_str(alloc, "java/lang/Object"))?;
        return Ok((object, behind));
    }
    let superclass = class_of(alloc, pool, index, at)?;
    Ok((superclass, behind))
}

/// The index of the name of an interface.
#[tactic(auto, using(pj_format::proofs::Laws::reads))]
fn interface_of(
    alloc: Global,
    passed: &mut Passed,
    bytes: &[u8],
    pool: &[Constant],
    at: u32,
) -> Result<(u16, u32), Refused>
    requires small { length bytes.now ≤ 4294967294 }
    requires passed { ArePassed is_internal_name (views pool.now) passed.old }
    ensures value { Gives (λ x. (text_at (views pool.now) x.0, x.1)) result (first (u16_as (class_in (views pool.now))) bytes.now at) }
    ensures passed { OnOk result (ArePassed is_internal_name (views pool.now) passed.new) }
{
    let (index, behind) = u16_of(bytes, at)?;
    let name = class_at(alloc, passed, pool, index, at)?;
    Ok((name, behind))
}

/// So many interfaces: the indices of their names.
fn interfaces_of(
    alloc: Global,
    bytes: &[u8],
    pool: &[Constant],
    count: u16,
    at: u32,
) -> Result<(Vec<u16>, u32), Refused>
    requires { length bytes.now ≤ 4294967294 }
    ensures { Gives (λ x. (map (text_at (views pool.now)) x.0.items, x.1)) result (first (several (u16_as (class_in (views pool.now))) count) bytes.now at) }
{
    let mut passed = Passed::new(alloc);
    let mut list = Vec::new(alloc);
    let mut place = at;
    for _ in 0..count {
        let (item, behind) = interface_of(alloc, &mut passed, bytes, pool, place)?;
        list.push(item)?;
        place = behind;
    }
    Ok((list, place))
}

/// Puts a class type at the end.
fn push_class_type(signature: &mut Text, name: &str) -> Result<(), NoMemory>
    ensures { OnOk result (signature.new ≡ signature.old ++ class_type name.now) }
{
    signature.push_str("L")?;
    signature.push_str(name)?;
    signature.push_str(";")
}

/// The signature of a class that writes none.
fn make_signature(
    alloc: Global,
    name: &str,
    superclass: &str,
    pool: &[Constant],
    interfaces: &[u16],
) -> Result<Text, NoMemory>
    ensures { IfOk result (λ made. made ≡ made_signature name.now superclass.now (map (text_at (views pool.now)) interfaces.now)) }
{
    let mut signature = Text::new(alloc);
    push_class_type(&mut signature, named(name, superclass))?;
    for interface in interfaces {
        let name = text_at(alloc, pool, *interface)?;
        push_class_type(&mut signature, name.as_str())?;
    }
    Ok(signature)
}

/// The signature that is written, by its index, or else the one that is made.
fn written_or_made(
    alloc: Global,
    written: Option<u16>,
    name: &str,
    superclass: &str,
    pool: &[Constant],
    interfaces: &[u16],
) -> Result<Text, NoMemory>
    ensures { IfOk result (λ signature. signature ≡ unwrap_or (option_map (text_at (views pool.now)) written) (made_signature name.now superclass.now (map (text_at (views pool.now)) interfaces.now))) }
{
    match written {
        Some(index) => text_at(alloc, pool, index),
        None => make_signature(alloc, name, superclass, pool, interfaces),
    }
}

/// The superclass that a made signature names.
fn named<'n>(name: &'n str, superclass: &'n str) -> &'n str
    ensures { result.now ≡ named_superclass name.now superclass.now }
{
    if is_root(name) { name } else { superclass }
}

/// All behind the constant pool.
#[tactic(auto, using(pj_format::proofs::Laws::reads), unfolding(crate::specs::ClassFile::body))]
fn body_of(
    alloc: Global,
    bytes: &[u8],
    pool: &[Constant],
    at: u32,
) -> Result<(ClassInfo, u32), Refused>
    requires { length bytes.now ≤ 4294967294 }
    ensures { Gives (λ x. x) result (first (body (views pool.now)) bytes.now at) }
{
    let (flags, behind) = u16_of(bytes, at)?;
    let (name, behind) = name_of(alloc, bytes, pool, behind)?;
    let (superclass, behind) = superclass_of(alloc, bytes, pool, name.as_str(), behind)?;
    let (count, behind) = u16_of(bytes, behind)?;
    let (interfaces, behind) = interfaces_of(alloc, bytes, pool, count, behind)?;
    let (fields, behind) = members_of(alloc, MemberKind::Field, bytes, pool, behind)?;
    let (methods, behind) = members_of(alloc, MemberKind::Method, bytes, pool, behind)?;
    let mut passed = Passed::new(alloc);
    let (written, behind) = signature_in_table(
        alloc,
        &mut passed,
        Holder::Class,
        bytes,
        pool,
        behind,
    )?;
    let signature = or_memory(written_or_made(
        alloc,
        written,
        name.as_str(),
        superclass.as_str(),
        pool,
        &interfaces,
    ))?;
    let name = or_memory(class_name_of(alloc, name.as_str()))?;
    Ok((
        ClassInfo {
            name,
            flags,
            signature,
            fields,
            methods,
        },
        behind,
    ))
}

/// The whole class, and the end of the bytes.
#[tactic(auto, using(pj_format::proofs::Laws::reads), unfolding(crate::specs::ClassFile::class_file, crate::specs::ClassFile::class_structure, pj_format::specs::Format::whole))]
fn class_file_of(alloc: Global, bytes: &[u8]) -> Result<(ClassInfo, u32), Refused>
    requires { length bytes.now ≤ 4294967294 }
    ensures { Gives (λ x. x) result (first class_file bytes.now 0) }
{
    let (pool, behind) = head_of(alloc, bytes)?;
    let (class, end) = body_of(alloc, bytes, &pool, behind)?;
    if end as usize != bytes.len() {
        return Err(refused(BYTES_BEHIND, end));
    }
    Ok((class, end))
}

/// The class that the bytes spell, all of the bytes, by JVMS 4; or their first fault, of the kinds
///
/// 1. the bytes end, where a field or the content of an attribute or constant begins that is cut short;
/// 2. another magic number than 0xcafebabe; 3. a major version below 45; 4. a tag that Java 17 has not;
/// 5. an index that is no constant of its kind, or out of range; 6. modified UTF-8 that is none, or no class name;
/// 7. a descriptor that is none; 8. a written signature that is none: each at the index outside the constant pool that
///    leads there;
/// 9. a Signature attribute of another length than 2; 10. bytes behind the class.
///
/// The condition is that offsets are named by 32 bits.
pub fn parse(alloc: Global, bytes: &[u8]) -> Result<ClassInfo, ClassRefused>
    requires { length bytes.now ≤ 4294967294 }
    ensures { IsRead bytes.now result }
{
    match class_file_of(alloc, bytes) {
        Ok((class, _)) => Ok(class),
        Err(Refused::Memory) => Err(ClassRefused::Memory),
        Err(Refused::Fault(fault)) => Err(ClassRefused::Fault(ClassFault {
            kind: fault.kind,
            offset: fault.offset,
        })),
    }
}
