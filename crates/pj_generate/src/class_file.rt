//! A smallest class file.
ghost use Rattle.std.specs.Prelude.{◌≡◌, ◌<◌, ◌++◌, IfOk, OnOk, length};
ghost use Rattle.pj_generate.specs.ClassFile.{body, class_entry, small_class, text_entry, two_bytes};

use pj_base::{Bytes, NoMemory};
use std::alloc::Global;

/// Puts a number of two bytes, the higher one first.
fn put_two(out: &mut Vec<u8>, n: u16) -> Result<(), NoMemory>
    ensures { OnOk result (out.new.items ≡ out.old.items ++ two_bytes n) }
{
    out.extend_from_slice(&n.to_be_bytes())?;
    Ok(())
}

/// Puts an entry that names a class by the entry of its name.
fn put_class(out: &mut Vec<u8>, name: u16) -> Result<(), NoMemory>
    ensures { OnOk result (out.new.items ≡ out.old.items ++ class_entry name) }
{
    out.push(7)?;
    put_two(out, name)
}

/// Puts an entry that is a text. More bytes than two bytes tell are want of memory.
fn put_text(out: &mut Vec<u8>, text: &str) -> Result<(), NoMemory>
    ensures { OnOk result (out.new.items ≡ out.old.items ++ text_entry text.now) }
{
    let bytes = text.as_bytes();
    if bytes.len() > 0xffff {
        return Err(NoMemory);
    }
    out.push(1)?;
    put_two(out, bytes.len() as u16)?;
    out.extend_from_slice(bytes)?;
    Ok(())
}

/// Puts what stands behind the pool: flags, the class, its superclass, and four lists without members.
fn put_body(out: &mut Vec<u8>) -> Result<(), NoMemory>
    ensures { OnOk result (out.new.items ≡ out.old.items ++ body) }
{
    out.extend_from_slice(&[0, 33, 0, 1, 0, 3, 0, 0, 0, 0, 0, 0, 0, 0])?;
    Ok(())
}

/// The class file of a class and its superclass, whose names are in their internal form (JVMS 4.2.1).
pub(crate) fn small_class(alloc: Global, name: &str, super_name: &str) -> Result<Bytes, NoMemory>
    ensures { IfOk result (λ bytes. bytes ≡ small_class name.now super_name.now) }
{
    let mut out = Vec::new(alloc);
    out.extend_from_slice(&[0xca, 0xfe, 0xba, 0xbe, 0, 0, 0, 52, 0, 5])?;
    put_class(&mut out, 2)?;
    put_text(&mut out, name)?;
    put_class(&mut out, 4)?;
    put_text(&mut out, super_name)?;
    put_body(&mut out)?;
    Ok(Bytes::from_vec(out))
}
