//! Names of classes, and classes without members.
use pj_base::{Copied, NoMemory, Text};
use pj_names::{ClassInfo, ClassName, Members};
use std::alloc::Global;
use std::test::Fail;

/// The name of a class.
pub fn name(alloc: Global, text: &str) -> Result<ClassName, Fail> {
    Ok(ClassName::of(alloc, text)?.ok_or("no class name")?)
}

/// The class of a name with a signature.
pub fn class(alloc: Global, name: &ClassName, signature: Text) -> Result<ClassInfo, NoMemory> {
    Ok(ClassInfo {
        name: name.copied()?,
        flags: 33,
        signature,
        fields: Members::new(alloc),
        methods: Members::new(alloc),
    })
}
