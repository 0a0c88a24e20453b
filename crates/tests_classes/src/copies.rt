//! Copies of signatures.
use pj_signatures::{ClassSig, MethodSig, class_signature, method_signature};
use std::alloc::Global;
use std::test::Fail;

/// Whether a copy of a class's signature has its superclass.
fn has_superclass(class: &ClassSig) -> Result<bool, Fail> {
    Ok(class.copied()?.superclass.is(&class.superclass))
}

/// The same of a text.
fn class_is_copied(alloc: Global) -> Result<bool, Fail> {
    let class = class_signature(alloc, "<T:LB;>LA<TT;>;LC;")?.ok_or("no signature")?;
    has_superclass(&class)
}

/// Whether a copy of a method's signature has its result.
fn has_result(method: &MethodSig) -> Result<bool, Fail> {
    Ok(method.copied()?.result.is(&method.result))
}

/// The same of a text.
fn method_is_copied(alloc: Global) -> Result<bool, Fail> {
    let method = method_signature(alloc, "<T:LB;>(TT;I)TT;")?.ok_or("no signature")?;
    has_result(&method)
}

#[test]
fn copies(rt: HostRuntime) -> Result<(), Fail> {
    assert!(rt; class_is_copied(rt.alloc())?);
    assert!(rt; method_is_copied(rt.alloc())?);
    Ok(())
}
