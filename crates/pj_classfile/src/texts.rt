//! Texts that a class file names: class names, descriptors and signatures.
ghost use Rattle.std.specs.Prelude.{◌≡◌, IfOk, IsTrue};
ghost use Rattle.pj_signatures.specs.Names.{is_internal_name, dotted};
ghost use Rattle.pj_classfile.specs.Texts.{is_descriptor, is_method_descriptor, is_class_signature, is_method_signature, is_field_signature};
ghost use Rattle.pj_classfile.specs.ClassFile.{is_descriptor_of, is_signature_of};

use crate::member::{Holder, MemberKind};
use pj_base::NoMemory;
use pj_names::ClassName;
use pj_signatures::{
    class_of_internal, class_signature, descriptor, field_signature, method_descriptor,
    method_signature,
};
use std::alloc::Global;

/// The name of the Java language for a class name in internal form (JLS 13.1).
pub fn class_name_of(alloc: Global, internal: &str) -> Result<ClassName, NoMemory>
    requires { IsTrue (is_internal_name internal.now) }
    ensures { IfOk result (λ name. name ≡ dotted internal.now) }
{
    match class_of_internal(alloc, internal)? {
        Some(name) => Ok(name),
        None => unreachable!(),
    }
}

/// Whether a text is the descriptor of a field (JVMS 4.3.2).
#[tactic(auto, unfolding(crate::specs::Texts::is_descriptor))]
fn is_descriptor(alloc: Global, text: &str) -> Result<bool, NoMemory>
    ensures { IfOk result (λ fits. fits ≡ is_descriptor text.now) }
{
    let found = descriptor(alloc, text)?;
    Ok(found.is_some())
}

/// Whether a text is the descriptor of a method (JVMS 4.3.3).
#[tactic(auto, unfolding(crate::specs::Texts::is_method_descriptor))]
fn is_method_descriptor(alloc: Global, text: &str) -> Result<bool, NoMemory>
    ensures { IfOk result (λ fits. fits ≡ is_method_descriptor text.now) }
{
    let found = method_descriptor(alloc, text)?;
    Ok(found.is_some())
}

/// Whether a text is the signature of a class (JVMS 4.7.9.1).
#[tactic(auto, unfolding(crate::specs::Texts::is_class_signature))]
fn is_class_signature(alloc: Global, text: &str) -> Result<bool, NoMemory>
    ensures { IfOk result (λ fits. fits ≡ is_class_signature text.now) }
{
    let found = class_signature(alloc, text)?;
    Ok(found.is_some())
}

/// Whether a text is the signature of a method (JVMS 4.7.9.1).
#[tactic(auto, unfolding(crate::specs::Texts::is_method_signature))]
fn is_method_signature(alloc: Global, text: &str) -> Result<bool, NoMemory>
    ensures { IfOk result (λ fits. fits ≡ is_method_signature text.now) }
{
    let found = method_signature(alloc, text)?;
    Ok(found.is_some())
}

/// Whether a text is the signature of a type (JVMS 4.7.9.1).
#[tactic(auto, unfolding(crate::specs::Texts::is_field_signature))]
fn is_field_signature(alloc: Global, text: &str) -> Result<bool, NoMemory>
    ensures { IfOk result (λ fits. fits ≡ is_field_signature text.now) }
{
    let found = field_signature(alloc, text)?;
    Ok(found.is_some())
}

/// Whether a text is the descriptor of such a member.
pub fn fits_descriptor(alloc: Global, kind: MemberKind, text: &str) -> Result<bool, NoMemory>
    ensures { IfOk result (λ fits. fits ≡ is_descriptor_of kind text.now) }
{
    match kind {
        MemberKind::Field => is_descriptor(alloc, text),
        MemberKind::Method => Ok(
            is_method_descriptor(alloc, text)? && is_method_signature(alloc, text)?,
        ),
    }
}

/// Whether a text is the signature of such a holder.
pub fn fits_signature(alloc: Global, holder: Holder, text: &str) -> Result<bool, NoMemory>
    ensures { IfOk result (λ fits. fits ≡ is_signature_of holder text.now) }
{
    match holder {
        Holder::Class => is_class_signature(alloc, text),
        Holder::Field => is_field_signature(alloc, text),
        Holder::Method => is_method_signature(alloc, text),
    }
}
