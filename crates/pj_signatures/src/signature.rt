//! The readers of descriptors and signatures.
ghost use Rattle.std.specs.Prelude.{◌≡◌, [], IfOk};
ghost use Rattle.pj_names.specs.JavaType.{bound_types};
ghost use Rattle.pj_signatures.specs.Spelled.{SpellsField, SpellsMethodDescriptor, SpellsType, SpellsClass, SpellsMethod, IsSpelled};
ghost use Rattle.pj_signatures.specs.Reading.{descriptor_of, method_descriptor_of, field_signature_of, class_signature_of, method_signature_of};
ghost use Rattle.pj_signatures.specs.Seen.{class_view, method_view, seen_option, seen_class, seen_method};

use crate::read::{
    read_class_signature, read_descriptor, read_field_signature, read_method_descriptor,
    read_method_signature,
};
use pj_base::NoMemory;
use pj_names::{Bindings, Ty, TyList, copied_bindings, copied_types};
use std::alloc::Global;

/// The signature of a class (JVMS 4.7.9.1).
#[derive(Debug, Drop)]
pub struct ClassSig {
    /// The type parameters with their first bounds.
    pub params: Bindings,
    /// The superclass.
    pub superclass: Ty,
    /// The interfaces, in their order.
    pub interfaces: TyList,
}

/// The signature of a method (JVMS 4.7.9.1). What it throws is left out.
#[derive(Debug, Drop)]
pub struct MethodSig {
    /// The type parameters with their first bounds.
    pub params: Bindings,
    /// The types of its parameters, in their order.
    pub arguments: TyList,
    /// The type that it returns, or `Void`.
    pub result: Ty,
}

impl ClassSig {
    /// The same signature once more.
    pub fn copied(&self) -> Result<ClassSig, NoMemory>
        ensures { IfOk result (λ copy. class_view copy ≡ class_view self.now) }
    {
        let params = copied_bindings(&self.params)?;
        let superclass = self.superclass.copied()?;
        let interfaces = copied_types(&self.interfaces)?;
        Ok(ClassSig {
            params,
            superclass,
            interfaces,
        })
    }
}

impl MethodSig {
    /// The same signature once more.
    pub fn copied(&self) -> Result<MethodSig, NoMemory>
        ensures { IfOk result (λ copy. method_view copy ≡ method_view self.now) }
    {
        let params = copied_bindings(&self.params)?;
        let arguments = copied_types(&self.arguments)?;
        let result = self.result.copied()?;
        Ok(MethodSig {
            params,
            arguments,
            result,
        })
    }
}

/// The type that the descriptor of a field spells (JVMS 4.3.2), or `None` where the whole text is none with at most 255
/// dimensions.
pub fn descriptor(alloc: Global, text: &str) -> Result<Option<Ty>, NoMemory>
    ensures spelled { IfOk result (λ found. IsSpelled (SpellsField text.now) (seen_option found)) }
    ensures read { IfOk result (λ found. seen_option found ≡ descriptor_of text.now) }
{
    let found = read_descriptor(alloc, text)?;
    Ok(found)
}

/// The types that the descriptor of a method spells (JVMS 4.3.3), or `None` where the whole text is none whose types
/// have at most 255 dimensions.
pub fn method_descriptor(alloc: Global, text: &str) -> Result<Option<MethodSig>, NoMemory>
    ensures spelled { IfOk result (λ found. IsSpelled (SpellsMethodDescriptor text.now) (seen_method found)) }
    ensures read { IfOk result (λ found. seen_method found ≡ method_descriptor_of text.now) }
{
    let found = read_method_descriptor(alloc, text)?;
    Ok(found)
}

/// The type that a type's signature spells (JVMS 4.7.9.1), or `None` where the whole text is none within the bounds.
///
/// At most 255 signs `[` and `<` are open at one place, and a list has at most 255 type arguments. No type variable is
/// declared: each has the bound `java.lang.Object`.
pub fn field_signature(alloc: Global, text: &str) -> Result<Option<Ty>, NoMemory>
    ensures spelled { IfOk result (λ found. IsSpelled (SpellsType [] text.now) (seen_option found)) }
    ensures read { IfOk result (λ found. seen_option found ≡ field_signature_of [] text.now) }
{
    let around = Bindings::new(alloc);
    let found = read_field_signature(alloc, &around, text)?;
    Ok(found)
}

/// As `field_signature`, where some type variables are declared: those of the class that has the field.
pub fn field_signature_in(
    alloc: Global,
    around: &Bindings,
    text: &str,
) -> Result<Option<Ty>, NoMemory>
    ensures spelled { IfOk result (λ found. IsSpelled (SpellsType (bound_types around.now) text.now) (seen_option found)) }
    ensures read { IfOk result (λ found. seen_option found ≡ field_signature_of (bound_types around.now) text.now) }
{
    let found = read_field_signature(alloc, around, text)?;
    Ok(found)
}

/// The type parameters and supertypes that a class's signature spells (JVMS 4.7.9.1), or `None` where the whole text is
/// none within the bounds.
///
/// At most 255 signs `[` and `<` are open at one place, and a list has at most 255 type arguments.
pub fn class_signature(alloc: Global, text: &str) -> Result<Option<ClassSig>, NoMemory>
    ensures spelled { IfOk result (λ found. IsSpelled (SpellsClass text.now) (seen_class found)) }
    ensures read { IfOk result (λ found. seen_class found ≡ class_signature_of text.now) }
{
    let found = read_class_signature(alloc, text)?;
    Ok(found)
}

/// The type parameters and types that a method's signature spells (JVMS 4.7.9.1), or `None` where the whole text is none
/// within the bounds.
///
/// At most 255 signs `[` and `<` are open at one place, and a list has at most 255 type arguments. No type variable is
/// declared but the method's own: each other one has the bound `java.lang.Object`.
pub fn method_signature(alloc: Global, text: &str) -> Result<Option<MethodSig>, NoMemory>
    ensures spelled { IfOk result (λ found. IsSpelled (SpellsMethod [] text.now) (seen_method found)) }
    ensures read { IfOk result (λ found. seen_method found ≡ method_signature_of [] text.now) }
{
    let around = Bindings::new(alloc);
    let found = read_method_signature(alloc, &around, text)?;
    Ok(found)
}

/// As `method_signature`, where some type variables are declared around it: those of the class that has the method.
pub fn method_signature_in(
    alloc: Global,
    around: &Bindings,
    text: &str,
) -> Result<Option<MethodSig>, NoMemory>
    ensures spelled { IfOk result (λ found. IsSpelled (SpellsMethod (bound_types around.now) text.now) (seen_method found)) }
    ensures read { IfOk result (λ found. seen_method found ≡ method_signature_of (bound_types around.now) text.now) }
{
    let found = read_method_signature(alloc, around, text)?;
    Ok(found)
}
