//! Fields and methods as classes have them, and as a search along supertypes finds them.
ghost use Rattle.std.specs.Prelude.{◌≡◌, IfOk};
ghost use Rattle.pj_types.specs.Members.{all_methods, field_view, method_view};

use pj_base::{Copied, ListOf, NoMemory, Text};
use pj_names::{ClassName, Ty};
use pj_signatures::MethodSig;
use std::alloc::Global;

/// A field (JVMS 4.5), with its type as it is found.
#[derive(Drop)]
pub struct Field {
    /// The class that has it.
    pub owner: ClassName,
    /// Its type.
    pub ty: Ty,
}

/// A method or a constructor (JVMS 4.6), with its signature as it is found.
#[derive(Drop)]
pub struct Method {
    /// The class that has it.
    pub owner: ClassName,
    /// The access flags.
    pub flags: u16,
    /// The name: `<init>` of a constructor.
    pub name: Text,
    /// The signature.
    pub signature: MethodSig,
}

/// Methods, in the order in which they are found.
pub type Methods = ListOf<Method>;

impl Field {
    /// The same field once more.
    pub fn copied(&self) -> Result<Field, NoMemory>
        ensures { IfOk result (λ copy. field_view copy ≡ field_view self.now) }
    {
        let owner = self.owner.copied()?;
        let ty = self.ty.copied()?;
        Ok(Field { owner, ty })
    }
}

impl Method {
    /// The same method once more.
    pub fn copied(&self) -> Result<Method, NoMemory>
        ensures { IfOk result (λ copy. method_view copy ≡ method_view self.now) }
    {
        let owner = self.owner.copied()?;
        let name = self.name.copied()?;
        let signature = self.signature.copied()?;
        Ok(Method {
            owner,
            flags: self.flags,
            name,
            signature,
        })
    }
}

/// The same methods once more.
pub fn copied_methods(alloc: Global, methods: &Methods) -> Result<Methods, NoMemory>
    ensures { IfOk result (λ copy. all_methods copy ≡ all_methods methods.now) }
{
    let mut copy = Methods::new(alloc);
    for method in methods.as_slice() {
        copy.push(method.copied()?)?;
    }
    Ok(copy)
}
