//! The superclass and the interfaces of a class, and supertypes as they are written.

ghost use Rattle.std.specs.Prelude.{◌≡◌, ◌<◌, length, IfOk};
ghost use Rattle.std.specs.List.{All};
ghost use Rattle.pj_names.specs.Asking.{each};
ghost use Rattle.pj_names.specs.JavaType.{java_type, type_list};
ghost use Rattle.pj_names.specs.Told.{Asks, seen};
ghost use Rattle.pj_tree.specs.declared.node.Node.{Node};
ghost use Rattle.pj_file_oracle.specs.Seen.{supertypes_view};
ghost use Rattle.pj_file_oracle.specs.Supertypes.{as_interface, as_superclass, as_supertype, only_interfaces, supertype};

use pj_base::{NoMemory, Numbers};
use pj_names::{AskFault, Oracle, Ty, TyList};
use pj_outer_names::File;
use pj_tree::Node;
use pj_type_names::written_type;
use pj_written::object_type;
use std::alloc::Global;

/// The superclass and the interfaces of a class.
#[derive(Drop)]
pub struct Supertypes {
    pub superclass: Ty,
    pub interfaces: TyList,
}

/// `java.lang.Object` with interfaces.
pub fn only_interfaces(alloc: Global, interfaces: TyList) -> Result<Supertypes, NoMemory>
    ensures { IfOk result (λ types. supertypes_view types ≡ only_interfaces (type_list interfaces)) }
{
    let superclass = object_type(alloc)?;
    Ok(Supertypes {
        superclass,
        interfaces,
    })
}

/// A type as the superclass, without interfaces.
pub fn as_superclass(alloc: Global, ty: Ty) -> Supertypes
    ensures { supertypes_view result ≡ as_superclass (java_type ty) }
{
    Supertypes {
        superclass: ty,
        interfaces: TyList::new(alloc),
    }
}

/// A type as the one interface.
pub fn as_interface(alloc: Global, ty: Ty) -> Result<Supertypes, NoMemory>
    ensures { IfOk result (λ types. supertypes_view types ≡ as_interface (java_type ty)) }
{
    let mut interfaces = TyList::new(alloc);
    interfaces.push(ty)?;
    only_interfaces(alloc, interfaces)
}

/// A written supertype: one that is no class is not known.
fn as_supertype(ty: Ty) -> Ty
    ensures { java_type result ≡ as_supertype (java_type ty) }
{
    match ty {
        Ty::Class(name, arguments) => Ty::Class(name, arguments),
        _ => Ty::Unknown,
    }
}

/// The supertype that is written in a node (JLS 8.1.4, 8.1.5), where the headers of some classes are being resolved: one that is no class is not known.
#[tactic(auto, using(pj_names::proofs::AskingLaws::asking_steps), unfolding(crate::specs::Supertypes::supertype))]
pub fn supertype<O: Oracle>(
    alloc: Global,
    file: &File<'_>,
    oracle: &mut O,
    busy: &Numbers,
    n: Node,
) -> Result<Ty, AskFault>
    requires inside { n.0 < length file.now.nodes }
    ensures { Asks (supertype file.now busy.now n) (O.tells oracle.old) (O.tells oracle.new) (seen java_type result) }
{
    let ty = written_type(alloc, file, oracle, busy, 0, n)?;
    let above = as_supertype(ty);
    Ok(above)
}

/// Written supertypes, one after the other.
#[tactic(auto, using(pj_names::proofs::AskingLaws::asking_loops))]
pub fn listed_supertypes<O: Oracle>(
    alloc: Global,
    file: &File<'_>,
    oracle: &mut O,
    busy: &Numbers,
    nodes: &[Node],
) -> Result<TyList, AskFault>
    requires inside { All (λ (n : Node). n.0 < length file.now.nodes) nodes.now }
    ensures { Asks (each (supertype file.now busy.now) nodes.now) (O.tells oracle.old) (O.tells oracle.new) (seen type_list result) }
{
    let mut types = TyList::new(alloc);
    for n in nodes {
        let ty = supertype(alloc, file, oracle, busy, *n)?;
        types.push(ty)?;
    }
    Ok(types)
}
