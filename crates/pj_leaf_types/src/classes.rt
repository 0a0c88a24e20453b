//! Classes that are declared, `this` and `super` (JLS 15.8.3, 15.8.4, 15.11.2).

ghost use Rattle.std.specs.Prelude.{◌≡◌, ◌<◌, length, IfOk};
ghost use Rattle.pj_names.specs.JavaType.{java_type};
ghost use Rattle.pj_names.specs.Told.{Asks, seen};
ghost use Rattle.pj_leaf_types.specs.Classes.{class_alone, class_or_unknown, declared_class, named_class, super_type, this_type};

use crate::superclass::superclass_of;
use crate::written::type_or_unknown;
use pj_base::NoMemory;
use pj_declared::class_at;
use pj_names::{AskFault, Oracle, Ty, Types};
use pj_outer_names::File;
use pj_tree::{Kind, Node, child_of, has_child};
use pj_written::class_of_text;
use std::alloc::Global;

/// A class that the file declares, without arguments.
pub fn declared_class(alloc: Global, file: &File<'_>, class: Node) -> Result<Ty, NoMemory>
    ensures { IfOk result (λ ty. java_type ty ≡ declared_class file.now class) }
{
    class_of_text(alloc, file.class_text(class))
}

/// The same, where there is one.
pub fn class_or_unknown(alloc: Global, file: &File<'_>, class: Option<Node>) -> Result<Ty, NoMemory>
    ensures { IfOk result (λ ty. java_type ty ≡ class_or_unknown file.now class) }
{
    match class {
        Some(class) => declared_class(alloc, file, class),
        None => Ok(Ty::Unknown),
    }
}

/// The class of a type, without arguments; what is no class is not known.
fn class_alone(ty: Ty) -> Ty
    ensures { java_type result ≡ class_alone (java_type ty) }
{
    match ty {
        Ty::Class(name, _) => Ty::Class(name, Types::End),
        _ => Ty::Unknown,
    }
}

/// The class that a type names.
#[tactic(auto, using(pj_names::proofs::AskingLaws::asking_steps))]
fn named_class<O: Oracle>(
    alloc: Global,
    file: &File<'_>,
    oracle: &mut O,
    name: Node,
) -> Result<Ty, AskFault>
    requires inside { name.0 < length file.now.nodes }
    ensures { Asks (named_class file.now name) (O.tells oracle.old) (O.tells oracle.new) (seen java_type result) }
{
    let ty = type_or_unknown(alloc, file, oracle, 0, Some(name))?;
    Ok(class_alone(ty))
}

/// The type of `this`: the class that it names, or else the innermost class around (JLS 15.8.3, 15.8.4).
#[tactic(auto, using(pj_names::proofs::AskingLaws::asking_steps))]
pub fn this_type<O: Oracle>(
    alloc: Global,
    file: &File<'_>,
    oracle: &mut O,
    n: Node,
) -> Result<Ty, AskFault>
    requires inside { n.0 < length file.now.nodes }
    ensures { Asks (this_type file.now n) (O.tells oracle.old) (O.tells oracle.new) (seen java_type result) }
{
    match child_of(file.tree(), n, Kind::ClassType) {
        Some(name) => named_class(alloc, file, oracle, name),
        None => {
            let ty = class_or_unknown(alloc, file, class_at(file.tree(), n))?;
            Ok(ty)
        }
    }
}

/// The type of `super`: the superclass of the innermost class around; with a name it is not known (JLS 15.11.2).
#[tactic(auto, using(pj_names::proofs::AskingLaws::asking_steps))]
pub fn super_type<O: Oracle>(
    alloc: Global,
    file: &File<'_>,
    oracle: &mut O,
    n: Node,
) -> Result<Ty, AskFault>
    requires inside { n.0 < length file.now.nodes }
    ensures { Asks (super_type file.now n) (O.tells oracle.old) (O.tells oracle.new) (seen java_type result) }
{
    if has_child(file.tree(), n, Kind::ClassType) {
        return Ok(Ty::Unknown);
    }
    match class_at(file.tree(), n) {
        Some(class) => superclass_of(alloc, file, oracle, class),
        None => Ok(Ty::Unknown),
    }
}
