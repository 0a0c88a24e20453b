//! The superclass of a class of the file (JLS 8.1.4, 8.9, 8.10, 15.9.5): just the type that stands there is resolved.

ghost use Rattle.std.specs.Prelude.{◌≡◌, ◌<◌, Some, [], ◌∷◌, length, IfOk, IfSome};
ghost use Rattle.pj_names.specs.JavaType.{java_type};
ghost use Rattle.pj_names.specs.Told.{Asks, seen};
ghost use Rattle.pj_written.specs.Headers.{created};
ghost use Rattle.pj_leaf_types.specs.Classes.{anonymous_superclass, created_superclass, extended_type, superclass_of, unless_interface, written_superclass};

use pj_base::{NoMemory, Numbers};
use pj_file_oracle::{enum_type, implied_superclass, is_interface_type, supertype};
use pj_names::{AskFault, Oracle, Ty};
use pj_outer_names::File;
use pj_tree::{Kind, Node, SyntaxTree, child_of, first_child, is_kind};
use pj_written::{created, is_constant_body, is_interface, object_type};
use std::alloc::Global;

/// A type, or `java.lang.Object` in the place of an interface.
fn unless_interface(alloc: Global, ty: Ty, is_interface: bool) -> Result<Ty, NoMemory>
    ensures { IfOk result (λ superclass. java_type superclass ≡ unless_interface (java_type ty) is_interface) }
{
    if is_interface {
        object_type(alloc)
    } else {
        Ok(ty)
    }
}

/// The superclass by the type of a `new`.
#[tactic(auto, using(pj_names::proofs::AskingLaws::asking_steps))]
fn by_node<O: Oracle>(
    alloc: Global,
    file: &File<'_>,
    oracle: &mut O,
    busy: &Numbers,
    n: Node,
) -> Result<Ty, AskFault>
    requires inside { n.0 < length file.now.nodes }
    ensures { Asks (created_superclass file.now busy.now (Some n)) (O.tells oracle.old) (O.tells oracle.new) (seen java_type result) }
{
    let ty = supertype(alloc, file, oracle, busy, n)?;
    let is_interface = is_interface_type(alloc, file, oracle, &ty)?;
    let superclass = unless_interface(alloc, ty, is_interface)?;
    Ok(superclass)
}

/// The same, where there is one.
#[tactic(auto, using(pj_names::proofs::AskingLaws::asking_steps))]
fn created_superclass<O: Oracle>(
    alloc: Global,
    file: &File<'_>,
    oracle: &mut O,
    busy: &Numbers,
    class: Node,
) -> Result<Ty, AskFault>
    requires inside { class.0 < length file.now.nodes }
    ensures { Asks (created_superclass file.now busy.now (created file.now class)) (O.tells oracle.old) (O.tells oracle.new) (seen java_type result) }
{
    match created(file.tree(), class) {
        Some(n) => by_node(alloc, file, oracle, busy, n),
        None => {
            let ty = object_type(alloc)?;
            Ok(ty)
        }
    }
}

/// The header of a class that is being resolved, and no other one.
fn only(alloc: Global, class: Node) -> Result<Numbers, NoMemory>
    ensures { IfOk result (λ busy. busy ≡ class.0 ∷ []) }
{
    let mut busy = Numbers::new(alloc);
    busy.push(class.0)?;
    Ok(busy)
}

/// The superclass of an anonymous class.
#[tactic(auto, using(pj_names::proofs::AskingLaws::asking_steps))]
fn anonymous_superclass<O: Oracle>(
    alloc: Global,
    file: &File<'_>,
    oracle: &mut O,
    class: Node,
) -> Result<Ty, AskFault>
    requires inside { class.0 < length file.now.nodes }
    ensures { Asks (anonymous_superclass file.now class) (O.tells oracle.old) (O.tells oracle.new) (seen java_type result) }
{
    if is_constant_body(file.tree(), class) {
        let ty = enum_type(alloc, file, class)?;
        return Ok(ty);
    }
    let busy = only(alloc, class)?;
    created_superclass(alloc, file, oracle, &busy, class)
}

/// The type behind `extends`.
fn extended_type(tree: &SyntaxTree<'_>, class: Node) -> Option<Node>
    requires inside { class.0 < length tree.now.nodes }
    ensures value { result ≡ extended_type tree.now class }
    ensures inside { IfSome result (λ n. n.0 < length tree.now.nodes) }
{
    match child_of(tree, class, Kind::ExtendsList) {
        Some(list) => first_child(tree, list),
        None => None,
    }
}

/// The superclass of a class with a name.
#[tactic(auto, using(pj_names::proofs::AskingLaws::asking_steps))]
fn written_superclass<O: Oracle>(
    alloc: Global,
    file: &File<'_>,
    oracle: &mut O,
    class: Node,
) -> Result<Ty, AskFault>
    requires inside { class.0 < length file.now.nodes }
    ensures { Asks (written_superclass file.now class (extended_type file.now class)) (O.tells oracle.old) (O.tells oracle.new) (seen java_type result) }
{
    let busy = only(alloc, class)?;
    match extended_type(file.tree(), class) {
        Some(n) => supertype(alloc, file, oracle, &busy, n),
        None => {
            let ty = implied_superclass(alloc, file, class)?;
            Ok(ty)
        }
    }
}

/// The superclass of a class of the file. Of an interface it is `java.lang.Object` (JVMS 4.1).
#[tactic(auto, using(pj_names::proofs::AskingLaws::asking_steps))]
pub fn superclass_of<O: Oracle>(
    alloc: Global,
    file: &File<'_>,
    oracle: &mut O,
    class: Node,
) -> Result<Ty, AskFault>
    requires inside { class.0 < length file.now.nodes }
    ensures { Asks (superclass_of file.now class) (O.tells oracle.old) (O.tells oracle.new) (seen java_type result) }
{
    if is_kind(file.tree(), Kind::AnonymousClassDeclaration, class) {
        return anonymous_superclass(alloc, file, oracle, class);
    }
    if is_interface(file.tree(), class) {
        let ty = object_type(alloc)?;
        return Ok(ty);
    }
    written_superclass(alloc, file, oracle, class)
}
