//! The candidates of `new`, and of `this` or `super` at the beginning of a constructor (JLS 8.8.7.1, 15.9.3).

ghost use Rattle.std.specs.Prelude.{◌<◌, Some, length};
ghost use Rattle.pj_names.specs.JavaType.{java_type};
ghost use Rattle.pj_names.specs.Told.{Asks, seen};
ghost use Rattle.pj_declared.specs.Bodies.{class_at};
ghost use Rattle.pj_calls.specs.Candidates.{constructors_of, created_constructors, invoked_constructors, invoked_in};
ghost use Rattle.pj_calls.specs.Seen.{seen_candidates};

use crate::candidates::{Candidates, of_class};
use pj_declared::class_at;
use pj_leaf_types::{created, superclass_of};
use pj_names::{AskFault, Oracle, Ty};
use pj_outer_names::File;
use pj_tree::{Node, has_word};
use pj_written::class_of_text;
use std::alloc::Global;

/// The constructors of a type. Only a class has some, and they are its own (JLS 8.8).
#[tactic(auto, using(pj_names::proofs::AskingLaws::asking_steps))]
fn constructors_of<O: Oracle>(
    alloc: Global,
    oracle: &mut O,
    ty: Ty,
) -> Result<Option<Candidates>, AskFault>
    ensures { Asks (constructors_of (java_type ty)) (O.tells oracle.old) (O.tells oracle.new) (seen seen_candidates result) }
{
    match ty {
        Ty::Class(class, _) => of_class(alloc, oracle, "<init>", class),
        _ => Ok(None),
    }
}

/// Those of the class that a `new` writes.
#[tactic(auto, using(pj_names::proofs::AskingLaws::asking_steps))]
pub fn created_constructors<O: Oracle>(
    alloc: Global,
    file: &File<'_>,
    oracle: &mut O,
    n: Node,
) -> Result<Option<Candidates>, AskFault>
    requires inside { n.0 < length file.now.nodes }
    ensures { Asks (created_constructors file.now n) (O.tells oracle.old) (O.tells oracle.new) (seen seen_candidates result) }
{
    let ty = created(alloc, file, oracle, n)?;
    constructors_of(alloc, oracle, ty)
}

/// The class of `this(..)`, and the superclass of `super(..)`, in a class.
#[tactic(auto, using(pj_names::proofs::AskingLaws::asking_steps))]
fn invoked_within<O: Oracle>(
    alloc: Global,
    file: &File<'_>,
    oracle: &mut O,
    n: Node,
    class: Node,
) -> Result<Ty, AskFault>
    requires inside { n.0 < length file.now.nodes }
    requires class { class.0 < length file.now.nodes }
    ensures { Asks (invoked_in file.now n (Some class)) (O.tells oracle.old) (O.tells oracle.new) (seen java_type result) }
{
    if has_word(file.tree(), n, "super") {
        return superclass_of(alloc, file, oracle, class);
    }
    let ty = class_of_text(alloc, file.class_text(class))?;
    Ok(ty)
}

/// The same, in the innermost class around.
#[tactic(auto, using(pj_names::proofs::AskingLaws::asking_steps))]
fn invoked_in<O: Oracle>(
    alloc: Global,
    file: &File<'_>,
    oracle: &mut O,
    n: Node,
) -> Result<Ty, AskFault>
    requires inside { n.0 < length file.now.nodes }
    ensures { Asks (invoked_in file.now n (class_at file.now n)) (O.tells oracle.old) (O.tells oracle.new) (seen java_type result) }
{
    match class_at(file.tree(), n) {
        Some(class) => invoked_within(alloc, file, oracle, n, class),
        None => Ok(Ty::Unknown),
    }
}

/// The constructors of the class around for `this(..)`, and of its superclass for `super(..)`.
#[tactic(auto, using(pj_names::proofs::AskingLaws::asking_steps))]
pub fn invoked_constructors<O: Oracle>(
    alloc: Global,
    file: &File<'_>,
    oracle: &mut O,
    n: Node,
) -> Result<Option<Candidates>, AskFault>
    requires inside { n.0 < length file.now.nodes }
    ensures { Asks (invoked_constructors file.now n) (O.tells oracle.old) (O.tells oracle.new) (seen seen_candidates result) }
{
    let ty = invoked_in(alloc, file, oracle, n)?;
    constructors_of(alloc, oracle, ty)
}
