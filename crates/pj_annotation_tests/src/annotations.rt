//! Annotations by the names of their classes.
ghost use Rattle.std.specs.Prelude.{◌≡◌, ◌<◌, length};
ghost use Rattle.std.specs.List.{All};
ghost use Rattle.pj_names.specs.Asking.{first_hit};
ghost use Rattle.pj_names.specs.JavaType.{java_type};
ghost use Rattle.pj_names.specs.Told.{Asks, seen};
ghost use Rattle.pj_tree.specs.declared.node.Node.{Node};
ghost use Rattle.pj_annotation_tests.specs.Annotations.{annotation_called, annotation_type, called, first_annotation, has_annotation};

use pj_leaf_types::declared_type;
use pj_names::{AskFault, Oracle, Ty};
use pj_outer_names::File;
use pj_tree::{Kind, Node, is_kind};
use pj_type_tests::is_class_called;
use pj_written::below_child;
use std::alloc::Global;

/// The type that an annotation names (JLS 9.7.1), at its own place.
#[tactic(auto, using(pj_names::proofs::AskingLaws::asking_steps))]
fn annotation_type<O: Oracle>(
    alloc: Global,
    file: &File<'_>,
    oracle: &mut O,
    n: Node,
) -> Result<Ty, AskFault>
    requires inside { n.0 < length file.now.nodes }
    ensures { Asks (annotation_type file.now n) (O.tells oracle.old) (O.tells oracle.new) (seen java_type result) }
{
    declared_type(alloc, file, oracle, 0, n)
}

/// The annotation itself, where the text is a name of its class.
fn called(text: &str, n: Node, ty: &Ty) -> Option<Node>
    ensures { result ≡ called text.now n (java_type ty.now) }
{
    if is_class_called(ty, text) {
        Some(n)
    } else {
        None
    }
}

/// A part of a ModifierList, where it is an annotation whose class has the name.
#[tactic(auto, using(pj_names::proofs::AskingLaws::asking_steps))]
fn annotation_called<O: Oracle>(
    alloc: Global,
    file: &File<'_>,
    oracle: &mut O,
    text: &str,
    n: Node,
) -> Result<Option<Node>, AskFault>
    requires inside { n.0 < length file.now.nodes }
    ensures { Asks (annotation_called file.now text.now n) (O.tells oracle.old) (O.tells oracle.new) result }
{
    if !is_kind(file.tree(), Kind::Annotation, n) {
        return Ok(None);
    }
    let ty = annotation_type(alloc, file, oracle, n)?;
    Ok(called(text, n, &ty))
}

/// The first of some parts of a ModifierList that is an annotation whose class has the name.
#[tactic(auto, using(pj_names::proofs::AskingLaws::asking_loops))]
fn first_called<O: Oracle>(
    alloc: Global,
    file: &File<'_>,
    oracle: &mut O,
    text: &str,
    parts: &[Node],
) -> Result<Option<Node>, AskFault>
    requires inside { All (λ (m : Node). m.0 < length file.now.nodes) parts.now }
    ensures { Asks (first_hit (annotation_called file.now text.now) parts.now) (O.tells oracle.old) (O.tells oracle.new) result }
{
    for part in parts {
        let hit = annotation_called(alloc, file, oracle, text, *part)?;
        if let Some(annotation) = hit {
            return Ok(Some(annotation));
        }
    }
    Ok(None)
}

/// The first annotation of a declaration whose class has the name.
#[tactic(auto, using(pj_names::proofs::AskingLaws::asking_steps))]
fn first_annotation<O: Oracle>(
    alloc: Global,
    file: &File<'_>,
    oracle: &mut O,
    n: Node,
    text: &str,
) -> Result<Option<Node>, AskFault>
    requires inside { n.0 < length file.now.nodes }
    ensures { Asks (first_annotation file.now n text.now) (O.tells oracle.old) (O.tells oracle.new) result }
{
    let parts = below_child(alloc, file.tree(), n, Kind::ModifierList)?;
    first_called(alloc, file, oracle, text, parts.as_slice())
}

/// Whether a node has a ModifierList with an annotation whose class has the name, canonical or binary (JLS 9.7, 6.7, 13.1).
///
/// The annotations are taken in order, up to the first one that has it, and the name of each is resolved at its own place (JLS 6.5.5). One that is not known
/// has no name.
#[tactic(auto, using(pj_names::proofs::AskingLaws::asking_steps))]
pub fn has_annotation<O: Oracle>(
    alloc: Global,
    file: &File<'_>,
    oracle: &mut O,
    n: Node,
    text: &str,
) -> Result<bool, AskFault>
    requires inside { n.0 < length file.now.nodes }
    ensures { Asks (has_annotation file.now n text.now) (O.tells oracle.old) (O.tells oracle.new) result }
{
    let hit = first_annotation(alloc, file, oracle, n, text)?;
    Ok(hit.is_some())
}
