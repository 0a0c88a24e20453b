//! The header of a class of the file, as a signature.

ghost use Rattle.std.specs.Prelude.{◌≡◌, ◌<◌, length, IfOk};
ghost use Rattle.pj_names.specs.Told.{Asks, seen};
ghost use Rattle.pj_file_oracle.specs.FileAnswer.{header_text, header_within};
ghost use Rattle.pj_file_oracle.specs.Seen.{supertypes_view};
ghost use Rattle.pj_file_oracle.specs.Supertypes.{annotation_supertypes, supertypes_of};
ghost use Rattle.pj_written.specs.Seen.{all_parameters};
ghost use Rattle.pj_written.specs.Spelling.{class_signature_text};

use crate::anonymous::anonymous_supertypes;
use crate::named::named_supertypes;
use crate::supertypes::{Supertypes, as_interface};
use crate::types::type_parameters;
use pj_base::{NoMemory, Numbers, Text};
use pj_names::{AskFault, Oracle};
use pj_outer_names::File;
use pj_tree::{Kind, Node, is_kind};
use pj_written::{Parameters, class_of_text, class_signature};
use std::alloc::Global;

/// Those of an annotation interface.
fn annotation_supertypes(alloc: Global) -> Result<Supertypes, NoMemory>
    ensures { IfOk result (λ types. supertypes_view types ≡ annotation_supertypes) }
{
    let ty = class_of_text(alloc, "java.lang.annotation.Annotation")?;
    as_interface(alloc, ty)
}

/// The superclass and the interfaces of a class of the file, where the headers of some classes are being resolved.
#[tactic(auto, using(pj_names::proofs::AskingLaws::asking_steps))]
fn supertypes_of<O: Oracle>(
    alloc: Global,
    file: &File<'_>,
    oracle: &mut O,
    busy: &Numbers,
    class: Node,
) -> Result<Supertypes, AskFault>
    requires inside { class.0 < length file.now.nodes }
    ensures { Asks (supertypes_of file.now busy.now class) (O.tells oracle.old) (O.tells oracle.new) (seen supertypes_view result) }
{
    let tree = file.tree();
    if is_kind(tree, Kind::AnonymousClassDeclaration, class) {
        return anonymous_supertypes(alloc, file, oracle, busy, class);
    }
    if is_kind(tree, Kind::AnnotationTypeDeclaration, class) {
        let types = annotation_supertypes(alloc)?;
        return Ok(types);
    }
    named_supertypes(alloc, file, oracle, busy, class)
}

/// A signature by its type parameters and supertypes.
fn spelled_header(
    alloc: Global,
    parameters: Parameters,
    types: Supertypes,
) -> Result<Text, NoMemory>
    ensures { IfOk result (λ text. text ≡ class_signature_text (all_parameters parameters) (supertypes_view types).superclass (supertypes_view types).interfaces) }
{
    class_signature(alloc, &parameters, &types.superclass, &types.interfaces)
}

/// The signature of a class, where the headers of some classes are being resolved.
#[tactic(auto, using(pj_names::proofs::AskingLaws::asking_steps))]
fn header_within<O: Oracle>(
    alloc: Global,
    file: &File<'_>,
    oracle: &mut O,
    busy: &Numbers,
    class: Node,
) -> Result<Text, AskFault>
    requires inside { class.0 < length file.now.nodes }
    ensures { Asks (header_within file.now busy.now class) (O.tells oracle.old) (O.tells oracle.new) result }
{
    let parameters = type_parameters(alloc, file, oracle, busy, class)?;
    let types = supertypes_of(alloc, file, oracle, busy, class)?;
    let text = spelled_header(alloc, parameters, types)?;
    Ok(text)
}

/// The signature of a class, whose own header is being resolved.
#[tactic(auto, using(pj_names::proofs::AskingLaws::asking_steps))]
pub fn header_text<O: Oracle>(
    alloc: Global,
    file: &File<'_>,
    oracle: &mut O,
    class: Node,
) -> Result<Text, AskFault>
    requires inside { class.0 < length file.now.nodes }
    ensures { Asks (header_text file.now class) (O.tells oracle.old) (O.tells oracle.new) result }
{
    let mut busy = Numbers::new(alloc);
    busy.push(class.0)?;
    header_within(alloc, file, oracle, &busy, class)
}
