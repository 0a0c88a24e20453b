//! The superclass and the interfaces of an anonymous class (JLS 15.9.5, 8.9.1).

ghost use Rattle.std.specs.Prelude.{◌≡◌, ◌<◌, Some, if◌then◌else◌, is_some, length, IfOk};
ghost use Rattle.pj_names.specs.JavaType.{java_type};
ghost use Rattle.pj_names.specs.Told.{Asks, seen};
ghost use Rattle.pj_file_oracle.specs.Seen.{supertypes_view};
ghost use Rattle.pj_file_oracle.specs.Supertypes.{anonymous_supertypes, as_interface, as_superclass, asked_interface, by_type, created_supertypes, enum_type, interface_named, is_in_object, is_interface_answer, is_interface_type, is_of_object};
ghost use Rattle.pj_signatures.specs.Reading.{class_signature_of};
ghost use Rattle.pj_written.specs.Headers.{created};
ghost use Rattle.pj_written.specs.Types.{object_type};

use crate::supertypes::{Supertypes, as_interface, as_superclass, supertype};
use pj_base::{NoMemory, Numbers};
use pj_names::{Answer, AskFault, ClassName, Oracle, Ty};
use pj_outer_names::File;
use pj_signatures::class_signature;
use pj_symbols::class_around;
use pj_tree::Node;
use pj_written::{class_of_text, created, is_constant_body, is_interface, object_type};
use std::alloc::Global;

/// Whether a text is the signature of a class.
fn is_signature(alloc: Global, text: &str) -> Result<bool, NoMemory>
    ensures { IfOk result (λ is. is ≡ is_some (class_signature_of text.now)) }
{
    match class_signature(alloc, text)? {
        Some(_) => Ok(true),
        None => Ok(false),
    }
}

/// Whether an answer is an interface, by its flags; a class whose signature is none counts as a broken one.
fn is_interface_answer(alloc: Global, answer: &Answer) -> Result<bool, NoMemory>
    ensures { IfOk result (λ is. is ≡ is_interface_answer answer.now) }
{
    match answer {
        Answer::Found(class) => {
            if class.flags & 0x0200 == 0 {
                return Ok(false);
            }
            is_signature(alloc, class.signature.as_str())
        }
        Answer::Absent | Answer::Broken(_) => Ok(false),
    }
}

/// Whether a name is that of a member class of `java.lang.Object`.
fn is_in_object(name: &str) -> bool
    ensures { result ≡ is_in_object name.now }
{
    name.starts_with("java.lang.Object$")
}

/// Whether a class is `java.lang.Object`, or has the name of a member class of it.
fn is_of_object(name: &ClassName) -> bool
    ensures { result ≡ is_of_object name.now }
{
    name.is_object() || is_in_object(name.as_str())
}

/// Whether a class outside the file is an interface.
#[tactic(auto, using(pj_names::proofs::AskingLaws::asking_steps))]
fn asked_interface<O: Oracle>(
    alloc: Global,
    oracle: &mut O,
    name: &ClassName,
) -> Result<bool, AskFault>
    ensures { Asks (asked_interface name.now) (O.tells oracle.old) (O.tells oracle.new) result }
{
    if is_of_object(name) {
        return Ok(false);
    }
    let answer = oracle.ask(name)?;
    let is_interface = is_interface_answer(alloc, &answer)?;
    Ok(is_interface)
}

/// Whether a class is an interface: of the file by its declaration, and else by its answer.
#[tactic(auto, using(pj_names::proofs::AskingLaws::asking_steps))]
fn interface_named<O: Oracle>(
    alloc: Global,
    file: &File<'_>,
    oracle: &mut O,
    name: &ClassName,
) -> Result<bool, AskFault>
    ensures { Asks (interface_named file.now name.now) (O.tells oracle.old) (O.tells oracle.new) result }
{
    match file.node_named(name.as_str()) {
        Some(class) => Ok(is_interface(file.tree(), class)),
        None => asked_interface(alloc, oracle, name),
    }
}

/// Whether a type is an interface (JLS 9.1): a class of the file by its declaration, and any other one by its answer, for which it is asked. No other type is one, nor is
/// `java.lang.Object` or a member class of it, which are not asked.
#[tactic(auto, using(pj_names::proofs::AskingLaws::asking_steps))]
pub fn is_interface_type<O: Oracle>(
    alloc: Global,
    file: &File<'_>,
    oracle: &mut O,
    ty: &Ty,
) -> Result<bool, AskFault>
    ensures { Asks (is_interface_type file.now (java_type ty.now)) (O.tells oracle.old) (O.tells oracle.new) result }
{
    match ty {
        Ty::Class(name, _) => interface_named(alloc, file, oracle, name),
        _ => Ok(false),
    }
}

/// A type as the one interface, or as the superclass.
fn as_either(alloc: Global, ty: Ty, is_interface: bool) -> Result<Supertypes, NoMemory>
    ensures { IfOk result (λ types. supertypes_view types ≡ (if is_interface then as_interface (java_type ty) else as_superclass (java_type ty))) }
{
    if is_interface {
        as_interface(alloc, ty)
    } else {
        Ok(as_superclass(alloc, ty))
    }
}

/// The supertypes of a class by the type of its `new`.
#[tactic(auto, using(pj_names::proofs::AskingLaws::asking_steps))]
fn by_type<O: Oracle>(
    alloc: Global,
    file: &File<'_>,
    oracle: &mut O,
    ty: Ty,
) -> Result<Supertypes, AskFault>
    ensures { Asks (by_type file.now (java_type ty)) (O.tells oracle.old) (O.tells oracle.new) (seen supertypes_view result) }
{
    let is_interface = is_interface_type(alloc, file, oracle, &ty)?;
    let types = as_either(alloc, ty, is_interface)?;
    Ok(types)
}

/// `java.lang.Object` alone.
fn only_object(alloc: Global) -> Result<Supertypes, NoMemory>
    ensures { IfOk result (λ types. supertypes_view types ≡ as_superclass object_type) }
{
    let ty = object_type(alloc)?;
    Ok(as_superclass(alloc, ty))
}

/// The same by the node of that type.
#[tactic(auto, using(pj_names::proofs::AskingLaws::asking_steps))]
fn by_node<O: Oracle>(
    alloc: Global,
    file: &File<'_>,
    oracle: &mut O,
    busy: &Numbers,
    n: Node,
) -> Result<Supertypes, AskFault>
    requires inside { n.0 < length file.now.nodes }
    ensures { Asks (created_supertypes file.now busy.now (Some n)) (O.tells oracle.old) (O.tells oracle.new) (seen supertypes_view result) }
{
    let ty = supertype(alloc, file, oracle, busy, n)?;
    by_type(alloc, file, oracle, ty)
}

/// The supertypes of a class that is created by a `new`.
#[tactic(auto, using(pj_names::proofs::AskingLaws::asking_steps))]
fn created_supertypes<O: Oracle>(
    alloc: Global,
    file: &File<'_>,
    oracle: &mut O,
    busy: &Numbers,
    class: Node,
) -> Result<Supertypes, AskFault>
    requires inside { class.0 < length file.now.nodes }
    ensures { Asks (created_supertypes file.now busy.now (created file.now class)) (O.tells oracle.old) (O.tells oracle.new) (seen supertypes_view result) }
{
    match created(file.tree(), class) {
        Some(n) => by_node(alloc, file, oracle, busy, n),
        None => {
            let types = only_object(alloc)?;
            Ok(types)
        }
    }
}

/// The enum around the body of one of its constants, without arguments (JLS 8.9.1).
pub fn enum_type(alloc: Global, file: &File<'_>, class: Node) -> Result<Ty, NoMemory>
    requires inside { class.0 < length file.now.nodes }
    ensures { IfOk result (λ ty. java_type ty ≡ enum_type file.now class) }
{
    match class_around(file.tree(), class) {
        Some(owner) => class_of_text(alloc, file.class_text(owner)),
        None => object_type(alloc),
    }
}

/// The supertypes of such a body.
fn constant_supertypes(alloc: Global, file: &File<'_>, class: Node) -> Result<Supertypes, NoMemory>
    requires inside { class.0 < length file.now.nodes }
    ensures { IfOk result (λ types. supertypes_view types ≡ as_superclass (enum_type file.now class)) }
{
    let ty = enum_type(alloc, file, class)?;
    Ok(as_superclass(alloc, ty))
}

/// The superclass and the interfaces of an anonymous class, where the headers of some classes are being resolved.
#[tactic(auto, using(pj_names::proofs::AskingLaws::asking_steps))]
pub fn anonymous_supertypes<O: Oracle>(
    alloc: Global,
    file: &File<'_>,
    oracle: &mut O,
    busy: &Numbers,
    class: Node,
) -> Result<Supertypes, AskFault>
    requires inside { class.0 < length file.now.nodes }
    ensures { Asks (anonymous_supertypes file.now busy.now class) (O.tells oracle.old) (O.tells oracle.new) (seen supertypes_view result) }
{
    if is_constant_body(file.tree(), class) {
        let types = constant_supertypes(alloc, file, class)?;
        Ok(types)
    } else {
        created_supertypes(alloc, file, oracle, busy, class)
    }
}
