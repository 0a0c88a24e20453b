//! Names of types at a place, and the types that are written.
//!
//! What a class of the file inherits is found by its header, which writes types, whose names may be inherited in turn: the functions here
//! are one recursion over headers. A call counts the headers that it has entered, and how many stand open within one another with
//! lists of type arguments; past a number of either it wants memory, so that no file costs the power of its depth, nor a stack as
//! deep as it has classes.

ghost use Rattle.std.specs.Prelude.{◌≡◌, ◌<◌, ◌≤◌, ◌-◌, [], length, IfSome};
ghost use Rattle.std.specs.List.{All};
ghost use Rattle.pj_names.specs.Asking.{each, first_hit};
ghost use Rattle.pj_names.specs.JavaType.{java_type, java_types, type_list};
ghost use Rattle.pj_tree.specs.declared.node.Node.{Node};
ghost use Rattle.pj_names.specs.Told.{Asks, seen};
ghost use Rattle.pj_outer_names.specs.Candidates.{file_classes};
ghost use Rattle.pj_outer_names.specs.Around.{searched};
ghost use Rattle.pj_type_names.specs.Searching as resolution;
ghost use Rattle.pj_type_names.specs.Resolved.{packaged};
ghost use Rattle.pj_type_names.specs.TypeName.{enough, type_name, written_bound, written_type};
ghost use Rattle.pj_written.specs.Written.{name_of_text};

use crate::read::{
    absent_member, enough, fits_behind, made_variable, name_written, names_type_parameter,
    type_meant, with_implied,
};
use crate::stage::{Entered, MOST_ENTERED, MOST_NESTED, Stage, is_busy};
use pj_base::{Copied, Names, Numbers, Text};
use pj_declared::Declared;
use pj_names::{AskFault, ClassName, ClassNames, Oracle, Ty, TyList, Types};
use pj_outer_names::{File, dotted_class, member_in, next_searched, outside, outside_supertypes};
use pj_tree::{Kind, Node, has_word, is_kind};
use pj_types::NameWalk;
use pj_written::{
    MOST_SIGNS, Written, all_bounds, arguments_of, arrays, bare, below_child, bounds_of, brackets,
    class_of_text, last_child, name_of_text, object_type, primitive_of, with_dots,
    written_supertypes,
};
use std::alloc::Global;

/// The most classes that a walk is followed: a list has no more members.
const MOST_CLASSES: u64 = 4294967294;

/// The direct supertypes of a class.
#[cycle(resolving)]
#[tactic(auto, using(pj_names::proofs::AskingLaws::asking_steps))]
fn direct_supertypes<O: Oracle>(
    alloc: Global,
    stage: &Stage<'_, '_>,
    oracle: &mut O,
    entered: &mut Entered,
    name: &ClassName,
) -> Result<ClassNames, AskFault>
    ensures { Asks (resolution.supers stage.now.file.now stage.now.left stage.now.busy.now name.now) (O.tells oracle.old) (O.tells oracle.new) result }
{
    if stage.left == 0 {
        return Ok(ClassNames::new(alloc));
    }
    supertypes_by(alloc, stage, oracle, entered, name)
}

/// The same where a header may be entered: of a class of the file by its header alone.
#[cycle(resolving)]
#[tactic(auto, using(pj_names::proofs::AskingLaws::asking_steps))]
fn supertypes_by<O: Oracle>(
    alloc: Global,
    stage: &Stage<'_, '_>,
    oracle: &mut O,
    entered: &mut Entered,
    name: &ClassName,
) -> Result<ClassNames, AskFault>
    requires left { 0 < stage.now.left }
    ensures { Asks (resolution.supers_by stage.now.file.now (stage.now.left - 1) stage.now.busy.now name.now) (O.tells oracle.old) (O.tells oracle.new) result }
{
    if name.is_object() {
        return Ok(ClassNames::new(alloc));
    }
    match stage.file.node_named(name.as_str()) {
        Some(class) => of_file(alloc, stage, oracle, entered, class),
        None => outside_supertypes(alloc, oracle, name),
    }
}

/// The direct supertypes of a class of the file: a class whose header is being resolved has none.
#[cycle(resolving)]
#[tactic(auto, using(pj_names::proofs::AskingLaws::asking_steps))]
fn of_file<O: Oracle>(
    alloc: Global,
    stage: &Stage<'_, '_>,
    oracle: &mut O,
    entered: &mut Entered,
    class: Node,
) -> Result<ClassNames, AskFault>
    requires left { 0 < stage.now.left }
    requires inside { class.0 < length stage.now.file.now.nodes }
    ensures { Asks (resolution.of_file stage.now.file.now (stage.now.left - 1) stage.now.busy.now class) (O.tells oracle.old) (O.tells oracle.new) result }
{
    if is_busy(stage.busy, class) {
        return Ok(ClassNames::new(alloc));
    }
    if stage.nested >= MOST_NESTED || entered.headers >= MOST_ENTERED {
        return Err(AskFault::Memory);
    }
    entered.headers += 1;
    let mut busy = stage.busy.copied()?;
    busy.push(class.0)?;
    let deeper = Stage {
        file: stage.file,
        left: stage.left - 1,
        busy: &busy,
        bounds: 1,
        nested: stage.nested + 1,
    };
    header_supertypes(alloc, &deeper, oracle, entered, class)
}

/// The direct supertypes that a header gives: all of it is resolved, its bounds and then its supertypes.
#[cycle(resolving)]
#[tactic(auto, using(pj_names::proofs::AskingLaws::asking_steps))]
fn header_supertypes<O: Oracle>(
    alloc: Global,
    stage: &Stage<'_, '_>,
    oracle: &mut O,
    entered: &mut Entered,
    class: Node,
) -> Result<ClassNames, AskFault>
    requires bounds { stage.now.bounds ≡ 1 }
    requires inside { class.0 < length stage.now.file.now.nodes }
    ensures { Asks (resolution.header stage.now.file.now stage.now.left stage.now.busy.now class) (O.tells oracle.old) (O.tells oracle.new) result }
{
    let _ = header_bounds(alloc, stage, oracle, entered, class)?;
    header_names(alloc, stage, oracle, entered, class)
}

/// The bounds of all type parameters of a class.
#[cycle(resolving)]
#[tactic(auto, using(pj_names::proofs::AskingLaws::asking_steps))]
fn header_bounds<O: Oracle>(
    alloc: Global,
    stage: &Stage<'_, '_>,
    oracle: &mut O,
    entered: &mut Entered,
    class: Node,
) -> Result<TyList, AskFault>
    requires bounds { stage.now.bounds ≡ 1 }
    requires inside { class.0 < length stage.now.file.now.nodes }
    ensures { Asks (resolution.header_bounds stage.now.file.now stage.now.left stage.now.busy.now class) (O.tells oracle.old) (O.tells oracle.new) (seen type_list result) }
{
    let bounds = all_bounds(alloc, stage.file.tree(), class)?;
    let within = stage.within_bound();
    types_of(alloc, &within, oracle, entered, 1, bounds.as_slice())
}

/// The names of the supertypes that a header writes or implies.
#[cycle(resolving)]
#[tactic(auto, using(pj_names::proofs::AskingLaws::asking_steps))]
fn header_names<O: Oracle>(
    alloc: Global,
    stage: &Stage<'_, '_>,
    oracle: &mut O,
    entered: &mut Entered,
    class: Node,
) -> Result<ClassNames, AskFault>
    requires bounds { stage.now.bounds ≡ 1 }
    requires inside { class.0 < length stage.now.file.now.nodes }
    ensures { Asks (resolution.header_names stage.now.file.now stage.now.left stage.now.busy.now class) (O.tells oracle.old) (O.tells oracle.new) result }
{
    let types = header_types(alloc, stage, oracle, entered, class)?;
    let names = with_implied(alloc, stage.file, class, types)?;
    Ok(names)
}

/// The supertypes that a header writes.
#[cycle(resolving)]
#[tactic(auto, using(pj_names::proofs::AskingLaws::asking_steps))]
fn header_types<O: Oracle>(
    alloc: Global,
    stage: &Stage<'_, '_>,
    oracle: &mut O,
    entered: &mut Entered,
    class: Node,
) -> Result<TyList, AskFault>
    requires bounds { stage.now.bounds ≡ 1 }
    requires inside { class.0 < length stage.now.file.now.nodes }
    ensures { Asks (resolution.header_types stage.now.file.now stage.now.left stage.now.busy.now class) (O.tells oracle.old) (O.tells oracle.new) (seen type_list result) }
{
    let written = written_supertypes(alloc, stage.file.tree(), class)?;
    types_of(alloc, stage, oracle, entered, 0, written.as_slice())
}

/// Written types, one after the other, with so many signs of a signature open around each.
#[cycle(resolving)]
#[tactic(auto, using(pj_names::proofs::AskingLaws::asking_loops))]
fn types_of<O: Oracle>(
    alloc: Global,
    stage: &Stage<'_, '_>,
    oracle: &mut O,
    entered: &mut Entered,
    around: u32,
    nodes: &[Node],
) -> Result<TyList, AskFault>
    requires bounds { stage.now.bounds ≤ 1 }
    requires around { around ≤ 1 }
    requires inside { All (λ (n : Node). n.0 < length stage.now.file.now.nodes) nodes.now }
    ensures { Asks (each (resolution.type_written stage.now.file.now stage.now.left stage.now.busy.now stage.now.bounds around 0) nodes.now) (O.tells oracle.old) (O.tells oracle.new) (seen type_list result) }
{
    let mut types = TyList::new(alloc);
    for n in nodes {
        let ty = type_written(alloc, stage, oracle, entered, around, 0, *n)?;
        types.push(ty)?;
    }
    Ok(types)
}

/// The first member class of a name along the list of supertypes of a class; its own is left out where it is told by its
/// declaration.
#[cycle(resolving)]
#[tactic(auto, using(pj_names::proofs::AskingLaws::asking_steps))]
fn first_member<O: Oracle>(
    alloc: Global,
    stage: &Stage<'_, '_>,
    oracle: &mut O,
    entered: &mut Entered,
    class: &ClassName,
    own_counts: bool,
    simple: &str,
) -> Result<Option<ClassName>, AskFault>
    ensures { Asks (resolution.first_member stage.now.file.now stage.now.left stage.now.busy.now own_counts class.now simple.now) (O.tells oracle.old) (O.tells oracle.new) result }
{
    let mut walk = NameWalk::of(alloc, class)?;
    for _class in 0..MOST_CLASSES {
        let Some(next) = walk.next_class()? else {
            return Ok(None);
        };
        let hit = member_in(alloc, stage.file, oracle, own_counts, class, simple, &next)?;
        if let Some(hit) = hit {
            return Ok(Some(hit));
        }
        let more = direct_supertypes(alloc, stage, oracle, entered, &next)?;
        walk.put(more)?;
    }
    Err(AskFault::Memory)
}

/// The member class of a class, of its own or inherited. One that is not there is the class `C$S`.
#[cycle(resolving)]
#[tactic(auto, using(pj_names::proofs::AskingLaws::asking_steps))]
fn member_type<O: Oracle>(
    alloc: Global,
    stage: &Stage<'_, '_>,
    oracle: &mut O,
    entered: &mut Entered,
    class: &ClassName,
    simple: &str,
) -> Result<Ty, AskFault>
    ensures { Asks (resolution.member stage.now.file.now stage.now.left stage.now.busy.now class.now simple.now) (O.tells oracle.old) (O.tells oracle.new) (seen java_type result) }
{
    match first_member(alloc, stage, oracle, entered, class, true, simple)? {
        Some(hit) => Ok(Ty::Class(hit, Types::End)),
        None => {
            let ty = absent_member(alloc, class, simple)?;
            Ok(ty)
        }
    }
}

/// The member class that a class of the file inherits.
#[cycle(resolving)]
#[tactic(auto, using(pj_names::proofs::AskingLaws::asking_steps))]
fn inherited<O: Oracle>(
    alloc: Global,
    stage: &Stage<'_, '_>,
    oracle: &mut O,
    entered: &mut Entered,
    class: Node,
    simple: &str,
) -> Result<Option<ClassName>, AskFault>
    ensures { Asks (resolution.inherited stage.now.file.now stage.now.left stage.now.busy.now simple.now class) (O.tells oracle.old) (O.tells oracle.new) result }
{
    match ClassName::of(alloc, stage.file.class_text(class))? {
        Some(name) => first_member(alloc, stage, oracle, entered, &name, false, simple),
        None => Ok(None),
    }
}

/// A bound of a type parameter: a variable within a bound has the bound `java.lang.Object`.
#[cycle(resolving)]
#[tactic(auto, using(pj_names::proofs::AskingLaws::asking_steps))]
fn bound_type<O: Oracle>(
    alloc: Global,
    stage: &Stage<'_, '_>,
    oracle: &mut O,
    entered: &mut Entered,
    n: Node,
) -> Result<Ty, AskFault>
    requires bounds { stage.now.bounds ≤ 1 }
    requires inside { n.0 < length stage.now.file.now.nodes }
    ensures { Asks (resolution.bound stage.now.file.now stage.now.left stage.now.busy.now stage.now.bounds n) (O.tells oracle.old) (O.tells oracle.new) (seen java_type result) }
{
    if stage.bounds == 0 {
        let object = object_type(alloc)?;
        return Ok(object);
    }
    let within = stage.within_bound();
    type_written(alloc, &within, oracle, entered, 1, 0, n)
}

/// A type parameter as a variable with the first of its bounds.
#[cycle(resolving)]
#[tactic(auto, using(pj_names::proofs::AskingLaws::asking_steps))]
fn variable_by<O: Oracle>(
    alloc: Global,
    stage: &Stage<'_, '_>,
    oracle: &mut O,
    entered: &mut Entered,
    bounds: &[Node],
    simple: &str,
) -> Result<Ty, AskFault>
    requires bounds { stage.now.bounds ≤ 1 }
    requires inside { All (λ (n : Node). n.0 < length stage.now.file.now.nodes) bounds.now }
    ensures { Asks (resolution.variable_by stage.now.file.now stage.now.left stage.now.busy.now stage.now.bounds simple.now bounds.now) (O.tells oracle.old) (O.tells oracle.new) (seen java_type result) }
{
    if bounds.is_empty() {
        let object = object_type(alloc)?;
        let ty = made_variable(alloc, simple, object)?;
        return Ok(ty);
    }
    let bound = bound_type(alloc, stage, oracle, entered, bounds[0])?;
    let ty = made_variable(alloc, simple, bound)?;
    Ok(ty)
}

/// A type parameter as a variable with its first bound.
#[cycle(resolving)]
#[tactic(auto, using(pj_names::proofs::AskingLaws::asking_steps))]
fn variable<O: Oracle>(
    alloc: Global,
    stage: &Stage<'_, '_>,
    oracle: &mut O,
    entered: &mut Entered,
    parameter: Node,
    simple: &str,
) -> Result<Ty, AskFault>
    requires bounds { stage.now.bounds ≤ 1 }
    requires inside { parameter.0 < length stage.now.file.now.nodes }
    ensures { Asks (resolution.variable stage.now.file.now stage.now.left stage.now.busy.now stage.now.bounds simple.now parameter) (O.tells oracle.old) (O.tells oracle.new) (seen java_type result) }
{
    let bounds = bounds_of(alloc, stage.file.tree(), parameter)?;
    variable_by(alloc, stage, oracle, entered, bounds.as_slice(), simple)
}

/// The type that a declaration of the file has as a simple name.
#[cycle(resolving)]
#[tactic(auto, using(pj_names::proofs::AskingLaws::asking_steps))]
fn declared_type<O: Oracle>(
    alloc: Global,
    stage: &Stage<'_, '_>,
    oracle: &mut O,
    entered: &mut Entered,
    n: Node,
    simple: &str,
) -> Result<Ty, AskFault>
    requires bounds { stage.now.bounds ≤ 1 }
    requires inside { n.0 < length stage.now.file.now.nodes }
    ensures { Asks (resolution.declared_type stage.now.file.now stage.now.left stage.now.busy.now stage.now.bounds simple.now n) (O.tells oracle.old) (O.tells oracle.new) (seen java_type result) }
{
    if names_type_parameter(stage.file.tree(), n) {
        return variable(alloc, stage, oracle, entered, n, simple);
    }
    let ty = class_of_text(alloc, stage.file.class_text(n))?;
    Ok(ty)
}

/// The type of what the file declares, and what stands behind its scopes where it declares none.
#[cycle(resolving)]
#[tactic(auto, using(pj_names::proofs::AskingLaws::asking_steps))]
fn declared_or<O: Oracle>(
    alloc: Global,
    stage: &Stage<'_, '_>,
    oracle: &mut O,
    entered: &mut Entered,
    simple: &str,
    found: Option<Declared>,
) -> Result<Ty, AskFault>
    requires bounds { stage.now.bounds ≤ 1 }
    requires found { IfSome found (λ d. d.node.0 < length stage.now.file.now.nodes) }
    ensures { Asks (resolution.declared_or stage.now.file.now stage.now.left stage.now.busy.now stage.now.bounds simple.now found) (O.tells oracle.old) (O.tells oracle.new) (seen java_type result) }
{
    match found {
        Some(found) => declared_type(alloc, stage, oracle, entered, found.node, simple),
        None => outside(alloc, stage.file, oracle, simple),
    }
}

/// What a simple name means at a place, where the file declares what was found: what is inherited further in goes before it.
#[cycle(resolving)]
#[tactic(auto, using(pj_names::proofs::AskingLaws::asking_steps))]
fn found_or<O: Oracle>(
    alloc: Global,
    stage: &Stage<'_, '_>,
    oracle: &mut O,
    entered: &mut Entered,
    place: Node,
    simple: &str,
    found: Option<Declared>,
) -> Result<Ty, AskFault>
    requires bounds { stage.now.bounds ≤ 1 }
    requires inside { place.0 < length stage.now.file.now.nodes }
    requires found { IfSome found (λ d. d.node.0 < length stage.now.file.now.nodes) }
    ensures { Asks (resolution.found_or stage.now.file.now stage.now.left stage.now.busy.now stage.now.bounds place simple.now found) (O.tells oracle.old) (O.tells oracle.new) (seen java_type result) }
{
    let hit = first_inherited(alloc, stage, oracle, entered, place, simple, found)?;
    match hit {
        Some(hit) => Ok(Ty::Class(hit, Types::End)),
        None => declared_or(alloc, stage, oracle, entered, simple, found),
    }
}

/// What a simple name means at a place.
#[cycle(resolving)]
#[tactic(auto, using(pj_names::proofs::AskingLaws::asking_steps))]
fn simple_name<O: Oracle>(
    alloc: Global,
    stage: &Stage<'_, '_>,
    oracle: &mut O,
    entered: &mut Entered,
    place: Node,
    simple: &str,
) -> Result<Ty, AskFault>
    requires bounds { stage.now.bounds ≤ 1 }
    requires inside { place.0 < length stage.now.file.now.nodes }
    ensures { Asks (resolution.simple_name stage.now.file.now stage.now.left stage.now.busy.now stage.now.bounds place simple.now) (O.tells oracle.old) (O.tells oracle.new) (seen java_type result) }
{
    match ClassName::of(alloc, simple)? {
        Some(_name) => {
            let found = type_meant(stage.file, simple, place);
            found_or(alloc, stage, oracle, entered, place, simple, found)
        }
        None => Ok(Ty::Unknown),
    }
}

/// The first member class that one of the classes around a place inherits, of those that stand further in than what was found.
#[cycle(resolving)]
#[tactic(auto, using(pj_names::proofs::AskingLaws::asking_steps))]
fn first_inherited<O: Oracle>(
    alloc: Global,
    stage: &Stage<'_, '_>,
    oracle: &mut O,
    entered: &mut Entered,
    place: Node,
    simple: &str,
    found: Option<Declared>,
) -> Result<Option<ClassName>, AskFault>
    requires inside { place.0 < length stage.now.file.now.nodes }
    ensures { Asks (first_hit (resolution.inherited stage.now.file.now stage.now.left stage.now.busy.now simple.now) (searched stage.now.file.now place found)) (O.tells oracle.old) (O.tells oracle.new) result }
{
    let mut inside = place;
    while let Some(class) = next_searched(stage.file.tree(), found, inside) {
        let hit = inherited(alloc, stage, oracle, entered, class, simple)?;
        if let Some(hit) = hit {
            return Ok(Some(hit));
        }
        inside = class;
    }
    Ok(None)
}

/// The class of a name with a package, by its candidates.
#[tactic(auto, using(pj_names::proofs::AskingLaws::asking_steps))]
fn packaged_class<O: Oracle>(
    alloc: Global,
    file: &File<'_>,
    oracle: &mut O,
    parts: &Names,
) -> Result<Ty, AskFault>
    ensures { Asks (packaged (file_classes file.now) parts.now) (O.tells oracle.old) (O.tells oracle.new) (seen java_type result) }
{
    let text = with_dots(alloc, parts)?;
    match dotted_class(alloc, file, oracle, text.as_str())? {
        Some(class) => Ok(Ty::Class(class, Types::End)),
        None => Ok(Ty::Unknown),
    }
}

/// The class of a name with dots, without arguments.
#[cycle(resolving)]
#[tactic(auto, using(pj_names::proofs::AskingLaws::asking_steps))]
fn class_of<O: Oracle>(
    alloc: Global,
    stage: &Stage<'_, '_>,
    oracle: &mut O,
    entered: &mut Entered,
    name: &Written,
) -> Result<Ty, AskFault>
    requires bounds { stage.now.bounds ≤ 1 }
    requires inside { name.now.at.0 < length stage.now.file.now.nodes }
    ensures { Asks (resolution.class_of stage.now.file.now stage.now.left stage.now.busy.now stage.now.bounds name.now) (O.tells oracle.old) (O.tells oracle.new) (seen java_type result) }
{
    if name.has_package {
        return packaged_class(alloc, stage.file, oracle, &name.parts);
    }
    class_along(
        alloc,
        stage,
        oracle,
        entered,
        name.at,
        name.parts.as_slice(),
    )
}

/// The class of the parts of a name: the first is a simple name, and each further one a member class.
#[cycle(resolving)]
#[tactic(auto, using(pj_names::proofs::AskingLaws::asking_steps))]
fn class_along<O: Oracle>(
    alloc: Global,
    stage: &Stage<'_, '_>,
    oracle: &mut O,
    entered: &mut Entered,
    place: Node,
    parts: &[Text],
) -> Result<Ty, AskFault>
    requires bounds { stage.now.bounds ≤ 1 }
    requires inside { place.0 < length stage.now.file.now.nodes }
    ensures { Asks (resolution.class_along stage.now.file.now stage.now.left stage.now.busy.now stage.now.bounds place parts.now) (O.tells oracle.old) (O.tells oracle.new) (seen java_type result) }
{
    if parts.is_empty() {
        return Ok(Ty::Unknown);
    }
    let ty = simple_name(alloc, stage, oracle, entered, place, parts[0].as_str())?;
    members_along(alloc, stage, oracle, entered, ty, &parts[1..])
}

/// The member class of a type that the further parts of a name lead to.
#[cycle(resolving)]
#[tactic(auto, using(pj_names::proofs::AskingLaws::asking_loops))]
fn members_along<O: Oracle>(
    alloc: Global,
    stage: &Stage<'_, '_>,
    oracle: &mut O,
    entered: &mut Entered,
    ty: Ty,
    parts: &[Text],
) -> Result<Ty, AskFault>
    ensures { Asks (resolution.members_along stage.now.file.now stage.now.left stage.now.busy.now stage.now.bounds (java_type ty) parts.now) (O.tells oracle.old) (O.tells oracle.new) (seen java_type result) }
{
    let mut ty = ty;
    for part in parts {
        ty = member_of(alloc, stage, oracle, entered, ty, part.as_str())?;
    }
    Ok(ty)
}

/// The member class of a type: of an unknown type and of a type variable none is known.
#[cycle(resolving)]
#[tactic(auto, using(pj_names::proofs::AskingLaws::asking_steps))]
fn member_of<O: Oracle>(
    alloc: Global,
    stage: &Stage<'_, '_>,
    oracle: &mut O,
    entered: &mut Entered,
    ty: Ty,
    simple: &str,
) -> Result<Ty, AskFault>
    ensures { Asks (resolution.member_of stage.now.file.now stage.now.left stage.now.busy.now stage.now.bounds (java_type ty) simple.now) (O.tells oracle.old) (O.tells oracle.new) (seen java_type result) }
{
    match ty {
        Ty::Class(outer, _) => member_type(alloc, stage, oracle, entered, &outer, simple),
        _ => Ok(Ty::Unknown),
    }
}

/// What type arguments stand for, one after the other.
#[cycle(resolving)]
#[tactic(auto, using(pj_names::proofs::AskingLaws::asking_loops))]
fn argument_types<O: Oracle>(
    alloc: Global,
    stage: &Stage<'_, '_>,
    oracle: &mut O,
    entered: &mut Entered,
    deep: u32,
    list: &[Node],
) -> Result<TyList, AskFault>
    requires bounds { stage.now.bounds ≤ 1 }
    requires deep { deep ≤ 255 }
    requires inside { All (λ (n : Node). n.0 < length stage.now.file.now.nodes) list.now }
    ensures { Asks (each (resolution.argument stage.now.file.now stage.now.left stage.now.busy.now stage.now.bounds deep) list.now) (O.tells oracle.old) (O.tells oracle.new) (seen type_list result) }
{
    let mut types = TyList::new(alloc);
    for n in list {
        let ty = argument(alloc, stage, oracle, entered, deep, *n)?;
        types.push(ty)?;
    }
    Ok(types)
}

/// The type arguments of a list, from left to right.
#[cycle(resolving)]
#[tactic(auto, using(pj_names::proofs::AskingLaws::asking_steps))]
fn listed_arguments<O: Oracle>(
    alloc: Global,
    stage: &Stage<'_, '_>,
    oracle: &mut O,
    entered: &mut Entered,
    deep: u32,
    list: &[Node],
) -> Result<Types, AskFault>
    requires bounds { stage.now.bounds ≤ 1 }
    requires deep { deep ≤ 255 }
    requires inside { All (λ (n : Node). n.0 < length stage.now.file.now.nodes) list.now }
    ensures { Asks (resolution.arguments stage.now.file.now stage.now.left stage.now.busy.now stage.now.bounds deep list.now) (O.tells oracle.old) (O.tells oracle.new) (seen java_types result) }
{
    if stage.nested >= MOST_NESTED {
        return Err(AskFault::Memory);
    }
    let within = stage.within_list();
    let types = argument_types(alloc, &within, oracle, entered, deep, list)?;
    let arguments = arguments_of(alloc, types)?;
    Ok(arguments)
}

/// The type arguments of a class type.
#[cycle(resolving)]
#[tactic(auto, using(pj_names::proofs::AskingLaws::asking_steps))]
fn arguments<O: Oracle>(
    alloc: Global,
    stage: &Stage<'_, '_>,
    oracle: &mut O,
    entered: &mut Entered,
    deep: u32,
    n: Node,
) -> Result<Types, AskFault>
    requires bounds { stage.now.bounds ≤ 1 }
    requires deep { deep ≤ 255 }
    requires inside { n.0 < length stage.now.file.now.nodes }
    ensures { Asks (resolution.own_arguments stage.now.file.now stage.now.left stage.now.busy.now stage.now.bounds deep n) (O.tells oracle.old) (O.tells oracle.new) (seen java_types result) }
{
    let list = below_child(alloc, stage.file.tree(), n, Kind::TypeArguments)?;
    listed_arguments(alloc, stage, oracle, entered, deep, list.as_slice())
}

/// A type argument, where at most so many lists of arguments stand in one another.
#[cycle(resolving)]
#[tactic(auto, using(pj_names::proofs::AskingLaws::asking_steps))]
fn argument<O: Oracle>(
    alloc: Global,
    stage: &Stage<'_, '_>,
    oracle: &mut O,
    entered: &mut Entered,
    deep: u32,
    n: Node,
) -> Result<Ty, AskFault>
    requires bounds { stage.now.bounds ≤ 1 }
    requires deep { deep ≤ 255 }
    requires inside { n.0 < length stage.now.file.now.nodes }
    ensures { Asks (resolution.argument stage.now.file.now stage.now.left stage.now.busy.now stage.now.bounds deep n) (O.tells oracle.old) (O.tells oracle.new) (seen java_type result) }
{
    if deep == 0 {
        return Ok(Ty::Unknown);
    }
    argument_by(alloc, stage, oracle, entered, deep - 1, n)
}

/// A type argument: `? extends X` is X, and `?` and `? super X` are `java.lang.Object`.
#[cycle(resolving)]
#[tactic(auto, using(pj_names::proofs::AskingLaws::asking_steps))]
fn argument_by<O: Oracle>(
    alloc: Global,
    stage: &Stage<'_, '_>,
    oracle: &mut O,
    entered: &mut Entered,
    deep: u32,
    n: Node,
) -> Result<Ty, AskFault>
    requires bounds { stage.now.bounds ≤ 1 }
    requires deep { deep ≤ 255 }
    requires inside { n.0 < length stage.now.file.now.nodes }
    ensures { Asks (resolution.argument_by stage.now.file.now stage.now.left stage.now.busy.now stage.now.bounds deep n) (O.tells oracle.old) (O.tells oracle.new) (seen java_type result) }
{
    let tree = stage.file.tree();
    if !is_kind(tree, Kind::WildcardType, n) {
        return type_by(alloc, stage, oracle, entered, deep, n);
    }
    if !has_word(tree, n, "extends") {
        let object = object_type(alloc)?;
        return Ok(object);
    }
    match last_child(tree, n) {
        Some(bound) => type_by(alloc, stage, oracle, entered, deep, bound),
        None => Ok(Ty::Unknown),
    }
}

/// The class that a class type names, without arguments.
#[cycle(resolving)]
#[tactic(auto, using(pj_names::proofs::AskingLaws::asking_steps))]
fn class_written<O: Oracle>(
    alloc: Global,
    stage: &Stage<'_, '_>,
    oracle: &mut O,
    entered: &mut Entered,
    n: Node,
) -> Result<Ty, AskFault>
    requires bounds { stage.now.bounds ≤ 1 }
    requires inside { n.0 < length stage.now.file.now.nodes }
    ensures { Asks (resolution.class_written stage.now.file.now stage.now.left stage.now.busy.now stage.now.bounds n) (O.tells oracle.old) (O.tells oracle.new) (seen java_type result) }
{
    let name = name_written(alloc, stage.file.tree(), n)?;
    class_of(alloc, stage, oracle, entered, &name)
}

/// A type with the arguments of a class type: where it is not known, or is a type variable, they are not resolved.
#[cycle(resolving)]
#[tactic(auto, using(pj_names::proofs::AskingLaws::asking_steps))]
fn with_arguments<O: Oracle>(
    alloc: Global,
    stage: &Stage<'_, '_>,
    oracle: &mut O,
    entered: &mut Entered,
    deep: u32,
    n: Node,
    ty: Ty,
) -> Result<Ty, AskFault>
    requires bounds { stage.now.bounds ≤ 1 }
    requires deep { deep ≤ 255 }
    requires inside { n.0 < length stage.now.file.now.nodes }
    ensures { Asks (resolution.with_arguments stage.now.file.now stage.now.left stage.now.busy.now stage.now.bounds deep n (java_type ty)) (O.tells oracle.old) (O.tells oracle.new) (seen java_type result) }
{
    match ty {
        Ty::Class(class, _) => {
            let arguments = arguments(alloc, stage, oracle, entered, deep, n)?;
            Ok(Ty::Class(class, arguments))
        }
        other => Ok(other),
    }
}

/// A class with its arguments.
#[cycle(resolving)]
#[tactic(auto, using(pj_names::proofs::AskingLaws::asking_steps))]
fn class_type<O: Oracle>(
    alloc: Global,
    stage: &Stage<'_, '_>,
    oracle: &mut O,
    entered: &mut Entered,
    deep: u32,
    n: Node,
) -> Result<Ty, AskFault>
    requires bounds { stage.now.bounds ≤ 1 }
    requires deep { deep ≤ 255 }
    requires inside { n.0 < length stage.now.file.now.nodes }
    ensures { Asks (resolution.class_type stage.now.file.now stage.now.left stage.now.busy.now stage.now.bounds deep n) (O.tells oracle.old) (O.tells oracle.new) (seen java_type result) }
{
    let ty = class_written(alloc, stage, oracle, entered, n)?;
    with_arguments(alloc, stage, oracle, entered, deep, n, ty)
}

/// What stands before the brackets of a type, by its kind.
#[cycle(resolving)]
#[tactic(auto, using(pj_names::proofs::AskingLaws::asking_steps))]
fn bare_type<O: Oracle>(
    alloc: Global,
    stage: &Stage<'_, '_>,
    oracle: &mut O,
    entered: &mut Entered,
    deep: u32,
    n: Node,
) -> Result<Ty, AskFault>
    requires bounds { stage.now.bounds ≤ 1 }
    requires deep { deep ≤ 255 }
    requires inside { n.0 < length stage.now.file.now.nodes }
    ensures { Asks (resolution.bare_type stage.now.file.now stage.now.left stage.now.busy.now stage.now.bounds deep n) (O.tells oracle.old) (O.tells oracle.new) (seen java_type result) }
{
    let tree = stage.file.tree();
    match tree.kind(n) {
        Kind::PrimitiveType => Ok(primitive_of(tree, n)),
        Kind::VoidType => Ok(Ty::Void),
        Kind::ClassType => class_type(alloc, stage, oracle, entered, deep, n),
        _ => Ok(Ty::Unknown),
    }
}

/// A type with its brackets, with at most so many lists of arguments in one another.
#[cycle(resolving)]
#[tactic(auto, using(pj_names::proofs::AskingLaws::asking_steps))]
fn type_by<O: Oracle>(
    alloc: Global,
    stage: &Stage<'_, '_>,
    oracle: &mut O,
    entered: &mut Entered,
    deep: u32,
    n: Node,
) -> Result<Ty, AskFault>
    requires bounds { stage.now.bounds ≤ 1 }
    requires deep { deep ≤ 255 }
    requires inside { n.0 < length stage.now.file.now.nodes }
    ensures { Asks (resolution.type_by stage.now.file.now stage.now.left stage.now.busy.now stage.now.bounds deep n) (O.tells oracle.old) (O.tells oracle.new) (seen java_type result) }
{
    let tree = stage.file.tree();
    let member = bare_type(alloc, stage, oracle, entered, deep, bare(tree, n))?;
    let ty = arrays(alloc, brackets(tree, n), member)?;
    Ok(ty)
}

/// The type that is written in a node, with so many signs of a signature open around it, and so many pairs of brackets behind. One
/// past the bounds of signatures is not known, as a whole.
#[cycle(resolving)]
#[tactic(auto, using(pj_names::proofs::AskingLaws::asking_steps))]
fn type_written<O: Oracle>(
    alloc: Global,
    stage: &Stage<'_, '_>,
    oracle: &mut O,
    entered: &mut Entered,
    around: u32,
    behind: u32,
    n: Node,
) -> Result<Ty, AskFault>
    requires bounds { stage.now.bounds ≤ 1 }
    requires around { around ≤ 1 }
    requires inside { n.0 < length stage.now.file.now.nodes }
    ensures { Asks (resolution.type_written stage.now.file.now stage.now.left stage.now.busy.now stage.now.bounds around behind n) (O.tells oracle.old) (O.tells oracle.new) (seen java_type result) }
{
    if !fits_behind(stage.file.tree(), around, behind, n) {
        return Ok(Ty::Unknown);
    }
    let member = type_by(alloc, stage, oracle, entered, MOST_SIGNS, n)?;
    let ty = arrays(alloc, behind, member)?;
    Ok(ty)
}

/// The class of a text at a place, where the text is a name of a class. There no header is being resolved.
#[tactic(auto, using(pj_names::proofs::AskingLaws::asking_steps))]
fn class_at<O: Oracle>(
    alloc: Global,
    file: &File<'_>,
    oracle: &mut O,
    place: Node,
    text: &str,
) -> Result<Ty, AskFault>
    requires inside { place.0 < length file.now.nodes }
    ensures { Asks (resolution.class_of file.now (enough file.now) [] 1 (name_of_text place text.now)) (O.tells oracle.old) (O.tells oracle.new) (seen java_type result) }
{
    let name = name_of_text(alloc, place, text)?;
    let busy = Numbers::new(alloc);
    let stage = Stage {
        file,
        left: enough(file),
        busy: &busy,
        bounds: 1,
        nested: 0,
    };
    class_of(alloc, &stage, oracle, &mut Entered { headers: 0 }, &name)
}

/// The type that a name means at a place: a simple name or one with dots.
#[tactic(auto, using(pj_names::proofs::AskingLaws::asking_steps))]
pub fn type_name<O: Oracle>(
    alloc: Global,
    file: &File<'_>,
    oracle: &mut O,
    place: Node,
    text: &str,
) -> Result<Ty, AskFault>
    requires inside { place.0 < length file.now.nodes }
    ensures { Asks (type_name file.now place text.now) (O.tells oracle.old) (O.tells oracle.new) (seen java_type result) }
{
    match ClassName::of(alloc, text)? {
        Some(_name) => class_at(alloc, file, oracle, place, text),
        None => Ok(Ty::Unknown),
    }
}

/// The type that is written in a node, where the headers of some classes are being resolved, with so many brackets behind the
/// name that it is the type of.
#[tactic(auto, using(pj_names::proofs::AskingLaws::asking_steps))]
pub fn written_type<O: Oracle>(
    alloc: Global,
    file: &File<'_>,
    oracle: &mut O,
    busy: &Numbers,
    behind: u32,
    n: Node,
) -> Result<Ty, AskFault>
    requires inside { n.0 < length file.now.nodes }
    ensures { Asks (written_type file.now busy.now behind n) (O.tells oracle.old) (O.tells oracle.new) (seen java_type result) }
{
    let stage = Stage {
        file,
        left: enough(file),
        busy,
        bounds: 1,
        nested: 0,
    };
    type_written(
        alloc,
        &stage,
        oracle,
        &mut Entered { headers: 0 },
        0,
        behind,
        n,
    )
}

/// A bound of a type parameter, where the headers of some classes are being resolved.
#[tactic(auto, using(pj_names::proofs::AskingLaws::asking_steps))]
pub fn written_bound<O: Oracle>(
    alloc: Global,
    file: &File<'_>,
    oracle: &mut O,
    busy: &Numbers,
    n: Node,
) -> Result<Ty, AskFault>
    requires inside { n.0 < length file.now.nodes }
    ensures { Asks (written_bound file.now busy.now n) (O.tells oracle.old) (O.tells oracle.new) (seen java_type result) }
{
    let stage = Stage {
        file,
        left: enough(file),
        busy,
        bounds: 1,
        nested: 0,
    };
    bound_type(alloc, &stage, oracle, &mut Entered { headers: 0 }, n)
}
