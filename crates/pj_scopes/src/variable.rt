//! Names of variables at a place.

ghost use Rattle.std.specs.Prelude.{◌≡◌, ◌<◌, length, IfOk, IfSome, ℕ};
ghost use Rattle.std.specs.Option.{option_map};
ghost use Rattle.pj_names.specs.Told.{Asks, seen};
ghost use Rattle.pj_members.specs.Seen.{seen_field};
ghost use Rattle.pj_declared.specs.Nearest.{variable_meant};
ghost use Rattle.pj_scopes.specs.Searched.{declared_or, found_or};
ghost use Rattle.pj_scopes.specs.Seen.{IsInside, seen_variable};
ghost use Rattle.pj_scopes.specs.VariableName.{Inherited, variable_name};

use crate::fields::{by_static_imports, first_inherited};
use pj_declared::Declared;
use pj_names::{AskFault, Oracle};
use pj_outer_names::File;
use pj_tree::Node;
use pj_types::Field;
use std::alloc::Global;

/// What a simple name of a variable means at a place.
#[derive(Drop)]
pub enum Variable {
    /// A variable that the file declares: its `VariableId`. A field of a class around the place is one, an enum constant, a record component.
    Declared(Node),
    /// A field that a class around the place inherits, also from a class of the file, or that a static import gives.
    Inherited(Field),
}

/// The variable of the name that the file declares and that is in scope at the place.
fn declaration_at(file: &File<'_>, name: &str, place: Node) -> Option<Declared>
    requires inside { place.0 < length file.now.nodes }
    ensures value { result ≡ variable_meant file.now name.now place }
    ensures inside { IfSome result (λ found. found.node.0 < length file.now.nodes) }
{
    file.declarations().variable(name, place)
}

/// What a field is that was looked for along supertypes.
fn of_field(field: Option<Field>) -> Option<Variable>
    ensures value { seen_variable result ≡ option_map Inherited (seen_field field) }
    ensures inside { (count : ℕ) → IfSome result (IsInside count) }
{
    match field {
        Some(field) => Some(Variable::Inherited(field)),
        None => None,
    }
}

/// What the file declares, and else what a static import gives.
#[tactic(auto, using(pj_names::proofs::AskingLaws::asking_steps))]
fn declared_or_imported<O: Oracle>(
    alloc: Global,
    file: &File<'_>,
    oracle: &mut O,
    name: &str,
    found: Option<Declared>,
) -> Result<Option<Variable>, AskFault>
    requires found { IfSome found (λ d. d.node.0 < length file.now.nodes) }
    ensures inside { IfOk result (λ variable. IfSome variable (IsInside (length file.now.nodes))) }
    ensures asks { Asks (declared_or file.now name.now found) (O.tells oracle.old) (O.tells oracle.new) (seen seen_variable result) }
{
    if let Some(found) = found {
        return Ok(Some(Variable::Declared(found.node)));
    }
    let field = by_static_imports(alloc, file, oracle, name)?;
    Ok(of_field(field))
}

/// What a class around the place inherits that stands further in than what the file declares, and else that.
#[tactic(auto, using(pj_names::proofs::AskingLaws::asking_steps))]
fn found_or_inherited<O: Oracle>(
    alloc: Global,
    file: &File<'_>,
    oracle: &mut O,
    name: &str,
    place: Node,
    found: Option<Declared>,
) -> Result<Option<Variable>, AskFault>
    requires inside { place.0 < length file.now.nodes }
    requires found { IfSome found (λ d. d.node.0 < length file.now.nodes) }
    ensures inside { IfOk result (λ variable. IfSome variable (IsInside (length file.now.nodes))) }
    ensures asks { Asks (found_or file.now name.now place found) (O.tells oracle.old) (O.tells oracle.new) (seen seen_variable result) }
{
    let hit = first_inherited(alloc, file, oracle, name, place, found)?;
    match hit {
        Some(field) => Ok(Some(Variable::Inherited(field))),
        None => declared_or_imported(alloc, file, oracle, name, found),
    }
}

/// The variable that a simple name means at a place of the file (JLS 6.5.6.1), and `None` exactly where it means none.
///
/// The oracle answers the classes of the file too. It is asked for a class around the place where the search goes past that class's own fields,
/// and for what stands on its list of supertypes, up to the first class that has a field of the name; then for the classes of static imports.
/// What stands nearer asks nothing. After a refusal none but these was asked.
pub fn variable_name<O: Oracle>(
    alloc: Global,
    file: &File<'_>,
    oracle: &mut O,
    place: Node,
    name: &str,
) -> Result<Option<Variable>, AskFault>
    requires inside { place.0 < length file.now.nodes }
    ensures inside { IfOk result (λ variable. IfSome variable (IsInside (length file.now.nodes))) }
    ensures asks { Asks (variable_name file.now place name.now) (O.tells oracle.old) (O.tells oracle.new) (seen seen_variable result) }
{
    let found = declaration_at(file, name, place);
    found_or_inherited(alloc, file, oracle, name, place, found)
}
