//! Fields that are inherited, and those that static imports give.

ghost use Rattle.std.specs.Prelude.{◌≡◌, ◌<◌, length};
ghost use Rattle.std.specs.List.{All};
ghost use Rattle.pj_names.specs.Asking.{first_hit};
ghost use Rattle.pj_names.specs.Told.{Asks, seen};
ghost use Rattle.pj_members.specs.Seen.{seen_field};
ghost use Rattle.pj_outer_names.specs.Around.{searched};
ghost use Rattle.pj_scopes.specs.StaticImports.{static_imports};
ghost use Rattle.pj_scopes.specs.VariableName.{field_around, imported_field};

use crate::imports::{imported_class, static_imports};
use pj_declared::Declared;
use pj_members::find_field;
use pj_names::{AskFault, ClassName, Oracle};
use pj_outer_names::{File, dotted_class, next_searched};
use pj_tree::Node;
use pj_types::Field;
use std::alloc::Global;

/// The first field of the name along the supertypes of a class around the place.
#[tactic(auto, using(pj_names::proofs::AskingLaws::asking_steps))]
fn field_around<O: Oracle>(
    alloc: Global,
    file: &File<'_>,
    oracle: &mut O,
    name: &str,
    class: Node,
) -> Result<Option<Field>, AskFault>
    ensures { Asks (field_around file.now name.now class) (O.tells oracle.old) (O.tells oracle.new) (seen seen_field result) }
{
    let Some(class) = ClassName::of(alloc, file.class_text(class))? else {
        return Ok(None);
    };
    find_field(alloc, oracle, &class, name)
}

/// The first field that one of the classes around a place has or inherits, of those that stand further in than what was found.
#[tactic(auto, using(pj_names::proofs::AskingLaws::asking_steps))]
pub fn first_inherited<O: Oracle>(
    alloc: Global,
    file: &File<'_>,
    oracle: &mut O,
    name: &str,
    place: Node,
    found: Option<Declared>,
) -> Result<Option<Field>, AskFault>
    requires inside { place.0 < length file.now.nodes }
    ensures { Asks (first_hit (field_around file.now name.now) (searched file.now place found)) (O.tells oracle.old) (O.tells oracle.new) (seen seen_field result) }
{
    let mut inside = place;
    while let Some(class) = next_searched(file.tree(), found, inside) {
        let hit = field_around(alloc, file, oracle, name, class)?;
        if let Some(field) = hit {
            return Ok(Some(field));
        }
        inside = class;
    }
    Ok(None)
}

/// The first field of the name along the supertypes of the class that an import names.
#[tactic(auto, using(pj_names::proofs::AskingLaws::asking_steps))]
fn imported_field<O: Oracle>(
    alloc: Global,
    file: &File<'_>,
    oracle: &mut O,
    name: &str,
    import: Node,
) -> Result<Option<Field>, AskFault>
    requires inside { import.0 < length file.now.nodes }
    ensures { Asks (imported_field file.now name.now import) (O.tells oracle.old) (O.tells oracle.new) (seen seen_field result) }
{
    let text = imported_class(alloc, file.tree(), import)?;
    let class = dotted_class(alloc, file, oracle, text.as_str())?;
    match class {
        Some(class) => find_field(alloc, oracle, &class, name),
        None => Ok(None),
    }
}

/// The first field that one of some imports gives.
#[tactic(auto, using(pj_names::proofs::AskingLaws::asking_loops))]
fn by_each<O: Oracle>(
    alloc: Global,
    file: &File<'_>,
    oracle: &mut O,
    name: &str,
    imports: &[Node],
) -> Result<Option<Field>, AskFault>
    requires inside { All (λ (m : Node). m.0 < length file.now.nodes) imports.now }
    ensures { Asks (first_hit (imported_field file.now name.now) imports.now) (O.tells oracle.old) (O.tells oracle.new) (seen seen_field result) }
{
    for import in imports {
        let hit = imported_field(alloc, file, oracle, name, *import)?;
        if let Some(field) = hit {
            return Ok(Some(field));
        }
    }
    Ok(None)
}

/// The field that the static imports of the file give for a name.
#[tactic(auto, using(pj_names::proofs::AskingLaws::asking_steps))]
pub fn by_static_imports<O: Oracle>(
    alloc: Global,
    file: &File<'_>,
    oracle: &mut O,
    name: &str,
) -> Result<Option<Field>, AskFault>
    ensures { Asks (first_hit (imported_field file.now name.now) (static_imports file.now name.now)) (O.tells oracle.old) (O.tells oracle.new) (seen seen_field result) }
{
    let imports = static_imports(alloc, file.tree(), name)?;
    by_each(alloc, file, oracle, name, imports.as_slice())
}
