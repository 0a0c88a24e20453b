//! The candidates of a method call without a receiver (JLS 15.12.1): those of the first class that has a method of the name.

ghost use Rattle.std.specs.Prelude.{◌≡◌, ◌<◌, length};
ghost use Rattle.std.specs.List.{All};
ghost use Rattle.pj_names.specs.Asking.{first_hit};
ghost use Rattle.pj_names.specs.Told.{Asks, seen};
ghost use Rattle.pj_calls.specs.Candidates.{around, imported, of_around, of_import, unqualified};
ghost use Rattle.pj_calls.specs.Seen.{seen_candidates};

use crate::candidates::{Candidates, of_class};
use pj_names::{AskFault, ClassName, Oracle};
use pj_outer_names::{File, dotted_class, next_searched};
use pj_scopes::{imported_class, static_imports};
use pj_tree::Node;
use std::alloc::Global;

/// The candidates of a class around.
#[tactic(auto, using(pj_names::proofs::AskingLaws::asking_steps))]
fn of_around<O: Oracle>(
    alloc: Global,
    file: &File<'_>,
    oracle: &mut O,
    name: &str,
    class: Node,
) -> Result<Option<Candidates>, AskFault>
    ensures { Asks (of_around file.now name.now class) (O.tells oracle.old) (O.tells oracle.new) (seen seen_candidates result) }
{
    let Some(class) = ClassName::of(alloc, file.class_text(class))? else {
        return Ok(None);
    };
    of_class(alloc, oracle, name, class)
}

/// Those of the first class around that has a method of the name, from the innermost one outwards.
#[tactic(auto, using(pj_names::proofs::AskingLaws::asking_steps))]
fn around<O: Oracle>(
    alloc: Global,
    file: &File<'_>,
    oracle: &mut O,
    name: &str,
    n: Node,
) -> Result<Option<Candidates>, AskFault>
    requires inside { n.0 < length file.now.nodes }
    ensures { Asks (around file.now name.now n) (O.tells oracle.old) (O.tells oracle.new) (seen seen_candidates result) }
{
    let mut inside = n;
    while let Some(class) = next_searched(file.tree(), None, inside) {
        let hit = of_around(alloc, file, oracle, name, class)?;
        if let Some(found) = hit {
            return Ok(Some(found));
        }
        inside = class;
    }
    Ok(None)
}

/// The candidates of the class that a static import names.
#[tactic(auto, using(pj_names::proofs::AskingLaws::asking_steps))]
fn of_import<O: Oracle>(
    alloc: Global,
    file: &File<'_>,
    oracle: &mut O,
    name: &str,
    import: Node,
) -> Result<Option<Candidates>, AskFault>
    requires inside { import.0 < length file.now.nodes }
    ensures { Asks (of_import file.now name.now import) (O.tells oracle.old) (O.tells oracle.new) (seen seen_candidates result) }
{
    let text = imported_class(alloc, file.tree(), import)?;
    let class = dotted_class(alloc, file, oracle, text.as_str())?;
    match class {
        Some(class) => of_class(alloc, oracle, name, class),
        None => Ok(None),
    }
}

/// Those of the first of some imports whose class has a method of the name.
#[tactic(auto, using(pj_names::proofs::AskingLaws::asking_loops))]
fn by_each<O: Oracle>(
    alloc: Global,
    file: &File<'_>,
    oracle: &mut O,
    name: &str,
    imports: &[Node],
) -> Result<Option<Candidates>, AskFault>
    requires inside { All (λ (m : Node). m.0 < length file.now.nodes) imports.now }
    ensures { Asks (first_hit (of_import file.now name.now) imports.now) (O.tells oracle.old) (O.tells oracle.new) (seen seen_candidates result) }
{
    for import in imports {
        let hit = of_import(alloc, file, oracle, name, *import)?;
        if let Some(found) = hit {
            return Ok(Some(found));
        }
    }
    Ok(None)
}

/// The candidates that the static imports of the file give for a name: those of the name go before those on demand.
#[tactic(auto, using(pj_names::proofs::AskingLaws::asking_steps))]
fn imported<O: Oracle>(
    alloc: Global,
    file: &File<'_>,
    oracle: &mut O,
    name: &str,
) -> Result<Option<Candidates>, AskFault>
    ensures { Asks (imported file.now name.now) (O.tells oracle.old) (O.tells oracle.new) (seen seen_candidates result) }
{
    let imports = static_imports(alloc, file.tree(), name)?;
    by_each(alloc, file, oracle, name, imports.as_slice())
}

/// The candidates of a method call without a receiver: those of a class around, and else those of a static import.
#[tactic(auto, using(pj_names::proofs::AskingLaws::asking_steps))]
pub fn unqualified<O: Oracle>(
    alloc: Global,
    file: &File<'_>,
    oracle: &mut O,
    name: &str,
    n: Node,
) -> Result<Option<Candidates>, AskFault>
    requires inside { n.0 < length file.now.nodes }
    ensures { Asks (unqualified file.now name.now n) (O.tells oracle.old) (O.tells oracle.new) (seen seen_candidates result) }
{
    let hit = around(alloc, file, oracle, name, n)?;
    match hit {
        Some(found) => Ok(Some(found)),
        None => imported(alloc, file, oracle, name),
    }
}
