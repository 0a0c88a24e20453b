//! The type of a node, over the oracle of its file.

ghost use Rattle.std.specs.Prelude.{◌≡◌, ◌<◌, length};
ghost use Rattle.pj_names.specs.Expand.{expand};
ghost use Rattle.pj_names.specs.JavaType.{java_type};
ghost use Rattle.pj_names.specs.Told.{Asks, seen};
ghost use Rattle.pj_file_oracle.specs.FileAnswer.{file_answer};
ghost use Rattle.pj_exprtypes.specs.Table.{Keeps, KeepsOver};
ghost use Rattle.pj_exprtypes.specs.TypeOf.{type_of};

use crate::held::Typed;
use crate::order::type_variables;
use crate::typing::typed;
use pj_file_oracle::FileOracle;
use pj_names::{AskFault, ClassNameSet, Oracle, Recorder, Ty};
use pj_outer_names::File;
use pj_tree::Node;
use std::alloc::Global;

/// The type of a node, behind the variables that are declared by `var` and that it is made of.
fn type_after<'r, O: Oracle>(
    alloc: Global,
    file: &File<'_>,
    oracle: &mut Recorder<'r, O>,
    types: &mut Typed,
    n: Node,
) -> Result<Ty, AskFault>
    requires inside { n.0 < length file.now.nodes }
    requires keeps { Keeps file.now (⟦<Recorder<'r, O> as Oracle>⟧.tells oracle.old) types.old.entries }
    ensures asks { Asks (type_of file.now n) (⟦<Recorder<'r, O> as Oracle>⟧.tells oracle.old) (⟦<Recorder<'r, O> as Oracle>⟧.tells oracle.new) (seen java_type result) }
    ensures keeps { Keeps file.now (⟦<Recorder<'r, O> as Oracle>⟧.tells oracle.new) types.new.entries }
{
    type_variables(alloc, file, oracle, types, n)?;
    let count = file.tree().len();
    typed(alloc, file, oracle, types, count, count + 1, n)
}

/// The same; the names that it asks are noted.
fn type_noted<O: Oracle>(
    alloc: Global,
    file: &File<'_>,
    oracle: &mut O,
    noted: &mut ClassNameSet,
    types: &mut Typed,
    n: Node,
) -> Result<Ty, AskFault>
    requires inside { n.0 < length file.now.nodes }
    requires keeps { Keeps file.now (O.tells oracle.old) types.old.entries }
    ensures asks { Asks (type_of file.now n) (O.tells oracle.old) (O.tells oracle.new) (seen java_type result) }
    ensures keeps { Keeps file.now (O.tells oracle.new) types.new.entries }
{
    let mut recorder = Recorder {
        inner: &mut *oracle,
        noted: &mut *noted,
    };
    type_after(alloc, file, &mut recorder, types, n)
}

/// The type of a node, over any oracle that answers the classes of the file too.
pub(crate) fn node_type<O: Oracle>(
    alloc: Global,
    file: &File<'_>,
    oracle: &mut O,
    types: &mut Typed,
    n: Node,
) -> Result<Ty, AskFault>
    requires inside { n.0 < length file.now.nodes }
    requires keeps { Keeps file.now (O.tells oracle.old) types.old.entries }
    ensures asks { Asks (type_of file.now n) (O.tells oracle.old) (O.tells oracle.new) (seen java_type result) }
    ensures keeps { Keeps file.now (O.tells oracle.new) types.new.entries }
{
    let mut noted = ClassNameSet::new(alloc);
    type_noted(alloc, file, oracle, &mut noted, types, n)
}

/// The type of a node of the file (JLS 15): of an expression, of a variable, and of the declaration of a class or of variables. Every other node, and what is not
/// known, is `Unknown`.
///
/// It asks the oracle beneath for what the classes of the file need that the type is made of, and for the other classes. After a refusal none but these was
/// asked. The oracle of the file stays as it is. What is held is right before and after, also after a refusal.
pub fn type_of<O: Oracle>(
    oracle: &mut FileOracle<'_, '_, O>,
    types: &mut Typed,
    n: Node,
) -> Result<Ty, AskFault>
    requires inside { n.0 < length oracle.old.file.now.nodes }
    requires keeps { KeepsOver oracle.old.file.now (O.tells oracle.old.inner.now) types.old.entries }
    ensures asks { Asks (expand (file_answer oracle.old.file.now) (type_of oracle.old.file.now n)) (O.tells oracle.old.inner.now) (O.tells oracle.new.inner.now) (seen java_type result) }
    ensures keeps { KeepsOver oracle.old.file.now (O.tells oracle.new.inner.now) types.new.entries }
    ensures file { oracle.new.file.now ≡ oracle.old.file.now }
    ensures held { oracle.new.inner.ghost_name ≡ oracle.old.inner.ghost_name }
    ensures same_table { oracle.new.held.ghost_name ≡ oracle.old.held.ghost_name }
{
    let file = oracle.file;
    node_type(oracle.alloc, file, oracle, types, n)
}
