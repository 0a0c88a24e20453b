//! Names of variables, over the oracle of a file.

ghost use Rattle.std.specs.Prelude.{◌≡◌, ◌<◌, IfOk, IfSome, length};
ghost use Rattle.pj_names.specs.Expand.{expand};
ghost use Rattle.pj_names.specs.Told.{Asks, seen};
ghost use Rattle.pj_file_oracle.specs.FileAnswer.{file_answer};
ghost use Rattle.pj_scopes.specs.Seen.{IsInside, seen_variable};
ghost use Rattle.pj_scopes.specs.VariableName.{variable_name};

use crate::{Variable, variable_name};
use pj_file_oracle::FileOracle;
use pj_names::{AskFault, Oracle};
use pj_tree::Node;

/// The variable that a simple name means at a place of the file (JLS 6.3, 6.4.1, 6.5.6.1), and `None` exactly where it means none.
///
/// It asks the oracle beneath for what the classes of the file need that the search asks, and for the other classes of their lists of supertypes
/// and of static imports. After a refusal none but these was asked. The oracle of the file stays as it is.
pub fn resolve_name<O: Oracle>(
    oracle: &mut FileOracle<'_, '_, O>,
    at: Node,
    name: &str,
) -> Result<Option<Variable>, AskFault>
    requires inside { at.0 < length oracle.old.file.now.nodes }
    ensures asks { Asks (expand (file_answer oracle.old.file.now) (variable_name oracle.old.file.now at name.now)) (O.tells oracle.old.inner.now) (O.tells oracle.new.inner.now) (seen seen_variable result) }
    ensures inside { IfOk result (λ variable. IfSome variable (IsInside (length oracle.old.file.now.nodes))) }
    ensures file { oracle.new.file.now ≡ oracle.old.file.now }
    ensures held { oracle.new.inner.ghost_name ≡ oracle.old.inner.ghost_name }
    ensures same_table { oracle.new.held.ghost_name ≡ oracle.old.held.ghost_name }
{
    let file = oracle.file;
    variable_name(oracle.alloc, file, oracle, at, name)
}
