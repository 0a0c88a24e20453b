//! Laws of the definitions. The functions do nothing, and their contracts are the laws.
ghost use Rattle.pj_rule_sets.specs.Laws.{OneFault, SoundOrFault};

use pj_xparse::{one_answer, one_expression};
use pj_xpatterns::trees_tell_patterns;

/// Texts of a rule that can be used have no fault.
pub fn sound_or_fault()
    ensures { SoundOrFault }
{
    one_expression();
    one_answer();
    trees_tell_patterns();
}

/// Texts of a rule have one first fault at most.
pub fn one_fault()
    ensures { OneFault }
{
    one_answer();
}
