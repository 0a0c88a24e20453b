//! The smallest call that asks: `docs/asking.md` describes how larger ones are written and proved.
ghost use Rattle.pj_names.specs.Asking.{look_up as look_up_of};
ghost use Rattle.pj_names.specs.Told.{Asks, known_answer, seen};

use crate::answer::Answer;
use crate::class_name::ClassName;
use crate::oracle::{AskFault, Oracle};
use pj_base::ListOf;
use std::sync::Arc;

/// A list of class names.
pub type ClassNames = ListOf<ClassName>;

/// The answer for a class, or `None` for `java.lang.Object`, which is known and not asked.
#[tactic(auto, using(crate::proofs::AskingLaws::asking_steps))]
pub fn look_up<O: Oracle>(oracle: &mut O, name: &ClassName) -> Result<Option<Arc<Answer>>, AskFault>
    ensures { Asks (look_up_of name.now) (O.tells oracle.old) (O.tells oracle.new) (seen known_answer result) }
{
    if name.is_object() {
        return Ok(None);
    }
    Ok(Some(oracle.ask(name)?))
}
