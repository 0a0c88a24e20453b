//! Classes that have a name, or a class above them does.
ghost use Rattle.pj_names.specs.Told.{Asks};
ghost use Rattle.pj_type_tests.specs.Types.{class_is};

use crate::names::is_name_of;
use pj_names::{AskFault, ClassName, Oracle};
use pj_types::{NameWalk, direct_names};
use std::alloc::Global;

/// The most classes that a walk is followed: a list has no more members.
const MOST_CLASSES: u64 = 4294967294;

/// Whether a class or one of its supertypes (JLS 4.10.2) has the name. It is looked for along the list of supertypes, by names alone.
pub(crate) fn class_is<O: Oracle>(
    alloc: Global,
    oracle: &mut O,
    lower: &ClassName,
    text: &str,
) -> Result<bool, AskFault>
    ensures { Asks (class_is text.now lower.now) (O.tells oracle.old) (O.tells oracle.new) result }
{
    let mut walk = NameWalk::of(alloc, lower)?;
    for _class in 0..MOST_CLASSES {
        let Some(class) = walk.next_class()? else {
            return Ok(false);
        };
        if is_name_of(&class, text) {
            return Ok(true);
        }
        let more = direct_names(alloc, oracle, &class)?;
        walk.put(more)?;
    }
    Err(AskFault::Memory)
}
