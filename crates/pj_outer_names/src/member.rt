//! The member class that a class on a list of supertypes has.

ghost use Rattle.std.specs.Prelude.{◌≡◌, ◌||◌};
ghost use Rattle.pj_names.specs.ClassName.{is_object};
ghost use Rattle.pj_names.specs.Told.{Asks};
ghost use Rattle.pj_outer_names.specs.Candidates.{file_classes};
ghost use Rattle.pj_outer_names.specs.Inherited.{member_in};
ghost use Rattle.pj_outer_names.specs.NameWalks.{left_out};

use crate::{File, found_class};
use pj_names::{AskFault, ClassName, Oracle};
use pj_written::member_name;
use std::alloc::Global;

/// Whether a class is the one that a walk begins with, and that one is left out.
fn is_left_out(own_counts: bool, class: &ClassName, next: &ClassName) -> bool
    ensures { result ≡ left_out own_counts class.now next.now }
{
    !own_counts && class == next
}

/// Whether no member class of a class is looked for: it is `java.lang.Object`, or is left out.
fn is_passed_over(own_counts: bool, class: &ClassName, next: &ClassName) -> bool
    ensures { result ≡ (is_object next.now || left_out own_counts class.now next.now) }
{
    next.is_object() || is_left_out(own_counts, class, next)
}

/// The member class `next$simple`, if it is there, where a walk that began with `class` gave `next`. Of `java.lang.Object` none is
/// looked for, nor of the class that the walk began with where its own members do not count.
#[tactic(auto, using(pj_names::proofs::AskingLaws::asking_steps))]
pub fn member_in<O: Oracle>(
    alloc: Global,
    file: &File<'_>,
    oracle: &mut O,
    own_counts: bool,
    class: &ClassName,
    simple: &str,
    next: &ClassName,
) -> Result<Option<ClassName>, AskFault>
    ensures { Asks (member_in (file_classes file.now) (left_out own_counts class.now) simple.now next.now) (O.tells oracle.old) (O.tells oracle.new) result }
{
    if is_passed_over(own_counts, class, next) {
        return Ok(None);
    }
    let text = member_name(alloc, next.as_str(), simple)?;
    found_class(alloc, file, oracle, text.as_str())
}
