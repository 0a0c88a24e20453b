//! The names of the direct supertypes of a class.
ghost use Rattle.std.specs.Prelude.{◌≡◌, IfOk, map};
ghost use Rattle.pj_names.specs.Told.{Asks, known_answer};
ghost use Rattle.pj_types.specs.NameSearch.{direct_names, names_of_known};
ghost use Rattle.pj_types.specs.Seen.{all_listed};
ghost use Rattle.pj_types.specs.Supertypes.{name_of};

use crate::listed::{ListedClasses, of_answer};
use pj_base::{Copied, NoMemory};
use pj_names::{Answer, AskFault, ClassName, ClassNames, Oracle, look_up};
use std::alloc::Global;
use std::sync::Arc;

/// The names of classes, in their order.
fn names_of(alloc: Global, classes: &ListedClasses) -> Result<ClassNames, NoMemory>
    ensures { IfOk result (λ names. names ≡ map name_of (all_listed classes.now)) }
{
    let mut names = ClassNames::new(alloc);
    for class in classes.as_slice() {
        names.push(class.name.copied()?)?;
    }
    Ok(names)
}

/// The names of the direct supertypes of a class, from what is known of it.
fn names_of_known(alloc: Global, known: &Option<Arc<Answer>>) -> Result<ClassNames, NoMemory>
    ensures { IfOk result (λ names. names ≡ names_of_known (known_answer known.now)) }
{
    let Some(answer) = known else {
        return Ok(ClassNames::new(alloc));
    };
    let classes = of_answer(alloc, &None, answer)?;
    names_of(alloc, &classes)
}

/// The names of the direct supertypes of a class: its superclass, then its interfaces (JLS 8.1.4, 8.1.5, 9.1.3). The class is
/// asked, unless it is `java.lang.Object`, which has none.
#[tactic(auto, using(pj_names::proofs::AskingLaws::asking_steps))]
pub fn direct_names<O: Oracle>(
    alloc: Global,
    oracle: &mut O,
    name: &ClassName,
) -> Result<ClassNames, AskFault>
    ensures { Asks (direct_names name.now) (O.tells oracle.old) (O.tells oracle.new) result }
{
    let known = look_up(oracle, name)?;
    let names = names_of_known(alloc, &known)?;
    Ok(names)
}
