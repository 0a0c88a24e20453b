//! The class of a dotted name.

ghost use Rattle.std.specs.Prelude.{◌≡◌};
ghost use Rattle.pj_names.specs.Told.{Asks};
ghost use Rattle.pj_outer_names.specs.Candidates.{asked_class, dotted_class, file_classes, first_candidate, found_class, is_known, is_there};

use crate::file::File;
use pj_base::Text;
use pj_names::{Answer, AskFault, ClassName, Oracle};
use pj_written::next_candidate;
use std::alloc::Global;

/// Whether what is answered is a class, found or broken.
fn is_there(answer: &Answer) -> bool
    ensures { result ≡ is_there answer.now }
{
    match answer {
        Answer::Found(_) | Answer::Broken(_) => true,
        Answer::Absent => false,
    }
}

/// Whether a class is known without asking: `java.lang.Object`, and those of the file.
fn is_known(file: &File<'_>, name: &ClassName) -> bool
    ensures { result ≡ is_known (file_classes file.now) name.now }
{
    name.is_object() || file.class_named(name.as_str()).is_some()
}

/// The class of a name outside the file, if it is there.
#[tactic(auto, using(pj_names::proofs::AskingLaws::asking_steps))]
fn asked_class<O: Oracle>(oracle: &mut O, name: ClassName) -> Result<Option<ClassName>, AskFault>
    ensures { Asks (asked_class name) (O.tells oracle.old) (O.tells oracle.new) result }
{
    let answer = oracle.ask(&name)?;
    let found = if is_there(&answer) { Some(name) } else { None };
    Ok(found)
}

/// The class of a text, if it is there. A class of the file is never asked, nor is `java.lang.Object`.
#[tactic(auto, using(pj_names::proofs::AskingLaws::asking_steps))]
pub fn found_class<O: Oracle>(
    alloc: Global,
    file: &File<'_>,
    oracle: &mut O,
    text: &str,
) -> Result<Option<ClassName>, AskFault>
    ensures { Asks (found_class (file_classes file.now) text.now) (O.tells oracle.old) (O.tells oracle.new) result }
{
    let Some(name) = ClassName::of(alloc, text)? else {
        return Ok(None);
    };
    if is_known(file, &name) {
        return Ok(Some(name));
    }
    asked_class(oracle, name)
}

/// The first candidate of a dotted name that is there.
#[tactic(auto, using(pj_names::proofs::AskingLaws::asking_loops))]
pub fn first_candidate<O: Oracle>(
    alloc: Global,
    file: &File<'_>,
    oracle: &mut O,
    text: &str,
) -> Result<Option<ClassName>, AskFault>
    ensures { Asks (first_candidate (file_classes file.now) text.now) (O.tells oracle.old) (O.tells oracle.new) result }
{
    let mut candidate = Text::from_str(alloc, text)?;
    for _dot in 0..text.len() + 1 {
        let hit = found_class(alloc, file, oracle, candidate.as_str())?;
        if let Some(found) = hit {
            return Ok(Some(found));
        }
        let Some(next) = next_candidate(alloc, candidate.as_str())? else {
            return Ok(None);
        };
        candidate = next;
    }
    Ok(None)
}

/// The class of a dotted name: the first candidate that is there, and else the name as it is written. A text that is no name
/// of a class has none.
#[tactic(auto, using(pj_names::proofs::AskingLaws::asking_steps))]
pub fn dotted_class<O: Oracle>(
    alloc: Global,
    file: &File<'_>,
    oracle: &mut O,
    text: &str,
) -> Result<Option<ClassName>, AskFault>
    ensures { Asks (dotted_class (file_classes file.now) text.now) (O.tells oracle.old) (O.tells oracle.new) result }
{
    let Some(written) = ClassName::of(alloc, text)? else {
        return Ok(None);
    };
    match first_candidate(alloc, file, oracle, text)? {
        Some(found) => Ok(Some(found)),
        None => Ok(Some(written)),
    }
}
