//! What a door has for a name.
ghost use Rattle.std.specs.Prelude.{◌≡◌, IfOk};
ghost use Rattle.pj_outside.specs.Faults.{next_count};
ghost use Rattle.pj_outside.specs.Files.{IsAtMost};
ghost use Rattle.pj_classfile.specs.ClassOf.{AnswerOf};
ghost use Rattle.pj_table.specs.Worlds.{CountsFaults, IsAnswer};

use crate::class_finder::ClassFinder;
use pj_base::NoMemory;
use pj_classfile::answer_of;
use pj_names::{Answer, AskFault, ClassName};
use pj_outside::{Reading, Refused};
use std::alloc::Global;
use std::sync::Arc;

/// The most bytes of a class file that are read.
pub(crate) const CLASS_BYTES: u64 = 4_194_304;

/// The answer that the folders of the door have for a name, by one find.
#[tactic(auto, using(crate::proofs::Readings::short_enough, crate::proofs::Readings::is_answer))]
pub(crate) fn read_answer<D: ClassFinder>(
    alloc: Global,
    door: &mut D,
    name: &ClassName,
) -> Result<Answer, AskFault>
    ensures same_folders { D.holds door.new ≡ D.holds door.old }
    ensures finds { D.finds door.new ≡ next_count (D.finds door.old) }
    ensures faults { CountsFaults (D.faults door.old) (D.faults door.new) result }
    ensures answer { IfOk result (λ answer. IsAnswer (D.holds door.old) name.now answer) }
{
    let reading = match door.find_class_file(name, CLASS_BYTES) {
        Ok(reading) => reading,
        Err(Refused::Failed) => return Err(AskFault::Failed),
        Err(Refused::Memory) => return Err(AskFault::Memory),
    };
    match answer_of(alloc, name, &reading) {
        Ok(answer) => Ok(answer),
        Err(NoMemory) => Err(AskFault::Memory),
    }
}

/// The answer for a name whose class file was read so, shared.
#[tactic(auto, using(crate::proofs::Readings::short_enough))]
pub(crate) fn shared_answer_of(
    alloc: Global,
    name: &ClassName,
    reading: &Reading,
) -> Result<Arc<Answer>, NoMemory>
    requires { IsAtMost 4194304 reading.now }
    ensures { IfOk result (λ answer. AnswerOf name.now reading.now answer.value) }
{
    let answer = answer_of(alloc, name, reading)?;
    Ok(Arc::new(alloc, answer)?)
}
