//! The answer for the name of a class.
ghost use Rattle.std.specs.Prelude.{◌≡◌, ◌≤◌, IfOk, length};
ghost use Rattle.pj_outside.specs.Files.{IsAtMost};
ghost use Rattle.pj_outside.specs.declared.refused.Reading.TheVariants as readings;
ghost use Rattle.pj_classfile.specs.ClassOf.{AnswerOf};

use crate::class::parse;
use crate::fault::ClassRefused;
use pj_base::NoMemory;
use pj_names::{Answer, Broken, ClassName};
use pj_outside::Reading;
use std::alloc::Global;

/// The answer where the class file was read whole.
fn answer_of_bytes(alloc: Global, name: &ClassName, bytes: &[u8]) -> Result<Answer, NoMemory>
    requires { length bytes.now ≤ 4294967294 }
    ensures { IfOk result (λ answer. AnswerOf name.now (readings.Whole bytes.now) answer) }
{
    match parse(alloc, bytes) {
        Ok(class) => {
            if class.name == *name {
                Ok(Answer::Found(class))
            } else {
                Ok(Answer::Broken(Broken::OtherName))
            }
        }
        Err(ClassRefused::Fault(fault)) => Ok(Answer::Broken(Broken::Class(fault))),
        Err(ClassRefused::Memory) => Err(NoMemory),
    }
}

/// The answer for the name of a class whose file was read so: `Absent` for an absent file, `Broken(TooLong)` for one
/// that is longer than what is read, `Broken(Class)` with the first fault where the bytes have one, `Broken(OtherName)`
/// where the class has another name, else `Found`. The condition is that offsets are named by 32 bits.
pub fn answer_of(alloc: Global, name: &ClassName, reading: &Reading) -> Result<Answer, NoMemory>
    requires { IsAtMost 4294967294 reading.now }
    ensures { IfOk result (λ answer. AnswerOf name.now reading.now answer) }
{
    match reading {
        Reading::Absent => Ok(Answer::Absent),
        Reading::Longer => Ok(Answer::Broken(Broken::TooLong)),
        Reading::Whole(bytes) => answer_of_bytes(alloc, name, bytes.as_slice()),
    }
}
