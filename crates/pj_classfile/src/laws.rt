//! Laws of class files, as contracts.
ghost use Rattle.std.specs.Prelude.{◌≡◌, ℕ, List, Result, Some};
ghost use Rattle.pj_names.specs.declared.answer.ClassInfo as infos;
ghost use Rattle.pj_names.specs.declared.answer.ClassFault as faults;
ghost use Rattle.pj_names.specs.declared.answer.Answer as answers;
ghost use Rattle.pj_outside.specs.declared.refused.Reading as readings;
ghost use Rattle.pj_names.specs.ClassName.{Name};
ghost use Rattle.pj_outside.specs.Doors.{found_at};
ghost use Rattle.pj_outside.specs.Files.{Files};
ghost use Rattle.pj_classfile.specs.ClassOf.{AnswerOf, ClassOf, answer_of as answer_by, class_of, folder_world};
ghost use Rattle.pj_classfile.specs.ModifiedUtf8.{IsModified, decoded};

/// Bytes are one class, or have one first fault (JVMS 4).
pub fn one_class()
    ensures there { (bytes : List ℕ) → (r : Result infos.ClassInfo faults.ClassFault) × ClassOf bytes r }
    ensures one { (bytes : List ℕ) (r s : Result infos.ClassInfo faults.ClassFault) → ClassOf bytes r → ClassOf bytes s → r ≡ s }
{}

/// A name has exactly one answer for each reading.
pub fn one_answer()
    ensures there { (name : List ℕ) (reading : readings.Reading) → (a : answers.Answer) × AnswerOf name reading a }
    ensures one { (name : List ℕ) (reading : readings.Reading) (a b : answers.Answer) → AnswerOf name reading a → AnswerOf name reading b → a ≡ b }
{}

/// The functions are what is meant: the class of bytes, the answer for a reading, and the world of some class folders, in which a
/// name has the answer for its file in the first folder that has it, and no other one.
pub fn folders_are_a_world()
    ensures class { (bytes : List ℕ) → ClassOf bytes (class_of bytes) }
    ensures answer { (name : Name) (reading : readings.Reading) → AnswerOf name reading (answer_by name reading) }
    ensures world { (most : ℕ) (folders : List Files) (name : Name) (answer : answers.Answer) → AnswerOf name (found_at folders name most) answer → answer ≡ folder_world most folders name }
{}

/// A text is decoded from exactly the bytes that spell it in modified UTF-8 (JVMS 4.4.7).
pub fn texts_are_decoded()
    ensures found { (bytes text : List ℕ) → decoded bytes ≡ Some text → IsModified bytes text }
    ensures only { (bytes text : List ℕ) → IsModified bytes text → decoded bytes ≡ Some text }
{}
