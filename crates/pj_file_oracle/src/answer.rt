//! What a class of the file answers.

ghost use Rattle.std.specs.Prelude.{◌≡◌, ◌<◌, length, IfOk, Some};
ghost use Rattle.pj_outer_names.specs.Candidates.{file_classes, node_named};
ghost use Rattle.pj_names.specs.Noting.{Notes};
ghost use Rattle.pj_names.specs.Told.{Asks, seen, shared_answer};
ghost use Rattle.pj_file_oracle.specs.Answered.{AreAnswered};
ghost use Rattle.pj_file_oracle.specs.FileAnswer.{class_answer, file_answer, found_with};
ghost use Rattle.pj_file_oracle.specs.Held.{AreHeld};

use crate::headers::header_text;
use crate::held::{HeldAnswer, HeldAnswers, give_again};
use crate::members::{MemberLists, members_of};
use pj_base::{Copied, NoMemory, Text};
use pj_names::{Answer, AskFault, ClassInfo, ClassName, ClassNameSet, Oracle, Recorder};
use pj_outer_names::File;
use pj_tree::{Node, SyntaxTree};
use pj_written::class_flags;
use std::alloc::Global;
use std::collections::BTreeMap;
use std::sync::Arc;

/// What was answered for classes of the file, by their names.
pub type Answered = BTreeMap<ClassName, Arc<Answer>>;

/// A class that is found, by its signature and its members.
fn found_with(
    alloc: Global,
    tree: &SyntaxTree<'_>,
    name: &ClassName,
    class: Node,
    signature: Text,
    members: MemberLists,
) -> Result<Arc<Answer>, NoMemory>
    requires inside { class.0 < length tree.now.nodes }
    ensures { IfOk result (λ answer. shared_answer answer ≡ found_with tree.now name.now class signature members) }
{
    let name = name.copied()?;
    let MemberLists { fields, methods } = members;
    let answer = Answer::Found(ClassInfo {
        name,
        flags: class_flags(tree, class),
        signature,
        fields,
        methods,
    });
    Ok(Arc::new(alloc, answer)?)
}

/// What a class of the file answers: first its header is resolved, and then its members.
#[tactic(auto, using(pj_names::proofs::AskingLaws::asking_steps))]
fn class_answer<O: Oracle>(
    alloc: Global,
    file: &File<'_>,
    oracle: &mut O,
    name: &ClassName,
    class: Node,
) -> Result<Arc<Answer>, AskFault>
    requires inside { class.0 < length file.now.nodes }
    ensures { Asks (class_answer file.now name.now class) (O.tells oracle.old) (O.tells oracle.new) (seen shared_answer result) }
{
    let signature = header_text(alloc, file, oracle, class)?;
    let members = members_of(alloc, file, oracle, class)?;
    let answer = found_with(alloc, file.tree(), name, class, signature, members)?;
    Ok(answer)
}

/// The same; the names that this asks are noted.
fn answer_noted<O: Oracle>(
    alloc: Global,
    file: &File<'_>,
    oracle: &mut O,
    noted: &mut ClassNameSet,
    name: &ClassName,
    class: Node,
) -> Result<Arc<Answer>, AskFault>
    requires inside { class.0 < length file.now.nodes }
    ensures asks { Asks (class_answer file.now name.now class) (O.tells oracle.old) (O.tells oracle.new) (seen shared_answer result) }
    ensures notes { Notes (class_answer file.now name.now class) (O.tells oracle.old).is_told (O.tells oracle.old).world noted.old noted.new (seen shared_answer result) }
{
    let mut recorder = Recorder {
        inner: &mut *oracle,
        noted: &mut *noted,
    };
    class_answer(alloc, file, &mut recorder, name, class)
}

/// A new answer of a class of the file, which is put among those that are held.
fn new_answer<O: Oracle>(
    alloc: Global,
    file: &File<'_>,
    oracle: &mut O,
    held: &mut HeldAnswers,
    name: &ClassName,
    class: Node,
) -> Result<Arc<Answer>, AskFault>
    requires inside { class.0 < length file.now.nodes }
    requires named { node_named (file_classes file.now) name.now ≡ Some class }
    requires held { AreHeld (file_answer file.now) (O.tells oracle.old) held.old.entries }
    ensures asks { Asks (file_answer file.now name.now) (O.tells oracle.old) (O.tells oracle.new) (seen shared_answer result) }
    ensures held { AreHeld (file_answer file.now) (O.tells oracle.new) held.new.entries }
{
    let mut noted = ClassNameSet::new(alloc);
    let answer = answer_noted(alloc, file, oracle, &mut noted, name, class)?;
    let names = noted.names(alloc)?;
    let answer_too = answer.clone()?;
    held.insert(
        name.copied()?,
        HeldAnswer {
            answer: answer_too,
            names,
        },
    )?;
    Ok(answer)
}

/// What a class of the file answers: what is held of it, where its names are asked once more, or else a new answer.
fn held_answer<O: Oracle>(
    alloc: Global,
    file: &File<'_>,
    oracle: &mut O,
    held: &mut HeldAnswers,
    name: &ClassName,
    class: Node,
) -> Result<Arc<Answer>, AskFault>
    requires inside { class.0 < length file.now.nodes }
    requires named { node_named (file_classes file.now) name.now ≡ Some class }
    requires held { AreHeld (file_answer file.now) (O.tells oracle.old) held.old.entries }
    ensures asks { Asks (file_answer file.now name.now) (O.tells oracle.old) (O.tells oracle.new) (seen shared_answer result) }
    ensures held { AreHeld (file_answer file.now) (O.tells oracle.new) held.new.entries }
{
    if let Some(found) = held.get(name) {
        return give_again(oracle, found);
    }
    new_answer(alloc, file, oracle, held, name, class)
}

/// What is answered for a class of the file by its name: what was answered before over this oracle, without asking, or else what is held or is new, which is
/// put among those answers.
fn answer_again<O: Oracle>(
    alloc: Global,
    file: &File<'_>,
    oracle: &mut O,
    answered: &mut Answered,
    held: &mut HeldAnswers,
    name: &ClassName,
    class: Node,
) -> Result<Arc<Answer>, AskFault>
    requires inside { class.0 < length file.now.nodes }
    requires named { node_named (file_classes file.now) name.now ≡ Some class }
    requires answered { AreAnswered (file_answer file.now) (O.tells oracle.old) answered.old.entries }
    requires held { AreHeld (file_answer file.now) (O.tells oracle.old) held.old.entries }
    ensures asks { Asks (file_answer file.now name.now) (O.tells oracle.old) (O.tells oracle.new) (seen shared_answer result) }
    ensures answered { AreAnswered (file_answer file.now) (O.tells oracle.new) answered.new.entries }
    ensures held { AreHeld (file_answer file.now) (O.tells oracle.new) held.new.entries }
{
    if let Some(answer) = answered.get(name) {
        return Ok(answer.clone()?);
    }
    let answer = held_answer(alloc, file, oracle, held, name, class)?;
    answered.insert(name.copied()?, answer.clone()?)?;
    Ok(answer)
}

/// What the oracle of a file answers for a name: a class of the file by its declaration, and every other one is asked.
pub fn file_answer<O: Oracle>(
    alloc: Global,
    file: &File<'_>,
    oracle: &mut O,
    answered: &mut Answered,
    held: &mut HeldAnswers,
    name: &ClassName,
) -> Result<Arc<Answer>, AskFault>
    requires answered { AreAnswered (file_answer file.now) (O.tells oracle.old) answered.old.entries }
    requires held { AreHeld (file_answer file.now) (O.tells oracle.old) held.old.entries }
    ensures asks { Asks (file_answer file.now name.now) (O.tells oracle.old) (O.tells oracle.new) (seen shared_answer result) }
    ensures answered { AreAnswered (file_answer file.now) (O.tells oracle.new) answered.new.entries }
    ensures held { AreHeld (file_answer file.now) (O.tells oracle.new) held.new.entries }
{
    match file.node_named(name.as_str()) {
        Some(class) => answer_again(alloc, file, oracle, answered, held, name, class),
        None => oracle.ask(name),
    }
}
