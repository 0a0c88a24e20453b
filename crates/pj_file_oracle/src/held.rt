//! What is held of a file, to be given again.

ghost use Rattle.std.specs.Prelude.{◌≡◌, [], IsTrue};
ghost use Rattle.pj_names.specs.declared.answer.Answer.{Answer as AnyAnswer};
ghost use Rattle.pj_names.specs.Asking.{Asking};
ghost use Rattle.pj_names.specs.ClassName.{name_set};
ghost use Rattle.pj_names.specs.Held.{IsHeld, again};
ghost use Rattle.pj_names.specs.Told.{Asks, seen, shared_answer};

use pj_names::{Answer, AskFault, ClassName, ClassNames, Oracle};
use std::alloc::Global;
use std::collections::BTreeMap;
use std::sync::Arc;

/// What a class of the file answered, with the names that its declaration asks.
#[derive(Drop)]
pub struct HeldAnswer {
    /// The answer.
    pub answer: Arc<Answer>,
    /// The names, each once.
    pub names: ClassNames,
}

/// What classes of the file answered, by their names.
pub type HeldAnswers = BTreeMap<ClassName, HeldAnswer>;

/// What is held of a file. It outlives the oracles that are made of the file, over whatever oracles of one world.
#[derive(Drop)]
pub struct Held {
    /// What its classes answered.
    pub answers: HeldAnswers,
}

impl Held {
    /// Nothing. It takes no memory.
    pub fn new(alloc: Global) -> Held
        ensures { result.answers.entries ≡ [] }
    {
        Held {
            answers: BTreeMap::new(alloc),
        }
    }
}

/// The names of an answer asked once more, and then the answer.
#[tactic(auto, using(pj_names::proofs::AskingLaws::asking_loops))]
fn ask_again<O: Oracle>(oracle: &mut O, held: &HeldAnswer) -> Result<Arc<Answer>, AskFault>
    ensures { Asks (again held.now.answer.value held.now.names) (O.tells oracle.old) (O.tells oracle.new) (seen shared_answer result) }
{
    for name in held.names.as_slice() {
        let _answer = oracle.ask(name)?;
    }
    Ok(held.answer.clone()?)
}

/// An answer that is held, for whatever meaning it is held: the names of the meaning are asked.
pub fn give_again<O: Oracle>(oracle: &mut O, held: &HeldAnswer) -> Result<Arc<Answer>, AskFault>
    ensures { (meaning : Asking AnyAnswer)
        → (IsTrue (O.tells oracle.old).is_told → IsHeld (O.tells oracle.old).world meaning held.now.answer.value (name_set held.now.names))
        → Asks meaning (O.tells oracle.old) (O.tells oracle.new) (seen shared_answer result) }
{
    ask_again(oracle, held)
}
