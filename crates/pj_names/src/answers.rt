//! Lists of answers.
ghost use Rattle.std.specs.Prelude.{◌≡◌, ◌++◌, ◌∷◌, [], OnOk, OnErr, length, map};
ghost use Rattle.pj_names.specs.AnswerList.{lent_answer};
ghost use Rattle.pj_names.specs.Meaning.{found_in};

use crate::answer::Answer;
use crate::class_name::ClassName;
use pj_base::NoMemory;
use std::alloc::Global;
use std::marker::Model;
use std::sync::Arc;

/// Names with their answers, which contracts see as the list of these pairs. The first pair of a name counts.
#[derive(Debug, Drop)]
pub struct Answers {
    pairs: Vec<(ClassName, Arc<Answer>)>,
}

impl Model for Answers {
    ghost use Rattle.std.specs.Prelude.{List, ℕ, map};
    ghost use Rattle.pj_names.specs.declared.answer.Answer.{Answer};

    ghost Value = { List (List ℕ × Answer) };

    ghost view = { λ answers. map (λ pair. (pair.0, pair.1.value)) answers.pairs.items };
}

impl Answers {
    /// No answers, which takes no memory.
    pub fn new(alloc: Global) -> Answers
        ensures { result ≡ [] }
    {
        Answers {
            pairs: Vec::new(alloc),
        }
    }

    /// The pairs of a `Vec`, which takes no memory.
    pub fn from_vec(pairs: Vec<(ClassName, Arc<Answer>)>) -> Answers
        ensures { result ≡ map (λ pair. (pair.0, pair.1.value)) pairs.items }
    {
        Answers { pairs }
    }

    /// The pairs as a `Vec`, which takes no memory.
    pub fn into_vec(self) -> Vec<(ClassName, Arc<Answer>)>
        ensures { map (λ pair. (pair.0, pair.1.value)) result.items ≡ self }
    {
        let Answers { pairs } = self;
        pairs
    }

    /// The pairs, borrowed.
    pub fn as_slice(&self) -> &[(ClassName, Arc<Answer>)]
        ensures { map (λ pair. (pair.0, pair.1.value)) result.now ≡ self.now }
    {
        self.pairs.as_slice()
    }

    /// The number of pairs.
    pub fn len(&self) -> usize
        ensures { result ≡ length self.now }
    {
        self.pairs.len()
    }

    /// Puts a pair at the end.
    pub fn push(&mut self, name: ClassName, answer: Arc<Answer>) -> Result<(), NoMemory>
        ensures ok { OnOk result (self.new ≡ self.old ++ (name, answer.value) ∷ []) }
        ensures err { OnErr result (self.new ≡ self.old) }
    {
        self.pairs.push((name, answer))?;
        Ok(())
    }

    /// The answer of the first pair of a name, by a walk along the list.
    pub fn find(&self, name: &ClassName) -> Option<&Arc<Answer>>
        ensures { lent_answer result ≡ found_in self.now name.now }
    {
        for (key, answer) in self.pairs.as_slice() {
            if key == name {
                return Some(answer);
            }
        }
        None
    }
}
