//! An oracle over a list of answers.
ghost use Rattle.std.specs.Prelude.{◌≡◌};
ghost use Rattle.std.specs.FinSet as set;
ghost use Rattle.pj_names.specs.AnswerList.{list_tells};

use crate::answer::Answer;
use crate::answers::Answers;
use crate::class_name::ClassName;
use crate::class_name_set::ClassNameSet;
use crate::oracle::{AskFault, Oracle};
use pj_base::Copied;
use std::alloc::Global;
use std::sync::Arc;

/// An oracle whose world is a list of answers: the first pair of a name counts, and every other name is `Absent`.
/// It never fails but for memory.
#[derive(Debug, Drop)]
pub struct MapOracle {
    alloc: Global,
    answers: Answers,
    asked: ClassNameSet,
}

impl MapOracle {
    /// The oracle over these answers, of which nothing was asked. It takes no memory.
    pub fn new(alloc: Global, answers: Answers) -> MapOracle
        ensures { ⟦<MapOracle as Oracle>⟧.tells result ≡ list_tells answers set.empty }
    {
        MapOracle {
            alloc,
            answers,
            asked: ClassNameSet::new(alloc),
        }
    }

    /// The names that were asked of it.
    pub fn asked(&self) -> &ClassNameSet
        ensures { result.now ≡ (⟦<MapOracle as Oracle>⟧.tells self.now).asked }
    {
        &self.asked
    }
}

impl Oracle for MapOracle {
    ghost Kept = { Unit {0} };

    ghost tells = { λ oracle. list_tells oracle.answers oracle.asked };

    fn ask(&mut self, name: &ClassName) -> Result<Arc<Answer>, AskFault> {
        self.asked.insert(name.copied()?)?;
        match self.answers.find(name) {
            Some(answer) => Ok(answer.clone()?),
            None => Ok(Arc::new(self.alloc, Answer::Absent)?),
        }
    }
}
