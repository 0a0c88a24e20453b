//! A walk along supertypes by their names.

ghost use Rattle.std.specs.Prelude.{◌≡◌, ◌++◌, ◌∷◌, [], IfOk, MatchOption, OnOk, reverse};
ghost use Rattle.std.specs.FinSet as set;
ghost use Rattle.pj_types.specs.NameWalks.{Gives, left};

use pj_base::{Copied, NoMemory};
use pj_names::{ClassName, ClassNameSet, ClassNames};
use std::alloc::Global;
use std::marker::Model;

/// A walk along the supertypes of a class (JLS 4.10.2), depth first and each class once, of which only names are known. Who walks
/// says what each class leads to. It keeps the classes still to visit in a list, so a long chain of classes costs no stack.
#[derive(Drop)]
pub struct NameWalk {
    visited: ClassNameSet,
    /// The classes still to visit, the next one last.
    to_visit: Vec<ClassName>,
}

impl Model for NameWalk {
    ghost use Rattle.std.specs.Prelude.{List, reverse};
    ghost use Rattle.std.specs.Coded.{coded_list, coded_ℕ, coded×};
    ghost use Rattle.std.specs.FinSet as set;
    ghost use Rattle.pj_names.specs.ClassName.{Name, NameSet};

    ghost Value = { NameSet × List Name };

    ghost coded = { coded× (set.code (coded_list coded_ℕ)) (coded_list (coded_list coded_ℕ)) };

    ghost view = { λ walk. (walk.visited, reverse walk.to_visit.items) };
}

/// Takes the next class that was not visited from the end of those to visit, and those behind it that were.
#[tactic(auto, using(crate::proofs::NamesTaken::takes))]
fn take_unvisited(to_visit: &mut Vec<ClassName>, visited: &ClassNameSet) -> Option<ClassName>
    ensures { MatchOption result (left visited.now (reverse to_visit.old.items) ≡ []) (λ class. left visited.now (reverse to_visit.old.items) ≡ class ∷ reverse to_visit.new.items) }
{
    while let Some(class) = to_visit.pop() {
        if !visited.contains(&class) {
            return Some(class);
        }
    }
    None
}

/// Puts classes at the end, the last of them first.
fn push_reversed(to_visit: &mut Vec<ClassName>, more: ClassNames) -> Result<(), NoMemory>
    ensures { OnOk result (to_visit.new.items ≡ to_visit.old.items ++ reverse more) }
{
    let mut classes = more.into_vec();
    classes.reverse();
    to_visit.append(&mut classes)?;
    Ok(())
}

impl NameWalk {
    /// The walk from a class, which is the first that it gives.
    #[tactic(auto, using(crate::proofs::NamesTaken::begins))]
    pub fn of(alloc: Global, class: &ClassName) -> Result<NameWalk, NoMemory>
        ensures { IfOk result (λ walk. walk ≡ (set.empty, class.now ∷ [])) }
    {
        let mut to_visit = Vec::new(alloc);
        to_visit.push(class.copied()?)?;
        Ok(NameWalk {
            visited: ClassNameSet::new(alloc),
            to_visit,
        })
    }

    /// The next class that was not visited, and `None` at the end. Nothing is known of the walk after an `Err`.
    #[tactic(auto, using(crate::proofs::NamesTaken::gives))]
    pub fn next_class(&mut self) -> Result<Option<ClassName>, NoMemory>
        ensures { IfOk result (λ next. Gives self.old self.new next) }
    {
        let Some(class) = take_unvisited(&mut self.to_visit, &self.visited) else {
            return Ok(None);
        };
        self.visited.note(&class)?;
        Ok(Some(class))
    }

    /// Puts what the class given last leads to before the classes still to visit. Nothing is known of the walk after an `Err`.
    #[tactic(auto, using(crate::proofs::NamesTaken::puts))]
    pub fn put(&mut self, more: ClassNames) -> Result<(), NoMemory>
        ensures { OnOk result (self.new ≡ (self.old.0, more ++ self.old.1)) }
    {
        push_reversed(&mut self.to_visit, more)?;
        Ok(())
    }
}
