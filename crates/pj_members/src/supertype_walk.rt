//! A walk along the supertypes of a class with type arguments (JLS 4.10.2).
ghost use Rattle.std.specs.Prelude.{◌≡◌, ◌++◌, ◌∷◌, [], IfOk, MatchOption, OnOk, reverse};
ghost use Rattle.std.specs.FinSet as set;
ghost use Rattle.pj_members.specs.SupertypeWalks.{Gives, all_supertypes, left, seen_supertype, standing, supertype_view};

use crate::supertypes::{Supertype, Supertypes};
use pj_base::NoMemory;
use pj_names::ClassNameSet;
use std::alloc::Global;

/// A walk along the supertypes of a class with type arguments, depth first and each class once. Who walks says what each class leads to. It keeps the classes
/// still to visit in a list, so a long chain of classes costs no stack.
#[derive(Drop)]
pub struct SupertypeWalk {
    /// The names of the classes that were given.
    pub visited: ClassNameSet,
    /// The classes still to visit, the next one last.
    pub to_visit: Vec<Supertype>,
}

/// Takes the next class that was not visited from the end of those to visit, and those behind it that were.
#[tactic(auto, using(crate::proofs::SupertypesTaken::takes))]
fn take_unvisited(to_visit: &mut Vec<Supertype>, visited: &ClassNameSet) -> Option<Supertype>
    ensures { MatchOption result (left visited.now (all_supertypes (reverse to_visit.old.items)) ≡ []) (λ class. left visited.now (all_supertypes (reverse to_visit.old.items)) ≡ supertype_view class ∷ all_supertypes (reverse to_visit.new.items)) }
{
    while let Some(class) = to_visit.pop() {
        if !visited.contains(&class.name) {
            return Some(class);
        }
    }
    None
}

/// Puts classes at the end, the last of them first.
fn push_reversed(to_visit: &mut Vec<Supertype>, more: Supertypes) -> Result<(), NoMemory>
    ensures { OnOk result (to_visit.new.items ≡ to_visit.old.items ++ reverse more) }
{
    let mut classes = more.into_vec();
    classes.reverse();
    to_visit.append(&mut classes)?;
    Ok(())
}

impl SupertypeWalk {
    /// The walk from a class, which is the first that it gives.
    #[tactic(auto, using(crate::proofs::SupertypesTaken::begins))]
    pub fn of(alloc: Global, head: Supertype) -> Result<SupertypeWalk, NoMemory>
        ensures { IfOk result (λ walk. standing walk ≡ (set.empty, supertype_view head ∷ [])) }
    {
        let mut to_visit = Vec::new(alloc);
        to_visit.push(head)?;
        Ok(SupertypeWalk {
            visited: ClassNameSet::new(alloc),
            to_visit,
        })
    }

    /// The next class that was not visited, and `None` at the end. Nothing is known of the walk after an `Err`.
    #[tactic(auto, using(crate::proofs::SupertypesTaken::gives))]
    pub fn next_class(&mut self) -> Result<Option<Supertype>, NoMemory>
        ensures { IfOk result (λ next. Gives (standing self.old) (standing self.new) (seen_supertype next)) }
    {
        let Some(class) = take_unvisited(&mut self.to_visit, &self.visited) else {
            return Ok(None);
        };
        self.visited.note(&class.name)?;
        Ok(Some(class))
    }

    /// Puts what the class given last leads to before the classes still to visit. Nothing is known of the walk after an `Err`.
    #[tactic(auto, using(crate::proofs::SupertypesTaken::puts))]
    pub fn put(&mut self, more: Supertypes) -> Result<(), NoMemory>
        ensures { OnOk result (standing self.new ≡ ((standing self.old).0, all_supertypes more ++ (standing self.old).1)) }
    {
        push_reversed(&mut self.to_visit, more)?;
        Ok(())
    }
}
