//! Walks along the supertypes of a class.
ghost use Rattle.std.specs.Prelude.{◌≡◌, ◌++◌, ◌∷◌, ◌+◌, ◌<◌, [], IfOk, MatchOption, OnErr, OnOk, length, reverse, take};
ghost use Rattle.std.specs.FinSet as set;
ghost use Rattle.pj_names.specs.JavaType.{java_type};
ghost use Rattle.pj_names.specs.Asking.{unvisited};
ghost use Rattle.pj_names.specs.Told.{Asks, seen};
ghost use Rattle.pj_signatures.specs.Seen.{seen_option};
ghost use Rattle.pj_types.specs.Supertypes.{after_last, begin, given_next, given_type, name_of, step, still_left};
ghost use Rattle.pj_types.specs.Seen.{all_listed, listed};
ghost use Rattle.pj_types.specs.Stepped.{after_known, asked_name, known_answer, stepped};
ghost use Rattle.pj_types.specs.Supertypes.{last_asked};
ghost use Rattle.pj_types.specs.Standing.{standing, after_step, given_types};

use crate::listed::{ListedClass, ListedClasses, direct_supertypes, of_answer};
use pj_base::{Copied, NoMemory};
use pj_names::{Answer, AskFault, ClassName, ClassNameSet, Oracle, Ty};
use std::alloc::Global;
use std::marker::Model;

/// A walk along the supertypes of a class (JLS 4.10.2): the class, then depth first its superclass, then its interfaces in
/// their order. A class that was visited is skipped.
///
/// It keeps the classes still to visit in a list, so a long chain of classes costs no stack.
#[derive(Debug, Drop)]
pub struct Walk {
    alloc: Global,
    /// The classes that were given.
    given: ListedClasses,
    /// Their names.
    visited: ClassNameSet,
    /// The classes still to visit, the next one last. What the class given last leads to is not yet among them.
    to_visit: Vec<ListedClass>,
}

impl Model for Walk {
    ghost use Rattle.std.specs.Prelude.{List, reverse};
    ghost use Rattle.pj_types.specs.declared.listed.ListedClass.{ListedClass};
    ghost use Rattle.pj_names.specs.contracts.ty.Types as types;
    ghost use Rattle.std.specs.Coded.{codes};

    ghost Value = { List ListedClass × List ListedClass };

    ghost coded = { Prim.hlevel (codes, types.the_row.coded) };

    ghost use Rattle.pj_types.specs.Visited.{AreVisited};

    ghost view = { λ walk. (walk.given, reverse walk.to_visit.items) };

    ghost invariant = { λ walk. AreVisited walk.visited walk.given };
}

/// What the class given last leads to: it is asked, unless it is `java.lang.Object`.
#[tactic(auto, using(crate::proofs::Steps::last_class))]
fn after_last<O: Oracle>(
    alloc: Global,
    oracle: &mut O,
    given: &ListedClasses,
) -> Result<ListedClasses, AskFault>
    ensures { Asks (after_last (all_listed given.now)) (O.tells oracle.old) (O.tells oracle.new) (seen all_listed result) }
{
    let given = given.as_slice();
    if given.is_empty() {
        return Ok(ListedClasses::new(alloc));
    }
    direct_supertypes(alloc, oracle, &given[given.len() - 1])
}

/// Puts the classes at the end, the last of them first. After an `Err` nothing is put there.
fn push_reversed(to_visit: &mut Vec<ListedClass>, more: ListedClasses) -> Result<(), NoMemory>
    ensures ok { OnOk result (to_visit.new.items ≡ to_visit.old.items ++ reverse more) }
    ensures err { OnErr result (to_visit.new.items ≡ to_visit.old.items) }
{
    let mut classes = more.into_vec();
    classes.reverse();
    to_visit.append(&mut classes)?;
    Ok(())
}

/// The place of the next class that was not visited, where the next one lies last.
#[tactic(auto, using(crate::proofs::Steps::places))]
fn next_place(to_visit: &[ListedClass], visited: &ClassNameSet) -> Option<usize>
    ensures { MatchOption result
        (unvisited name_of (set.contains visited.now) (all_listed (reverse to_visit.now)) ≡ [])
        (λ place. (place < length to_visit.now) × (unvisited name_of (set.contains visited.now) (all_listed (reverse to_visit.now)) ≡ all_listed (reverse (take (place + 1) to_visit.now)))) }
{
    let mut end = to_visit.len();
    while end > 0 {
        if !visited.contains(&to_visit[end - 1].name) {
            return Some(end - 1);
        }
        end -= 1;
    }
    None
}

/// Gives a class: it is put at the end of those given, and its name among the visited ones. After an `Err` both are
/// unchanged.
fn give(
    given: &mut ListedClasses,
    visited: &mut ClassNameSet,
    class: &ListedClass,
) -> Result<Ty, NoMemory>
    ensures ty { IfOk result (λ ty. java_type ty ≡ given_type (listed class.now)) }
    ensures given { OnOk result (all_listed given.new ≡ all_listed given.old ++ listed class.now ∷ []) }
    ensures visited { OnOk result (visited.new ≡ set.insert visited.old class.now.name) }
    ensures same_given { OnErr result (given.new ≡ given.old) }
    ensures same_visited { OnErr result (visited.new ≡ visited.old) }
{
    let ty = class.given_type()?;
    let name = class.name.copied()?;
    let copy = class.copied()?;
    given.push(copy)?;
    match visited.insert(name) {
        Ok(_) => Ok(ty),
        Err(fault) => {
            given.pop();
            Err(fault)
        }
    }
}

/// The class that is asked after these were given: the last one, unless that is `java.lang.Object`.
#[tactic(auto, using(crate::proofs::LastKnown::last_known))]
fn asked_after(given: &ListedClasses) -> Option<&ClassName>
    ensures { asked_name result ≡ last_asked (all_listed given.now) }
{
    let given = given.as_slice();
    if given.is_empty() {
        return None;
    }
    let last = &given[given.len() - 1].name;
    if last.is_object() { None } else { Some(last) }
}

/// What the class given last leads to, from what is known of it.
#[tactic(auto, using(crate::proofs::LastKnown::last_known))]
fn after_known(
    alloc: Global,
    given: &ListedClasses,
    known: Option<&Answer>,
) -> Result<ListedClasses, NoMemory>
    ensures { IfOk result (λ classes. all_listed classes ≡ after_known (all_listed given.now) (known_answer known.entry)) }
{
    let given = given.as_slice();
    let Some(answer) = known else {
        return Ok(ListedClasses::new(alloc));
    };
    if given.is_empty() {
        return Ok(ListedClasses::new(alloc));
    }
    of_answer(alloc, &given[given.len() - 1].arguments, answer)
}

impl Walk {
    /// The class that the next step asks: the one that was given last, unless that is `java.lang.Object`.
    pub fn asks(&self) -> Option<&ClassName>
        ensures { asked_name result ≡ last_asked (standing self.now).given }
    {
        asked_after(&self.given)
    }

    /// The next step, where it is known what is asked there, without asking. After an `Err` the walk is unchanged.
    pub fn go_on(&mut self, known: Option<&Answer>) -> Result<Option<Ty>, NoMemory>
        ensures value { IfOk result (λ next. after_step self.new next ≡ stepped (standing self.old) (known_answer known.entry)) }
        ensures unchanged { OnErr result (self.new ≡ self.old) }
    {
        let more = after_known(self.alloc, &self.given, known)?;
        self.advance(more)
    }

    /// The walk along the supertypes of a class, where it begins: nothing is asked.
    pub fn of(alloc: Global, class: &ClassName) -> Result<Walk, NoMemory>
        ensures { IfOk result (λ walk. standing walk ≡ begin class.now) }
    {
        let mut to_visit = Vec::new(alloc);
        to_visit.push(ListedClass {
            name: class.copied()?,
            arguments: None,
        })?;
        Ok(Walk {
            alloc,
            given: ListedClasses::new(alloc),
            visited: ClassNameSet::new(alloc),
            to_visit,
        })
    }

    /// Goes on where the class given last leads to some classes.
    fn advance(&mut self, more: ListedClasses) -> Result<Option<Ty>, NoMemory>
        ensures value { IfOk result (λ next. after_step self.new next ≡ given_next (standing self.old) (still_left (standing self.old).given (all_listed more ++ (standing self.old).to_visit))) }
        ensures given { IfOk result (λ next. MatchOption next (self.new ≡ self.old) (λ ty. given_types self.new ≡ given_types self.old ++ java_type ty ∷ [])) }
        ensures unchanged { OnErr result (self.new ≡ self.old) }
    {
        let before = self.to_visit.len();
        push_reversed(&mut self.to_visit, more)?;
        let Some(place) = next_place(&self.to_visit, &self.visited) else {
            self.to_visit.truncate(before);
            return Ok(None);
        };
        match give(&mut self.given, &mut self.visited, &self.to_visit[place]) {
            Ok(ty) => {
                self.to_visit.truncate(place);
                Ok(Some(ty))
            }
            Err(fault) => {
                self.to_visit.truncate(before);
                Err(fault)
            }
        }
    }

    /// The next class, or `None` exactly at the end of the list; there the walk stays as it is.
    ///
    /// The class that was given last is asked, unless that is `java.lang.Object`, and nothing else; so the first call asks
    /// nothing. After an `Err` the walk is unchanged.
    #[tactic(auto, using(pj_names::proofs::AskingLaws::asking_steps), unfolding(crate::specs::Supertypes::step))]
    pub fn next_class<O: Oracle>(&mut self, oracle: &mut O) -> Result<Option<Ty>, AskFault>
        ensures asks { Asks (step (standing self.old)) (O.tells oracle.old) (O.tells oracle.new) (seen (after_step self.new) result) }
        ensures given { IfOk result (λ next. MatchOption next (self.new ≡ self.old) (λ ty. given_types self.new ≡ given_types self.old ++ java_type ty ∷ [])) }
        ensures unchanged { OnErr result (self.new ≡ self.old) }
    {
        let more = after_last(self.alloc, oracle, &self.given)?;
        let next = self.advance(more)?;
        Ok(next)
    }
}
