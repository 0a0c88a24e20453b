//! The laws of meanings that ask, each the contract of a call that does nothing.
ghost use Rattle.std.specs.Prelude.{◌≡◌, ℕ, IsTrue, List, Ok, Some, true};
ghost use Rattle.std.specs.FinSet as set;
ghost use Rattle.pj_names.specs.declared.answer.Answer.{Answer};
ghost use Rattle.pj_names.specs.ClassName.{Name, NameSet};
ghost use Rattle.pj_names.specs.Asking.{Asking, bind, names_of, value_of};
ghost use Rattle.pj_names.specs.Held.{AreOne, IsHeld, NeedThemselves};
ghost use Rattle.pj_names.specs.Meaning.{Outcome, Source, found_in, Done, Gives, over, after, whole, source_of, Agrees, AgreesAt, Means};
ghost use Rattle.pj_names.specs.Noting.{Notes};
ghost use Rattle.pj_names.specs.Told.{Asks, Told, World, Worlds, with_names, asked_after};
ghost use Rattle.pj_names.specs.Told.{all_needs};
ghost use Rattle.pj_names.specs.AnswerList.{or_absent};

/// Agreement: what a meaning gives over one source, it gives over every source that answers alike the names that were
/// asked; and so at each depth, with the names in the same order.
pub fn agreement<T>()
    ensures outcome { (first second : Source) (meaning : Asking T) → Agrees first second meaning }
    ensures depth { (depth : ℕ) (first second : Source) (meaning : Asking T) → AgreesAt depth first second meaning }
{}

/// Over a source a meaning comes to one outcome at most.
pub fn one_outcome<T>()
    ensures { (source : Source) (meaning : Asking T) (first second : Outcome T) → Means source meaning first → Means source meaning second → first ≡ second }
{}

/// What a call answers over an oracle that tells its world is what its meaning gives there: with the names that were noted
/// apart, and with those that were asked of an oracle of which none was asked before, where each name needs just itself.
/// Where the worlds of the oracle are one, that is what the meaning comes to over this world.
pub fn answers_are_meant<T, K>()
    ensures noted { (meaning : Asking T) (old new : Told K) (value : T) (names : NameSet) → IsTrue old.is_told → Asks meaning old new (Ok value) → Notes meaning old.is_told old.world set.empty names (Ok value)
        → IsHeld old.world meaning value names }
    ensures asked { (meaning : Asking T) (old new : Told K) (value : T) → IsTrue old.is_told → NeedThemselves old.world → old.asked ≡ set.empty → Asks meaning old new (Ok value) → IsHeld old.world meaning value new.asked }
    ensures meant { (worlds : Worlds) (world : Name → Answer) (meaning : Asking T) (value : T) (names : NameSet) → AreOne worlds world → IsHeld worlds meaning value names → Means (whole world) meaning (Gives value names) }
{}

/// Over a source that answers every name every meaning is done at each depth, with its value and its names.
pub fn whole_is_done<T>()
    ensures done { (depth : ℕ) (world : Name → Answer) (meaning : Asking T) → over depth (whole world) meaning ≡ Done (value_of depth world meaning) (names_of depth world meaning) }
    ensures listed { (answers : List (Name × Answer)) (name : Name) → source_of answers true name ≡ Some (or_absent (found_in answers name)) }
{}

/// In a sequence the names are united, and the first need is the result.
pub fn sequence_unites<S, T>()
    ensures { (depth : ℕ) (source : Source) (first : Asking S) (next : S → Asking T) → over depth source (bind first next) ≡ after (over depth source first) (λ value. over depth source (next value)) }
{}

/// What a meaning asks of an oracle are the needs of its names.
pub fn asked_are_needs<T>()
    ensures { (depth : ℕ) (world : World) (asked : NameSet) (meaning : Asking T) → asked_after depth world asked meaning ≡ with_names asked (all_needs world (names_of depth world.answer meaning)) }
{}
