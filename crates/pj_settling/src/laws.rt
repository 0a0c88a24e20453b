//! Laws of the definitions, each the contract of a call that does nothing.
ghost use Rattle.std.specs.Prelude.{List, Option};
ghost use Rattle.pj_names.specs.declared.answer.Answer.{Answer};
ghost use Rattle.pj_names.specs.Asking.{Asking, Return, ask, bind, each, first_hit};
ghost use Rattle.pj_names.specs.ClassName.{Name};
ghost use Rattle.pj_names.specs.Expand.{expand};
ghost use Rattle.pj_names.specs.JavaType.{JavaType};
ghost use Rattle.pj_types.specs.NameSearch.{name_search};
ghost use Rattle.pj_types.specs.Subtyping.{is_under};
ghost use Rattle.pj_types.specs.Supertypes.{search, supertype_list};
ghost use Rattle.pj_settling.specs.Settling.{FindsFinitely, Settles, World};

/// A value, one name asked, one meaning after another, and those of the members of a list come to something over a world, if their parts do.
pub fn made_meanings_settle<S, T>()
    ensures value { (world : World) (value : T) → Settles world (Return value) }
    ensures name { (world : World) (name : Name) → Settles world (ask name) }
    ensures sequence { (world : World) (first : Asking S) (next : S → Asking T) → Settles world first → ((value : S) → Settles world (next value)) → Settles world (bind first next) }
    ensures members { (world : World) (meaning : S → Asking T) (list : List S) → ((member : S) → Settles world (meaning member)) → Settles world (each meaning list) }
    ensures hit { (world : World) (meaning : S → Asking (Option T)) (list : List S) → ((member : S) → Settles world (meaning member)) → Settles world (first_hit meaning list) }
{}

/// Where meanings of their own stand in the places of names, and come to answers, a meaning comes to something if it does over the world of these answers.
pub fn expanded_meanings_settle<T>()
    ensures { (world : World) (answer_of : Name → Asking Answer) (answers : (name : Name) → Settles world (answer_of name)) (meaning : Asking T)
        → Settles (λ name. (answers name).value) meaning → Settles world (expand answer_of meaning) }
{}

/// In a world that finds finitely many classes a search along supertypes comes to something, if its test does: so each class has its list of supertypes.
pub fn searches_settle<T>()
    ensures types { (world : World) (test : JavaType → Asking (Option T)) (name : Name) → FindsFinitely world → ((ty : JavaType) → Settles world (test ty)) → Settles world (search test name) }
    ensures names { (world : World) (test : Name → Asking (Option T)) (name : Name) → FindsFinitely world → ((class : Name) → Settles world (test class)) → Settles world (name_search test name) }
    ensures lists { (world : World) (name : Name) → FindsFinitely world → Settles world (supertype_list name) }
{}

/// So does subtyping.
pub fn subtyping_settles()
    ensures { (world : World) (lower upper : JavaType) → FindsFinitely world → Settles world (is_under lower upper) }
{}
