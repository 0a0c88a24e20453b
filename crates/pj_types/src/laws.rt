//! Laws of supertypes and subtyping, each the contract of a call that does nothing.
ghost use Rattle.std.specs.Prelude.{◌≡◌, ◌<◌, ◌≤◌, [], ℕ, List, Option, length, map, nat_eq, take};
ghost use Rattle.std.specs.Cmp.Lexicographic.{pointwise};
ghost use Rattle.std.specs.List.{IsDistinct};
ghost use Rattle.pj_names.specs.declared.answer.Answer.{Answer};
ghost use Rattle.pj_names.specs.AnswerList.{list_world};
ghost use Rattle.pj_names.specs.Asking.{Asking, has_name, names_of, value_of};
ghost use Rattle.pj_names.specs.ClassName.{Name, NameSet, name_set};
ghost use Rattle.pj_names.specs.JavaType.{Arguments, Class, JavaType, Null, Unknown, Void};
ghost use Rattle.pj_names.specs.Meaning.{Done, Gives, Means, Source, over, whole, Agrees};
ghost use Rattle.pj_types.specs.Listing.{AreSupertypes, asked_names};
ghost use Rattle.pj_types.specs.Substitution.{erased, substituted};
ghost use Rattle.pj_types.specs.Subtyping.{is_null, is_null_under, is_under, is_unknown, is_void};
ghost use Rattle.pj_types.specs.Supertypes.{Standing, begin, class_name, last_asked, search, step, supertype_list, supertypes_of};
ghost use Rattle.pj_types.specs.WalkAnswers.{answers};
ghost use Rattle.std.specs.Prelude.{true};

/// Erasing twice is erasing once, and a substitution without bindings replaces nothing.
pub fn erasure_is_done_once()
    ensures erasure { (ty : JavaType) → erased (erased ty) ≡ erased ty }
    ensures nothing_bound { (ty : JavaType) → substituted [] ty ≡ ty }
{}

/// Agreement: what the supertypes of a class are over one source of answers, and whether a type is under another one, and
/// what a search along the supertypes comes to, they are over every source that answers alike the names that were asked.
pub fn sources_agree<T>()
    ensures supertypes { (first second : Source) (name : Name) → Agrees first second (supertypes_of name) }
    ensures subtyping { (first second : Source) (lower upper : JavaType) → Agrees first second (is_under lower upper) }
    ensures search { (first second : Source) (test : JavaType → Asking (Option T)) (name : Name) → Agrees first second (search test name) }
{}

/// What the list of supertypes means is the list that the recursion leads to; where it leads to one, that is meant, and its
/// classes but `java.lang.Object` are asked: at each depth from its length on in their order. In a world that names finitely many classes there is one for each
/// class, and nowhere are there two. Each class stands there once.
pub fn lists_are_the_recursion()
    ensures recursion { (world : Name → Answer) (name : Name) (types : List JavaType) (names : NameSet) → Means (whole world) (supertype_list name) (Gives types names) → AreSupertypes world name types }
    ensures meant { (world : Name → Answer) (name : Name) (types : List JavaType) → AreSupertypes world name types → Means (whole world) (supertype_list name) (Gives types (name_set (asked_names (map class_name types)))) }
    ensures order { (world : Name → Answer) (name : Name) (types : List JavaType) (depth : ℕ) → AreSupertypes world name types → length types ≤ depth → over depth (whole world) (supertype_list name) ≡ Done types (asked_names (map class_name types)) }
    ensures there { (answers : List (Name × Answer)) (name : Name) → (types : List JavaType) × AreSupertypes (list_world answers).answer name types }
    ensures one { (world : Name → Answer) (name : Name) (first second : List JavaType) → AreSupertypes world name first → AreSupertypes world name second → first ≡ second }
    ensures once { (world : Name → Answer) (name : Name) (types : List JavaType) → AreSupertypes world name types → IsDistinct (pointwise nat_eq) (map class_name types) }
{}

/// A walk gives the list of supertypes: its first answers are the first members of the list. A step asks the class that was
/// given last, unless that is `java.lang.Object`, and nothing else.
pub fn walks_give_the_list()
    ensures prefix { (world : Name → Answer) (name : Name) (count depth : ℕ) → count ≤ depth → value_of depth world (answers count (begin name)) ≡ take count (value_of depth world (supertype_list name)) }
    ensures asks { (depth : ℕ) (world : Name → Answer) (standing : Standing) → names_of depth world (step standing) ≡ last_asked standing.given }
{}

/// A class is under just those classes that are on its list of supertypes, and each type is under itself.
pub fn subtyping_is_by_the_list()
    ensures classes { (depth : ℕ) (world : Name → Answer) (lower upper : Name) (arguments others : Arguments) → 0 < depth
        → value_of depth world (is_under (Class lower arguments) (Class upper others)) ≡ has_name (map class_name (value_of depth world (supertype_list lower))) upper }
    ensures itself { (depth : ℕ) (world : Name → Answer) (ty : JavaType) → value_of depth world (is_under ty ty) ≡ true }
{}

/// The type of `null`, `void` and the type that is not known (JLS 4.1, 4.10): the type of `null` is under itself, each class and each
/// array, and `void` and the type that is not known are under themselves alone. Nothing else is under one of the three.
pub fn special_types_are_apart()
    ensures null_below { (depth : ℕ) (world : Name → Answer) (ty : JavaType) → value_of depth world (is_under Null ty) ≡ is_null_under (erased ty) }
    ensures null_above { (depth : ℕ) (world : Name → Answer) (ty : JavaType) → value_of depth world (is_under ty Null) ≡ is_null (erased ty) }
    ensures void_below { (depth : ℕ) (world : Name → Answer) (ty : JavaType) → value_of depth world (is_under Void ty) ≡ is_void (erased ty) }
    ensures void_above { (depth : ℕ) (world : Name → Answer) (ty : JavaType) → value_of depth world (is_under ty Void) ≡ is_void (erased ty) }
    ensures unknown_below { (depth : ℕ) (world : Name → Answer) (ty : JavaType) → value_of depth world (is_under Unknown ty) ≡ is_unknown (erased ty) }
    ensures unknown_above { (depth : ℕ) (world : Name → Answer) (ty : JavaType) → value_of depth world (is_under ty Unknown) ≡ is_unknown (erased ty) }
{}
