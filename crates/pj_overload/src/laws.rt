//! Laws of the choice among methods, each the contract of a call that does nothing.
ghost use Rattle.std.specs.Prelude.{◌≡◌, ℕ, ◌<◌, List, length};
ghost use Rattle.pj_names.specs.declared.answer.Answer.{Answer};
ghost use Rattle.pj_names.specs.Asking.{value_of};
ghost use Rattle.pj_names.specs.ClassName.{Name};
ghost use Rattle.pj_names.specs.JavaType.{JavaType};
ghost use Rattle.pj_names.specs.Meaning.{Source, Agrees};
ghost use Rattle.pj_types.specs.Members.{FoundMethod};
ghost use Rattle.pj_overload.specs.declared.choice.Choice.TheVariants.{One};
ghost use Rattle.pj_overload.specs.Choosing.{choose as choice_of};

/// Agreement: what the choice among methods is over one source of answers, it is over every source that answers alike the names
/// that were asked.
pub fn sources_agree()
    ensures { (first second : Source) (methods : List FoundMethod) (types : List JavaType) (functions : List ℕ) → Agrees first second (choice_of methods types functions) }
{}

/// What is chosen is one of the candidates: its number, counted from 0, is less than how many they are.
pub fn one_is_a_candidate()
    ensures { (depth : ℕ) (world : Name → Answer) (methods : List FoundMethod) (types : List JavaType) (functions : List ℕ) (number : ℕ) → value_of depth world (choice_of methods types functions) ≡ One number → number < length methods }
{}
