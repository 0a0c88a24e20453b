//! Laws of receivers, each the contract of a call that does nothing.

ghost use Rattle.std.specs.Prelude.{◌≡◌, ℕ, List};
ghost use Rattle.pj_names.specs.JavaType.{JavaType, Unknown};
ghost use Rattle.pj_names.specs.Asking.{Return};
ghost use Rattle.pj_names.specs.Meaning.{Source, Agrees};
ghost use Rattle.pj_tree.specs.Tree.{Tree};
ghost use Rattle.pj_receivers.specs.Elements.{element_of, iterated};
ghost use Rattle.pj_receivers.specs.Fields.{field_of, member_class as member_class_of};
ghost use Rattle.pj_names.specs.ClassName.{Name};

/// Agreement: what a name means of a receiver, the member class of a class, and what an enhanced `for` goes through, is, over one source of answers, what it is over every source that answers
/// alike the names that were asked.
pub fn sources_agree()
    ensures fields { (first second : Source) (t : Tree) (name : List ℕ) (receiver : JavaType) → Agrees first second (field_of t name receiver) }
    ensures classes { (first second : Source) (t : Tree) (class : Name) (name : List ℕ) → Agrees first second (member_class_of t class name) }
    ensures elements { (first second : Source) (ty : JavaType) → Agrees first second (iterated ty) }
{}

/// Of a type that is not known nothing is known, and nothing is asked.
pub fn unknown_receivers()
    ensures fields { (t : Tree) (name : List ℕ) → field_of t name Unknown ≡ Return Unknown }
    ensures elements { element_of Unknown ≡ Unknown }
    ensures iterated { iterated Unknown ≡ Return Unknown }
{}
