//! A law of members, the contract of a call that does nothing.
ghost use Rattle.std.specs.Prelude.{ℕ, List};
ghost use Rattle.pj_names.specs.ClassName.{Name};
ghost use Rattle.pj_names.specs.Meaning.{Source, Agrees};
ghost use Rattle.pj_members.specs.Fields.{find_field as field_of};
ghost use Rattle.pj_members.specs.Methods.{methods_named as methods_of};
ghost use Rattle.pj_members.specs.Receivers.{field_of_receiver as field_in, methods_of_receiver as methods_in, supertype_of_receiver as supertype_in};
ghost use Rattle.pj_names.specs.JavaType.{Arguments};

/// Agreement: the field and the methods of a name, of a class and of a receiver, and the type arguments of a supertype of a receiver, are, over one source of
/// answers, what they are over every source that answers alike the names that were asked.
pub fn sources_agree()
    ensures fields { (first second : Source) (class : Name) (name : List ℕ) → Agrees first second (field_of class name) }
    ensures methods { (first second : Source) (class : Name) (name : List ℕ) → Agrees first second (methods_of class name) }
    ensures receiver_fields { (first second : Source) (class : Name) (arguments : Arguments) (name : List ℕ) → Agrees first second (field_in class arguments name) }
    ensures receiver_methods { (first second : Source) (class : Name) (arguments : Arguments) (name : List ℕ) → Agrees first second (methods_in class arguments name) }
    ensures supertypes { (first second : Source) (class : Name) (arguments : Arguments) (wanted : Name) → Agrees first second (supertype_in class arguments wanted) }
{}
