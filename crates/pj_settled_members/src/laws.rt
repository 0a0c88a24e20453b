//! Laws of the definitions, each the contract of a call that does nothing.
ghost use Rattle.std.specs.Prelude.{ℕ, List};
ghost use Rattle.pj_members.specs.Fields.{find_field};
ghost use Rattle.pj_members.specs.Methods.{methods_named};
ghost use Rattle.pj_members.specs.Receivers.{field_of_receiver, methods_of_receiver, supertype_of_receiver};
ghost use Rattle.pj_names.specs.ClassName.{Name};
ghost use Rattle.pj_names.specs.JavaType.{Arguments, JavaType};
ghost use Rattle.pj_operators.specs.Conditional.{conditional_type};
ghost use Rattle.pj_overload.specs.Choosing.{choose};
ghost use Rattle.pj_settling.specs.Settling.{FindsFinitely, Settles, World};
ghost use Rattle.pj_signature_patterns.specs.declared.pattern.SigPattern.{SigPattern};
ghost use Rattle.pj_type_tests.specs.Methods.{is_called_on};
ghost use Rattle.pj_type_tests.specs.Types.{type_is};
ghost use Rattle.pj_types.specs.Members.{FoundMethod};

/// In a world that finds finitely many classes the field and the methods of a name of a class come to something.
pub fn members_settle()
    ensures fields { (world : World) (class : Name) (name : List ℕ) → FindsFinitely world → Settles world (find_field class name) }
    ensures methods { (world : World) (class : Name) (name : List ℕ) → FindsFinitely world → Settles world (methods_named class name) }
{}

/// So do those of a receiver, and the type arguments with which a class stands among its supertypes.
pub fn members_of_receivers_settle()
    ensures fields { (world : World) (class : Name) (arguments : Arguments) (name : List ℕ) → FindsFinitely world → Settles world (field_of_receiver class arguments name) }
    ensures methods { (world : World) (class : Name) (arguments : Arguments) (name : List ℕ) → FindsFinitely world → Settles world (methods_of_receiver class arguments name) }
    ensures supertypes { (world : World) (class : Name) (arguments : Arguments) (wanted : Name) → FindsFinitely world → Settles world (supertype_of_receiver class arguments wanted) }
{}

/// So does the choice among methods by the types of arguments, and the type of a conditional expression.
pub fn choices_settle()
    ensures methods { (world : World) (methods : List FoundMethod) (types : List JavaType) (functions : List ℕ) → FindsFinitely world → Settles world (choose methods types functions) }
    ensures conditional { (world : World) (second third : JavaType) → FindsFinitely world → Settles world (conditional_type second third) }
{}

/// So does whether a type, or a class above it, has a name, and whether a method is as a signature pattern says.
pub fn type_tests_settle()
    ensures types { (world : World) (text : List ℕ) (ty : JavaType) → FindsFinitely world → Settles world (type_is text ty) }
    ensures methods { (world : World) (pattern : SigPattern) (receiver : JavaType) (parameters : List JavaType) → FindsFinitely world → Settles world (is_called_on pattern receiver parameters) }
{}
