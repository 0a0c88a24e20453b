//! Laws of types, each the contract of a call that does nothing.

ghost use Rattle.std.specs.Prelude.{◌≡◌, ◌<◌, ◌+◌, ℕ, Some, [], length};
ghost use Rattle.pj_names.specs.declared.ty.PrimitiveType.TheVariants as p;
ghost use Rattle.pj_names.specs.Asking.{Asking, Return};
ghost use Rattle.pj_names.specs.JavaType.{JavaType, Primitive};
ghost use Rattle.pj_names.specs.Expand.{expand};
ghost use Rattle.pj_names.specs.Meaning.{Source, Agrees};
ghost use Rattle.pj_calls.specs.Calls.{call_type};
ghost use Rattle.pj_tree.specs.Tree.{IsSyntaxTree, Tree, kind_of};
ghost use Rattle.pj_tree.specs.Words.{last_of, words_of};
ghost use Rattle.pj_tree.specs.declared.kind.Kind.TheVariants as k;
ghost use Rattle.pj_tree.specs.declared.node.Node.{Node};
ghost use Rattle.pj_types.specs.Conversions.{promoted};
ghost use Rattle.pj_operators.specs.Conditional.{conditional_type};
ghost use Rattle.pj_operators.specs.declared.operators.Infix.TheVariants as i;
ghost use Rattle.pj_operators.specs.declared.operators.Unary.TheVariants as u;
ghost use Rattle.pj_receivers.specs.Elements.{element_of};
ghost use Rattle.pj_receivers.specs.Fields.{field_of};
ghost use Rattle.pj_file_oracle.specs.FileAnswer.{file_answer};
ghost use Rattle.pj_exprtypes.specs.ByKind.{IsOfBoth, IsOfFirst, IsOfLeft, IsOfNone, IsOfNoOperand, IsOfOperand, IsOfSecondAndThird};
ghost use Rattle.pj_exprtypes.specs.Declarations.{var_type};
ghost use Rattle.pj_exprtypes.specs.TypeOf.{deep, earlier, type_of, typed, typed_before, whole_type};

/// Agreement: the type of a node over the oracle of a file is, over one source of answers, what it is over every source that answers alike the names that were
/// asked of the oracle beneath.
pub fn sources_agree()
    ensures { (first second : Source) (t : Tree) (n : Node) → Agrees first second (expand (file_answer t) (type_of t n)) }
{}

/// In a syntax tree the type of a node is made of the whole types of its operands, however deep they lie. A variable that is declared by `var` has the type that its source has
/// where the variables before it have their whole types; the variable itself and later ones have none there.
pub fn types_go_on()
    ensures nodes { (t : Tree) → IsSyntaxTree t → (n : Node) → type_of t n ≡ whole_type t (earlier t (length t.nodes)) (type_of t) n }
    ensures deeper { (t : Tree) → IsSyntaxTree t → (var : Node → Asking JavaType) (more : ℕ) (n : Node) → typed t var (deep t + more) n ≡ typed t var (deep t) n }
    ensures variables { (t : Tree) (id : Node) → id.0 < length t.nodes → earlier t (length t.nodes) id ≡ var_type t (typed_before t id.0) id }
{}

/// What each kind of expressions makes of the types of its operands, in a syntax tree: so the operands and their use fit each other.
pub fn expressions_are_of_operands()
    ensures fields { (t : Tree) → IsSyntaxTree t → IsOfFirst t k.FieldAccess (λ n ty. field_of t (last_of [] (words_of t n)) ty) }
    ensures arrays { (t : Tree) → IsSyntaxTree t → IsOfFirst t k.ArrayAccess (λ n ty. Return (element_of ty)) }
    ensures assignments { (t : Tree) → IsSyntaxTree t → IsOfFirst t k.AssignmentExpression (λ n ty. Return ty) }
    ensures conditionals { (t : Tree) → IsSyntaxTree t → IsOfSecondAndThird t k.ConditionalExpression conditional_type }
    ensures tests { (t : Tree) → IsSyntaxTree t → IsOfNone t i.Test (Primitive p.Boolean) }
    ensures shifts { (t : Tree) → IsSyntaxTree t → IsOfLeft t i.Shift promoted }
    ensures sums { (t : Tree) → IsSyntaxTree t → IsOfBoth t i.Sum }
    ensures bits { (t : Tree) → IsSyntaxTree t → IsOfBoth t i.Bitwise }
    ensures arithmetic { (t : Tree) → IsSyntaxTree t → IsOfBoth t i.Arithmetic }
    ensures negations { (t : Tree) → IsSyntaxTree t → IsOfNoOperand t u.Not (Primitive p.Boolean) }
    ensures steps { (t : Tree) → IsSyntaxTree t → IsOfOperand t u.Step (λ ty. ty) }
    ensures signs { (t : Tree) → IsSyntaxTree t → IsOfOperand t u.Sign promoted }
{}

/// The type of a method call is the result of the method that is chosen for it, by the whole types of its receiver and of its arguments (JLS 15.12).
pub fn calls_are_chosen()
    ensures { (t : Tree) → IsSyntaxTree t → (n : Node) → kind_of t n ≡ Some k.MethodCall → type_of t n ≡ call_type t (type_of t) n }
{}
