//! Laws of operators, each the contract of a call that does nothing.

ghost use Rattle.std.specs.Prelude.{◌≡◌, ◌↔◌, IsTrue};
ghost use Rattle.pj_names.specs.JavaType.{JavaType, Unknown};
ghost use Rattle.pj_operators.specs.Conditional.{conditional_type};
ghost use Rattle.pj_types.specs.Conversions.{promoted, promoted_both};
ghost use Rattle.pj_operators.specs.Operators.{bitwise_type, infix_type, is_string, sum_type, unary_type};
ghost use Rattle.pj_operators.specs.Same.{same_type};
ghost use Rattle.pj_operators.specs.declared.operators.Infix.TheVariants as i;
ghost use Rattle.pj_operators.specs.declared.operators.Unary.TheVariants as u;
ghost use Rattle.pj_names.specs.Asking.{Return};
ghost use Rattle.pj_names.specs.Meaning.{Source, Agrees};
ghost use Rattle.std.specs.Prelude.{false};

/// Promotion of two types is commutative, and of a type with itself it is unary promotion; `+`, `&`, `^` and `|` are commutative too.
pub fn promotion_is_commutative()
    ensures promotion { (first second : JavaType) → promoted_both first second ≡ promoted_both second first }
    ensures alone { (ty : JavaType) → promoted_both ty ty ≡ promoted ty }
    ensures sums { (first second : JavaType) → sum_type first second ≡ sum_type second first }
    ensures bits { (first second : JavaType) → bitwise_type first second ≡ bitwise_type second first }
{}

/// Where an operand that is looked at has no known type, neither has the expression, and nothing is asked.
pub fn unknown_operands()
    ensures unary { unary_type u.Sign Unknown ≡ Unknown }
    ensures steps { unary_type u.Step Unknown ≡ Unknown }
    ensures shift { (second : JavaType) → infix_type i.Shift Unknown second ≡ Unknown }
    ensures left { (second : JavaType) → infix_type i.Arithmetic Unknown second ≡ Unknown }
    ensures right { (first : JavaType) → infix_type i.Arithmetic first Unknown ≡ Unknown }
    ensures left_bits { (second : JavaType) → infix_type i.Bitwise Unknown second ≡ Unknown }
    ensures right_bits { (first : JavaType) → infix_type i.Bitwise first Unknown ≡ Unknown }
    ensures second { (third : JavaType) → conditional_type Unknown third ≡ Return Unknown }
    ensures third { (second : JavaType) → conditional_type second Unknown ≡ Return Unknown }
{}

/// Of a sum it is so where the other operand is no String.
pub fn unknown_sums()
    ensures left { (second : JavaType) → is_string second ≡ false → infix_type i.Sum Unknown second ≡ Unknown }
    ensures right { (first : JavaType) → is_string first ≡ false → infix_type i.Sum first Unknown ≡ Unknown }
{}

/// Types are the same exactly where they are equal.
pub fn same_types_are_equal()
    ensures { (ty other : JavaType) → IsTrue (same_type ty other) ↔ (ty ≡ other) }
{}

/// Agreement: the type of a conditional expression is, over one source of answers, what it is over every source that answers alike the names that were asked.
pub fn sources_agree()
    ensures { (first second : Source) (ty other : JavaType) → Agrees first second (conditional_type ty other) }
{}
