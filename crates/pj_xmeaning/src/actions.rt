//! What the productions make, by their numbers.

ghost use Rattle.std.specs.Prelude.{◌≡◌};
ghost use Rattle.pj_xmeaning.specs.Actions.{actions, action_of};

use crate::action::{Action, Change, Leaf, Operation, Rest, Single, Step};
use pj_xexpressions::{Additive, Compare, Multiplicative, Quantifier, SetOperator, Sign};
use pj_xreadings::{Binder, Chain, Kind};

const LEFT_OUT: Action = Action::Leaf(Leaf::LeftOut);

const NO_OPERANDS: Action = Action::Leaf(Leaf::NoOperands);

const WORD: Action = Action::Leaf(Leaf::Word);

const SAME: Action = Action::Single(Single::Same);

const FURTHER: Action = Action::Rest(Rest::Further);

/// The actions of the productions by their numbers.
#[rattlefmt::skip]
static ACTIONS: [Action; 159] = [
    // Expr
    Action::Operation(Operation::Chain(Chain::Comma)),
    // ExprTail
    FURTHER, NO_OPERANDS,
    // ExprSingle
    Action::Binder(Binder::For), Action::Binder(Binder::Let), Action::Binder(Binder::Quantified(Quantifier::Some)),
    Action::Binder(Binder::Quantified(Quantifier::Every)), Action::If, SAME,
    // InBindings
    Action::Binding,
    // InBindingsTail
    Action::Change(Change::Bindings), Action::Leaf(Leaf::NoBindings),
    // LetBindings
    Action::Binding,
    // LetBindingsTail
    Action::Change(Change::Bindings), Action::Leaf(Leaf::NoBindings),
    // InClause
    SAME,
    // AssignClause
    SAME,
    // ReturnClause
    SAME,
    // SatisfiesClause
    SAME,
    // TestClause
    SAME,
    // ThenClause
    SAME,
    // ElseClause
    SAME,
    // OrExpr
    Action::Operation(Operation::Chain(Chain::Or)),
    // OrTail
    FURTHER, NO_OPERANDS,
    // AndExpr
    Action::Operation(Operation::Chain(Chain::And)),
    // AndTail
    FURTHER, NO_OPERANDS,
    // ComparisonExpr
    Action::Operation(Operation::Comparison),
    // ComparisonTail
    Action::Change(Change::Compared(Compare::Equal)), Action::Change(Change::Compared(Compare::NotEqual)),
    Action::Change(Change::Compared(Compare::Less)), Action::Change(Change::Compared(Compare::LessOrEqual)),
    Action::Change(Change::Compared(Compare::Greater)), Action::Change(Change::Compared(Compare::GreaterOrEqual)),
    Action::Leaf(Leaf::NoComparison),
    // StringConcatExpr
    Action::Operation(Operation::Chain(Chain::Concatenation)),
    // StringConcatTail
    FURTHER, NO_OPERANDS,
    // RangeExpr
    Action::Operation(Operation::Range),
    // RangeTail
    Action::Change(Change::UpTo), Action::Leaf(Leaf::NoRange),
    // AdditiveExpr
    Action::Operation(Operation::Sum),
    // AdditiveTail
    Action::Rest(Rest::FurtherSum(Additive::Plus)), Action::Rest(Rest::FurtherSum(Additive::Minus)),
    Action::Leaf(Leaf::NoSums),
    // MultiplicativeExpr
    Action::Operation(Operation::Product),
    // MultiplicativeTail
    Action::Rest(Rest::FurtherProduct(Multiplicative::Times)),
    Action::Rest(Rest::FurtherProduct(Multiplicative::IntegerDivide)),
    Action::Rest(Rest::FurtherProduct(Multiplicative::Modulo)), Action::Leaf(Leaf::NoProducts),
    // UnionExpr
    Action::Operation(Operation::Chain(Chain::Union)),
    // UnionTail
    FURTHER, FURTHER, NO_OPERANDS,
    // IntersectExceptExpr
    Action::Operation(Operation::Sets),
    // IntersectExceptTail
    Action::Rest(Rest::FurtherSet(SetOperator::Intersect)), Action::Rest(Rest::FurtherSet(SetOperator::Except)),
    Action::Leaf(Leaf::NoSets),
    // UnaryExpr
    Action::Single(Single::Signed(Sign::Minus)), Action::Single(Single::Signed(Sign::Plus)), SAME,
    // SimpleMapExpr
    Action::Operation(Operation::Chain(Chain::SimpleMap)),
    // SimpleMapTail
    FURTHER, NO_OPERANDS,
    // Operand
    Action::Operation(Operation::Operand),
    // LeftOutOperator
    LEFT_OUT, LEFT_OUT, LEFT_OUT, LEFT_OUT, LEFT_OUT, LEFT_OUT, LEFT_OUT, LEFT_OUT, LEFT_OUT, LEFT_OUT, LEFT_OUT, LEFT_OUT,
    LEFT_OUT, LEFT_OUT, LEFT_OUT, LEFT_OUT, LEFT_OUT, LEFT_OUT, LEFT_OUT,
    // PathExpr
    Action::Leaf(Leaf::Root), Action::Single(Single::RootedPath), Action::Single(Single::RootedDescendants),
    Action::Single(Single::RelativePath),
    // RelativePathExpr
    FURTHER,
    // RelativePathTail
    FURTHER, Action::Rest(Rest::FurtherDescendants), NO_OPERANDS,
    // StepExpr
    Action::Single(Single::ContextItem), Action::Step(Step::Primary), Action::Single(Single::ParentStep),
    Action::Step(Step::Attribute), Action::Single(Single::AxisStep), Action::Single(Single::AnyNameStep),
    Action::Step(Step::Kind(Kind::Node)), Action::Step(Step::Kind(Kind::Element)), Action::Step(Step::Name), LEFT_OUT,
    LEFT_OUT, LEFT_OUT, LEFT_OUT, LEFT_OUT, LEFT_OUT, LEFT_OUT,
    // AxisTail
    Action::Rest(Rest::AxisTest), Action::Rest(Rest::Called), Action::Change(Change::Predicates),
    // NameTail
    Action::Rest(Rest::Called), Action::Change(Change::Predicates),
    // NodeTest
    Action::Change(Change::NameTest), Action::Leaf(Leaf::NameTest), Action::Leaf(Leaf::AnyNameTest),
    Action::Change(Change::KindTest(Kind::Node)), Action::Change(Change::KindTest(Kind::Element)),
    // KindTail
    Action::Leaf(Leaf::Parentheses), Action::Leaf(Leaf::NoParentheses),
    // PredicateList
    FURTHER, NO_OPERANDS,
    // PrimaryExpr
    Action::Leaf(Leaf::Integer), Action::Leaf(Leaf::String), Action::Single(Single::Variable),
    Action::Single(Single::Parenthesized),
    // Parenthesized
    SAME, Action::Leaf(Leaf::EmptySequence),
    // Arguments
    Action::Rest(Rest::FirstArgument), Action::Leaf(Leaf::NoArguments),
    // ArgumentsTail
    Action::Rest(Rest::FurtherArgument), Action::Leaf(Leaf::NoArguments),
    // VarName
    Action::Change(Change::Word), WORD, WORD, WORD,
    // PlainName
    WORD, WORD, WORD, WORD, WORD, WORD, WORD, WORD, WORD, WORD, WORD, WORD, WORD, WORD, WORD, WORD, WORD, WORD, WORD,
    WORD, WORD, WORD,
];

/// The actions of the productions by their numbers.
#[tactic(none)]
fn actions() -> &'static [Action]
    ensures { result.now ≡ actions }
{
    &ACTIONS
}

/// What a production makes, by its number; no value, where there is no production with the number.
pub fn action_of(production: u16) -> Action
    ensures { result ≡ action_of production }
{
    match actions().get(production as usize) {
        Some(action) => *action,
        None => LEFT_OUT,
    }
}
