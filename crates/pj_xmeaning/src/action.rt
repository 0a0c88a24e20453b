//! What the productions make of the values of their rules.

use pj_xexpressions::{Additive, Compare, Multiplicative, SetOperator, Sign};
use pj_xreadings::{Binder, Chain, Kind};

/// What a production makes. A rule's value is made by its production from the values of the rules in it, of which an action has
/// as many as is said here, and from the tokens from the one on at which it begins.
#[derive(Clone, Copy)]
pub enum Action {
    /// No value.
    Leaf(Leaf),
    /// One value, of which no expression is made.
    Change(Change),
    /// One value, of which an expression is made.
    Single(Single),
    /// Two values, of which no expression is made.
    Rest(Rest),
    /// Two values: an operand, and what stands behind it.
    Operation(Operation),
    /// Two values: variables, and what follows them.
    Binder(Binder),
    /// Two values: what a step or a primary expression begins with, and what stands behind it.
    Step(Step),
    /// Three values: the test of an `if`, what is chosen and what is chosen otherwise (XPath 2.0, 3.8).
    If,
    /// Three values: a variable's name, its expression, and further variables.
    Binding,
}

/// A value of a token, or of no token.
#[derive(Clone, Copy)]
pub enum Leaf {
    /// The end of expressions in a row.
    NoOperands,
    /// The end of variables.
    NoBindings,
    /// Nothing that an operand is compared with.
    NoComparison,
    /// Nothing up to which an operand ranges.
    NoRange,
    /// The end of a sum.
    NoSums,
    /// The end of a product.
    NoProducts,
    /// The end of `intersect` and `except`.
    NoSets,
    /// The end of arguments.
    NoArguments,
    /// No parentheses of a kind test.
    NoParentheses,
    /// The parentheses of a kind test.
    Parentheses,
    /// Nothing that is left out, or what is left out, of which nothing is made.
    LeftOut,
    /// The token's characters.
    Word,
    /// The integer that the digits write (XPath 2.0, 3.1.1).
    Integer,
    /// The string that the literal writes (XPath 2.0, 3.1.1).
    String,
    /// The empty sequence (XPath 2.0, 3.1.3).
    EmptySequence,
    /// `/` alone (XPath 2.0, 3.2).
    Root,
    /// The test for the name that the token is (XPath 2.0, 3.2.1.2).
    NameTest,
    /// The test `*` (XPath 2.0, 3.2.1.2).
    AnyNameTest,
}

/// A value of one other, which is no expression.
#[derive(Clone, Copy)]
pub enum Change {
    /// The variables themselves.
    Bindings,
    /// The name itself.
    Word,
    /// The second operand of a comparison behind its operator (XPath 2.0, 3.5.2).
    Compared(Compare),
    /// The operand up to which another one ranges (XPath 2.0, 3.3.1).
    UpTo,
    /// The test for a name.
    NameTest,
    /// The test for a kind, or for the name that the token is.
    KindTest(Kind),
    /// The predicates behind a name.
    Predicates,
}

/// An expression of one value.
#[derive(Clone, Copy)]
pub enum Single {
    /// The expression itself.
    Same,
    /// The expression in parentheses.
    Parenthesized,
    /// The operand of a sign (XPath 2.0, 3.4).
    Signed(Sign),
    /// The steps of a path behind `/` (XPath 2.0, 3.2).
    RootedPath,
    /// The steps of a path behind `//` (XPath 2.0, 3.2).
    RootedDescendants,
    /// The steps of a path, or the only one.
    RelativePath,
    /// `.` with its predicates (XPath 2.0, 3.1.4 and 3.3.2).
    ContextItem,
    /// `..` with its predicates (XPath 2.0, 3.2.4).
    ParentStep,
    /// `*` with its predicates.
    AnyNameStep,
    /// The name of an axis, which the token is, with what stands behind it: a test of the axis, arguments, or predicates.
    AxisStep,
    /// The name of a variable (XPath 2.0, 3.1.2).
    Variable,
}

/// A value of two others that is no expression.
#[derive(Clone, Copy)]
pub enum Rest {
    /// An expression before others.
    Further,
    /// A step behind `//` before others (XPath 2.0, 3.2.4).
    FurtherDescendants,
    /// An operand of a sum behind its operator, before others.
    FurtherSum(Additive),
    /// An operand of a product behind its operator, before others.
    FurtherProduct(Multiplicative),
    /// An operand of `intersect` or `except` behind it, before others.
    FurtherSet(SetOperator),
    /// The first argument of a call, before others.
    FirstArgument,
    /// A further argument behind its `,`, before others.
    FurtherArgument,
    /// A test of the axis before it, with its predicates.
    AxisTest,
    /// Arguments in parentheses, with the predicates behind them.
    Called,
}

/// An expression of an operand and what stands behind it: the operand itself where that is nothing.
#[derive(Clone, Copy)]
pub enum Operation {
    /// Further operands of a chain.
    Chain(Chain),
    /// `a = b` and the like (XPath 2.0, 3.5.2).
    Comparison,
    /// `a to b` (XPath 2.0, 3.3.1).
    Range,
    /// `a + b - ..` (XPath 2.0, 3.4).
    Sum,
    /// `a * b idiv ..` (XPath 2.0, 3.4).
    Product,
    /// `a intersect b except ..` (XPath 2.0, 3.3.3).
    Sets,
    /// An operand behind which something could stand that is left out.
    Operand,
}

/// What a step or a primary expression begins with.
#[derive(Clone, Copy)]
pub enum Step {
    /// A primary expression (XPath 2.0, 3.3.2).
    Primary,
    /// The test behind `@` (XPath 2.0, 3.2.4).
    Attribute,
    /// The parentheses of a kind test, or none: then the token is a name.
    Kind(Kind),
    /// A name, behind which arguments or predicates stand.
    Name,
}
