//! What is to be done, and what waits for a value.
use pj_base::Text;
use pj_xexpressions::{
    Additive, Compare, Expr, Function, Multiplicative, PmdFunction, Quantifier, SetOperator, Sign,
};
use pj_xsteps::{At, NodeItems};
use pj_xvalue::{Arguments, Sequence};

/// What an evaluation can begin with.
#[derive(Clone, Copy)]
pub enum Task<'e> {
    /// An expression.
    Expression(&'e Expr),
    /// `for` with these variables and this body.
    For(&'e [(Text, Expr)], &'e Expr),
    /// `some` or `every` with these variables and this test.
    Quantified(Quantifier, &'e [(Text, Expr)], &'e Expr),
}

/// For what items are the context in turn.
#[derive(Clone, Copy)]
pub enum Turn {
    /// Predicates: the items that pass them.
    Forward,
    /// Predicates of a reverse axis: the items that pass them, turned back to document order at the end.
    Backward,
    /// The steps of a path.
    Step,
    /// The parts of a simple map.
    Part,
}

/// An expression that is evaluated with each of some items as the context in turn.
#[derive(Drop)]
pub struct Turns<'e, 't> {
    pub what: Turn,
    pub part: &'e Expr,
    /// The items that are still to come, the next one last.
    pub left: Sequence<'t>,
    /// The position of the item whose turn it is, counted from 1, and 0 before the first.
    pub position: u64,
    /// How many items there are.
    pub size: u64,
    /// What the turns so far gave.
    pub found: Sequence<'t>,
    /// The parts behind this one.
    pub rest: &'e [Expr],
    /// The context around.
    pub outer: At<'t>,
}

/// A `for` whose first variable has one item after the other.
#[derive(Drop)]
pub struct ForTurns<'e, 't> {
    pub name: &'e Text,
    /// The items that are still to come, the next one last.
    pub left: Sequence<'t>,
    /// What the turns so far gave.
    pub found: Sequence<'t>,
    /// The variables behind this one.
    pub rest: &'e [(Text, Expr)],
    pub body: &'e Expr,
}

/// A `some` or `every` whose first variable has one item after the other.
#[derive(Drop)]
pub struct QuantifiedTurns<'e, 't> {
    pub quantifier: Quantifier,
    pub name: &'e Text,
    /// The items that are still to come, the next one last.
    pub left: Sequence<'t>,
    /// The variables behind this one.
    pub rest: &'e [(Text, Expr)],
    pub test: &'e Expr,
}

/// A variable whose sequence is awaited, with what stands behind it.
#[derive(Clone, Copy)]
pub struct Binder<'e> {
    pub name: &'e Text,
    /// The variables behind this one.
    pub rest: &'e [(Text, Expr)],
    /// The body or the test.
    pub body: &'e Expr,
}

/// What a variable is one of.
#[derive(Clone, Copy)]
pub enum Binding {
    /// A `for`.
    For,
    /// A `some` or `every`.
    Quantified(Quantifier),
    /// A `let` with so many variables before it.
    Let(usize),
}

/// What waits for the value of a task. With each stands what there is already, and what is left of the construct.
#[derive(Drop)]
pub enum Frame<'e, 't> {
    /// `a, b, ..`
    Items(Sequence<'t>, &'e [Expr]),
    /// `a || b || ..`
    Text(String, &'e [Expr]),
    /// `a | b | ..`
    Nodes(NodeItems<'t>, &'e [Expr]),
    /// The arguments of a function.
    Arguments(Function, Arguments<'t>, &'e [Expr]),
    /// The arguments of a function of PMD.
    PmdArguments(PmdFunction, Arguments<'t>, &'e [Expr]),
    /// The first operand of a sum.
    FirstTerm(&'e [(Additive, Expr)]),
    /// A further one behind its operator.
    Term(Option<i64>, Additive, &'e [(Additive, Expr)]),
    /// The first operand of a product.
    FirstFactor(&'e [(Multiplicative, Expr)]),
    /// A further one behind its operator.
    Factor(Option<i64>, Multiplicative, &'e [(Multiplicative, Expr)]),
    /// The first operand of `intersect` or `except`.
    FirstSet(&'e [(SetOperator, Expr)]),
    /// A further one behind its operator.
    Set(NodeItems<'t>, SetOperator, &'e [(SetOperator, Expr)]),
    /// `a or b or ..`, `a and b and ..`
    Truths(Quantifier, &'e [Expr]),
    /// The test of a `some` or `every`.
    Truth,
    /// The test of an `if`, before `then` and `else`.
    If(&'e Expr, &'e Expr),
    /// The left side of a comparison, before the right one.
    Left(Compare, &'e Expr),
    /// The right side of a comparison.
    Right(Compare, Sequence<'t>),
    /// The first operand of `to`, before the second one.
    From(&'e Expr),
    /// The second operand of `to`.
    To(Option<i64>),
    /// The operand of a sign.
    Sign(Sign),
    /// What stands before predicates, steps or parts.
    First(Turn, &'e [Expr]),
    /// One turn of several, which is changed in its place as they go on.
    Turns(Box<Turns<'e, 't>>),
    /// The sequence of a variable.
    Source(Binding, Binder<'e>),
    /// One turn of a `for`, which is changed in its place too.
    For(Box<ForTurns<'e, 't>>),
    /// One turn of a `some` or `every`, which is changed in its place too.
    Quantified(Box<QuantifiedTurns<'e, 't>>),
    /// The body of a `let` with so many variables.
    LetBody(usize),
}

/// How it goes on with a construct.
#[derive(Drop)]
pub enum Next<'e, 't> {
    /// This is its value.
    Value(Sequence<'t>),
    /// A task is done, and its value goes to the frame.
    Within(Task<'e>, Frame<'e, 't>),
    /// A task takes its place.
    Instead(Task<'e>),
    /// The predicates, steps or parts go over these items.
    Over(Turn, &'e [Expr], Sequence<'t>),
    /// A function of PMD is called, which gives its value.
    Reply(PmdFunction, Arguments<'t>),
}
