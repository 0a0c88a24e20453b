//! The rules of the grammar.

/// A rule of the grammar. The productions stand in `specs/XPath.antt`. A rule's number is its place here, counted from 0.
#[derive(Clone, Copy, PartialEq, Eq)]
pub enum Rule {
    /// expressions with commas between them (XPath 2.0, A.1, 2: Expr)
    Expr,
    /// the commas of an `Expr`, and what stands behind them
    ExprTail,
    /// an expression without a comma (XPath 2.0, A.1, 3: ExprSingle; 4: ForExpr; 6: QuantifiedExpr; 7: IfExpr; XPath 3.1, 3.10: LetExpr)
    ExprSingle,
    /// the bindings of a `for`, a `some` or an `every` (XPath 2.0, A.1, 5 and 6)
    InBindings,
    /// a comma and further bindings, or nothing
    InBindingsTail,
    /// the bindings of a `let` (XPath 3.1, 3.10)
    LetBindings,
    /// a comma and further bindings, or nothing
    LetBindingsTail,
    /// `in` and the sequence of a variable
    InClause,
    /// `:=` and the value of a variable
    AssignClause,
    /// `return` and what is returned
    ReturnClause,
    /// `satisfies` and the test
    SatisfiesClause,
    /// the test of an `if` in its parentheses
    TestClause,
    /// `then` and what is chosen
    ThenClause,
    /// `else` and what is chosen otherwise
    ElseClause,
    /// XPath 2.0, A.1, 8
    OrExpr,
    /// the operators of the level, and their operands
    OrTail,
    /// XPath 2.0, A.1, 9
    AndExpr,
    /// the operators of the level, and their operands
    AndTail,
    /// a general comparison; two do not follow each other (XPath 2.0, A.1, 10 and 22)
    ComparisonExpr,
    /// the operators of the level, and their operands
    ComparisonTail,
    /// XPath 3.1, 3.6
    StringConcatExpr,
    /// the operators of the level, and their operands
    StringConcatTail,
    /// XPath 2.0, A.1, 11
    RangeExpr,
    /// the operators of the level, and their operands
    RangeTail,
    /// XPath 2.0, A.1, 12
    AdditiveExpr,
    /// the operators of the level, and their operands
    AdditiveTail,
    /// XPath 2.0, A.1, 13, without `div`
    MultiplicativeExpr,
    /// the operators of the level, and their operands
    MultiplicativeTail,
    /// XPath 2.0, A.1, 14
    UnionExpr,
    /// the operators of the level, and their operands
    UnionTail,
    /// XPath 2.0, A.1, 15, whose operands are here those of 20
    IntersectExceptExpr,
    /// the operators of the level, and their operands
    IntersectExceptTail,
    /// XPath 2.0, A.1, 20
    UnaryExpr,
    /// XPath 3.1, 3.15
    SimpleMapExpr,
    /// the operators of the level, and their operands
    SimpleMapTail,
    /// a path, behind which an operator that is left out can stand
    Operand,
    /// nothing, or what is left out behind an operand
    LeftOutOperator,
    /// XPath 2.0, A.1, 25
    PathExpr,
    /// XPath 2.0, A.1, 26
    RelativePathExpr,
    /// the operators of the level, and their operands
    RelativePathTail,
    /// a step over an axis, a primary expression with its predicates, or what is left out where a step can begin (XPath 2.0, A.1, 27)
    StepExpr,
    /// what stands behind the name of an axis: a node test of it, arguments, or nothing, so that it is the test
    AxisTail,
    /// what stands behind a name: arguments, or nothing, so that it is a node test
    NameTail,
    /// XPath 2.0, A.1, 35
    NodeTest,
    /// what stands behind `node` or `element`: the parentheses of a kind test, or nothing, so that it is a name
    KindTail,
    /// XPath 2.0, A.1, 39
    PredicateList,
    /// a literal, a variable or parentheses (XPath 2.0, A.1, 41)
    PrimaryExpr,
    /// what parentheses hold (XPath 2.0, A.1, 46)
    Parenthesized,
    /// the arguments of a call (XPath 2.0, A.1, 48)
    Arguments,
    /// a comma and further arguments, or nothing
    ArgumentsTail,
    /// the name of a variable (XPath 2.0, A.1, 45)
    VarName,
    /// a name, or a keyword that is one where a name is wanted (XPath 2.0, A.2)
    PlainName,
}
