//! Expressions.

use crate::axis::Axis;
use crate::function::Function;
use crate::operator::{Additive, Compare, Multiplicative, Quantifier, SetOperator, Sign};
use crate::pmd_function::PmdFunction;
use pj_base::Text;

/// An expression, with its section in XML Path Language (XPath) 2.0 where no other is named.
///
/// It has one case for each construct. Operators of one level that follow each other are one list, from left to right,
/// and so are the steps of a path and the variables of one `for`, `let`, `some` or `every`: so the depth of an expression is
/// bounded by the nesting of its text, whatever the length of its chains. A list of operands has at least two and a list
/// of variables at least one, where nothing else is said; of predicates there may be none. Parentheses leave no trace
/// but the nesting that they make, and comments none at all.
#[derive(Drop)]
pub enum Expr {
    /// `a, b, ..`: the items of each in turn; `()` is the empty list (3.3.1).
    Comma(Vec<Expr>),
    /// `for $x in a, $y in b, .. return body` (3.7).
    For(Vec<(Text, Expr)>, Box<Expr>),
    /// `let $x := a, $y := b, .. return body` (XPath 3.1, 3.10).
    Let(Vec<(Text, Expr)>, Box<Expr>),
    /// `some $x in a, $y in b, .. satisfies test`, or `every` (3.9).
    Quantified(Quantifier, Vec<(Text, Expr)>, Box<Expr>),
    /// `if (test) then a else b` (3.8).
    If(Box<Expr>, Box<Expr>, Box<Expr>),
    /// `a or b or ..` (3.6).
    Or(Vec<Expr>),
    /// `a and b and ..` (3.6).
    And(Vec<Expr>),
    /// `a = b` and the other general comparisons, which do not chain (3.5.2).
    Comparison(Compare, Box<Expr>, Box<Expr>),
    /// `a || b || ..` (XPath 3.1, 3.6).
    Concatenation(Vec<Expr>),
    /// `a to b`, which does not chain (3.3.1).
    Range(Box<Expr>, Box<Expr>),
    /// `a + b - ..`: the first operand, and each further one behind its operator, of which there is at least one (3.4).
    Additive(Box<Expr>, Vec<(Additive, Expr)>),
    /// `a * b idiv c mod ..`, in the same form (3.4).
    Multiplicative(Box<Expr>, Vec<(Multiplicative, Expr)>),
    /// `a union b | ..` (3.3.3).
    Union(Vec<Expr>),
    /// `a intersect b except ..`, in the form of sums (3.3.3).
    IntersectExcept(Box<Expr>, Vec<(SetOperator, Expr)>),
    /// `-a` or `+a` (3.4).
    Unary(Sign, Box<Expr>),
    /// `a ! b ! ..` (XPath 3.1, 3.15).
    SimpleMap(Vec<Expr>),
    /// `a/b/..`: each step over the nodes of what stands before it; nodes come in document order, each once (3.2). A path that begins with `/` has `Root` first.
    /// `//` is the step `descendant-or-self::node()` between two slashes (3.2.4).
    Path(Vec<Expr>),
    /// `/` alone or at the beginning of a path: the root of the context node's tree, which is the document (3.2).
    Root,
    /// `axis::test[predicate]..` from the context node; `name` stands for `child::name`, and `..` for `parent::node()`.
    /// Predicates count in axis order, and the nodes come in document order (3.2.1, 3.2.2, 3.2.4).
    Step(Axis, NodeTest, Vec<Expr>),
    /// `attribute::test[predicate]..` from the context node, or `@test` (3.2.1, 3.2.2, 3.2.4).
    AttributeStep(NodeTest, Vec<Expr>),
    /// `a[predicate]..`, the items of a primary expression that pass the predicates, of which there is at least one
    /// (3.3.2).
    Filter(Box<Expr>, Vec<Expr>),
    /// A literal of digits, or `None` where its value is above the greatest integer (3.1.1).
    Integer(Option<i64>),
    /// `"text"` or `'text'`, with its doubled quotes made single (3.1.1).
    String(Text),
    /// `$name` (3.1.2).
    Variable(Text),
    /// `.` (3.1.4).
    ContextItem,
    /// `name(a, b, ..)` or `fn:name(a, b, ..)` of a function of XPath, with its arguments, of which there may be none (3.1.5).
    Call(Function, Vec<Expr>),
    /// `pmd:name(a, ..)` or `pmd-java:name(a, ..)`, with its arguments, of which there may be none (3.1.5).
    PmdCall(PmdFunction, Vec<Expr>),
}

/// Which nodes of an axis a step takes (3.2.1.2).
#[derive(Drop)]
pub enum NodeTest {
    /// `name`: elements of the name on an axis of nodes, attributes of the name on the attribute axis. A name that no
    /// node has finds nothing.
    Name(Text),
    /// `*`: elements on an axis of nodes, attributes on the attribute axis.
    AnyName,
    /// `node()`: all.
    AnyNode,
    /// `element()`: elements.
    AnyElement,
}
