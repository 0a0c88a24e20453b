//! Expressions as texts in which each operator has its parentheses.

use pj_base::Text;
use pj_xexpressions::{
    Additive, Axis, Compare, Expr, Function, Multiplicative, NodeTest, PmdFunction, Quantifier,
    SetOperator, Sign,
};
use std::alloc::{AllocError, Global};
use std::fmt::Write;

/// What is still to be printed.
#[derive(Clone, Copy)]
enum Piece<'e> {
    Text(&'e str),
    Expr(&'e Expr),
}

/// Prints what is left.
fn print_all(out: &mut String, left: &mut Vec<Piece<'_>>) -> Result<(), AllocError> {
    for _ in 0..1_000_000 {
        match left.pop() {
            None => return Ok(()),
            Some(piece) => print_piece(out, left, piece)?,
        }
    }
    Ok(())
}

fn print_piece<'e>(
    out: &mut String,
    left: &mut Vec<Piece<'e>>,
    piece: Piece<'e>,
) -> Result<(), AllocError> {
    match piece {
        Piece::Text(text) => out.push_str(text),
        Piece::Expr(expr) => print(out, left, expr),
    }
}

/// Prints the expression: chains in parentheses, `child::` left out, other axes and functions by their names in the code, the root as `^`.
pub fn print_expr(out: &mut String, alloc: Global, expr: &Expr) -> Result<(), AllocError> {
    let mut left = Vec::new(alloc);
    left.push(Piece::Expr(expr))?;
    print_all(out, &mut left)
}

/// Prints what stands before the parts of an expression, and keeps what is left.
fn print<'e>(
    out: &mut String,
    left: &mut Vec<Piece<'e>>,
    expr: &'e Expr,
) -> Result<(), AllocError> {
    match expr {
        Expr::Step(axis, test, predicates) => {
            step(out, *axis, test)?;
            bracketed(left, predicates.as_slice())
        }
        Expr::AttributeStep(test, predicates) => {
            attribute(out, test)?;
            bracketed(left, predicates.as_slice())
        }
        Expr::Call(function, arguments) => {
            called(out, *function)?;
            chain(left, ", ", arguments.as_slice())
        }
        Expr::PmdCall(function, arguments) => {
            pmd_called(out, *function)?;
            chain(left, ", ", arguments.as_slice())
        }
        Expr::Root | Expr::Integer(_) | Expr::String(_) | Expr::Variable(_) | Expr::ContextItem =>
            leaf(out, expr),
        _ => operation(left, expr),
    }
}

/// Keeps the parts of an expression with the texts around them.
fn operation<'e>(left: &mut Vec<Piece<'e>>, expr: &'e Expr) -> Result<(), AllocError> {
    match expr {
        Expr::Comma(parts) => chain(left, ", ", parts.as_slice()),
        Expr::Or(parts) => chain(left, " or ", parts.as_slice()),
        Expr::And(parts) => chain(left, " and ", parts.as_slice()),
        Expr::Concatenation(parts) => chain(left, " || ", parts.as_slice()),
        Expr::Union(parts) => chain(left, " union ", parts.as_slice()),
        Expr::SimpleMap(parts) => chain(left, " ! ", parts.as_slice()),
        Expr::Path(parts) => chain(left, "/", parts.as_slice()),
        Expr::Comparison(compare, first, second) => pair(
            left,
            first,
            compare_text(*compare),
            second,
        ),
        Expr::Range(first, second) => pair(left, first, " to ", second),
        Expr::Unary(sign, operand) => signed(left, *sign, operand),
        Expr::Additive(first, rest) => sum(left, first, rest.as_slice()),
        Expr::Multiplicative(first, rest) => product(left, first, rest.as_slice()),
        Expr::IntersectExcept(first, rest) => intersection(left, first, rest.as_slice()),
        Expr::If(test, chosen, other) => conditional(left, test, chosen, other),
        Expr::For(bindings, body) => binder(
            left,
            "(for",
            " in ",
            bindings.as_slice(),
            " return ",
            body,
        ),
        Expr::Let(bindings, body) => binder(
            left,
            "(let",
            " := ",
            bindings.as_slice(),
            " return ",
            body,
        ),
        Expr::Quantified(quantifier, bindings, test) => binder(
            left,
            quantifier_text(*quantifier),
            " in ",
            bindings.as_slice(),
            " satisfies ",
            test,
        ),
        Expr::Filter(primary, predicates) => {
            bracketed(left, predicates.as_slice())?;
            put(left, &[Piece::Expr(primary)])
        }
        _ => Ok(()),
    }
}

fn called(out: &mut String, function: Function) -> Result<(), AllocError> {
    write!(out, "{function:?}")
}

fn pmd_called(out: &mut String, function: PmdFunction) -> Result<(), AllocError> {
    write!(out, "pmd {function:?}")
}

fn step(out: &mut String, axis: Axis, test: &NodeTest) -> Result<(), AllocError> {
    if axis != Axis::Child {
        write!(out, "{axis:?}::")?;
    }
    tested(out, test)
}

fn attribute(out: &mut String, test: &NodeTest) -> Result<(), AllocError> {
    out.push_str("@")?;
    tested(out, test)
}

/// What has no expressions in it.
fn leaf(out: &mut String, expr: &Expr) -> Result<(), AllocError> {
    match expr {
        Expr::Root => out.push_str("^"),
        Expr::Integer(Some(value)) => write!(out, "{value}"),
        Expr::Integer(None) => out.push_str("large"),
        Expr::String(text) => write!(out, "'{}'", text.as_str()),
        Expr::Variable(name) => write!(out, "${}", name.as_str()),
        Expr::ContextItem => out.push_str("."),
        _ => Ok(()),
    }
}

fn compare_text(compare: Compare) -> &'static str {
    match compare {
        Compare::Equal => " = ",
        Compare::NotEqual => " != ",
        Compare::Less => " < ",
        Compare::LessOrEqual => " <= ",
        Compare::Greater => " > ",
        Compare::GreaterOrEqual => " >= ",
    }
}

fn quantifier_text(quantifier: Quantifier) -> &'static str {
    match quantifier {
        Quantifier::Some => "(some",
        Quantifier::Every => "(every",
    }
}

fn sign_text(sign: Sign) -> &'static str {
    match sign {
        Sign::Plus => "(+",
        Sign::Minus => "(-",
    }
}

fn sum_text(sign: Additive) -> &'static str {
    match sign {
        Additive::Plus => " + ",
        Additive::Minus => " - ",
    }
}

fn product_text(sign: Multiplicative) -> &'static str {
    match sign {
        Multiplicative::Times => " * ",
        Multiplicative::IntegerDivide => " idiv ",
        Multiplicative::Modulo => " mod ",
    }
}

fn set_text(word: SetOperator) -> &'static str {
    match word {
        SetOperator::Intersect => " intersect ",
        SetOperator::Except => " except ",
    }
}

/// Keeps pieces, the first of which comes next.
fn put<'e>(left: &mut Vec<Piece<'e>>, pieces: &[Piece<'e>]) -> Result<(), AllocError> {
    for i in 0..pieces.len() {
        left.push(pieces[pieces.len() - 1 - i])?;
    }
    Ok(())
}

fn signed<'e>(left: &mut Vec<Piece<'e>>, sign: Sign, operand: &'e Expr) -> Result<(), AllocError> {
    put(
        left,
        &[
            Piece::Text(sign_text(sign)),
            Piece::Expr(operand),
            Piece::Text(")"),
        ],
    )
}

fn pair<'e>(
    left: &mut Vec<Piece<'e>>,
    first: &'e Expr,
    between: &'e str,
    second: &'e Expr,
) -> Result<(), AllocError> {
    put(
        left,
        &[
            Piece::Text("("),
            Piece::Expr(first),
            Piece::Text(between),
            Piece::Expr(second),
            Piece::Text(")"),
        ],
    )
}

fn conditional<'e>(
    left: &mut Vec<Piece<'e>>,
    test: &'e Expr,
    chosen: &'e Expr,
    other: &'e Expr,
) -> Result<(), AllocError> {
    put(
        left,
        &[
            Piece::Text("(if "),
            Piece::Expr(test),
            Piece::Text(" then "),
            Piece::Expr(chosen),
            Piece::Text(" else "),
            Piece::Expr(other),
            Piece::Text(")"),
        ],
    )
}

fn binder<'e>(
    left: &mut Vec<Piece<'e>>,
    word: &'e str,
    between: &'e str,
    bindings: &'e [(Text, Expr)],
    last: &'e str,
    body: &'e Expr,
) -> Result<(), AllocError> {
    put(
        left,
        &[Piece::Text(last), Piece::Expr(body), Piece::Text(")")],
    )?;
    for i in 0..bindings.len() {
        let (name, value) = &bindings[bindings.len() - 1 - i];
        put(
            left,
            &[
                Piece::Text(" $"),
                Piece::Text(name.as_str()),
                Piece::Text(between),
                Piece::Expr(value),
            ],
        )?;
    }
    put(left, &[Piece::Text(word)])
}

fn sum<'e>(
    left: &mut Vec<Piece<'e>>,
    first: &'e Expr,
    rest: &'e [(Additive, Expr)],
) -> Result<(), AllocError> {
    put(left, &[Piece::Text(")")])?;
    for i in 0..rest.len() {
        let (sign, operand) = &rest[rest.len() - 1 - i];
        put(left, &[Piece::Text(sum_text(*sign)), Piece::Expr(operand)])?;
    }
    put(left, &[Piece::Text("("), Piece::Expr(first)])
}

fn product<'e>(
    left: &mut Vec<Piece<'e>>,
    first: &'e Expr,
    rest: &'e [(Multiplicative, Expr)],
) -> Result<(), AllocError> {
    put(left, &[Piece::Text(")")])?;
    for i in 0..rest.len() {
        let (sign, operand) = &rest[rest.len() - 1 - i];
        put(
            left,
            &[Piece::Text(product_text(*sign)), Piece::Expr(operand)],
        )?;
    }
    put(left, &[Piece::Text("("), Piece::Expr(first)])
}

fn intersection<'e>(
    left: &mut Vec<Piece<'e>>,
    first: &'e Expr,
    rest: &'e [(SetOperator, Expr)],
) -> Result<(), AllocError> {
    put(left, &[Piece::Text(")")])?;
    for i in 0..rest.len() {
        let (word, operand) = &rest[rest.len() - 1 - i];
        put(left, &[Piece::Text(set_text(*word)), Piece::Expr(operand)])?;
    }
    put(left, &[Piece::Text("("), Piece::Expr(first)])
}

fn chain<'e>(
    left: &mut Vec<Piece<'e>>,
    between: &'e str,
    parts: &'e [Expr],
) -> Result<(), AllocError> {
    put(left, &[Piece::Text(")")])?;
    for i in 0..parts.len() {
        let place = parts.len() - 1 - i;
        put(left, &[Piece::Expr(&parts[place])])?;
        if place > 0 {
            put(left, &[Piece::Text(between)])?;
        }
    }
    put(left, &[Piece::Text("(")])
}

fn bracketed<'e>(left: &mut Vec<Piece<'e>>, predicates: &'e [Expr]) -> Result<(), AllocError> {
    for i in 0..predicates.len() {
        put(
            left,
            &[
                Piece::Text("["),
                Piece::Expr(&predicates[predicates.len() - 1 - i]),
                Piece::Text("]"),
            ],
        )?;
    }
    Ok(())
}

fn tested(out: &mut String, test: &NodeTest) -> Result<(), AllocError> {
    match test {
        NodeTest::Name(name) => out.push_str(name.as_str()),
        NodeTest::AnyName => out.push_str("*"),
        NodeTest::AnyNode => out.push_str("node()"),
        NodeTest::AnyElement => out.push_str("element()"),
    }
}
