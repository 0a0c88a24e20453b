//! The patterns that an expression is written with.
ghost use Rattle.std.specs.Prelude.{◌≡◌, ◌++◌, OnOk, map};
ghost use Rattle.pj_xpatterns.specs.Written.{patterns_in, variables_of, bound_seen, next_seen, of_each, of_second, seen_of};

use crate::own::{Found, push_own};
use pj_base::{NoMemory, Text};
use pj_xexpressions::{Additive, Expr, Multiplicative, SetOperator};
use pj_xvalue::BoundVars;
use std::alloc::Global;

/// Puts the patterns of the expression at the end, in the order of the text.
#[tactic(auto, using(crate::proofs::Forms::seen_forms))]
#[cycle(gathering)]
pub(crate) fn gather(
    alloc: Global,
    variables: &BoundVars<'_>,
    expr: &Expr,
    found: &mut Found,
) -> Result<(), NoMemory>
    ensures { OnOk result (found.new ≡ found.old ++ patterns_in (variables_of variables.now) expr.now) }
{
    match expr {
        Expr::Comma(parts) => gather_all(alloc, variables, parts.as_slice(), found),
        Expr::For(bindings, body) => {
            gather_bound(alloc, variables, bindings.as_slice(), found)?;
            gather(alloc, variables, body, found)
        }
        Expr::Let(bindings, body) => {
            gather_bound(alloc, variables, bindings.as_slice(), found)?;
            gather(alloc, variables, body, found)
        }
        Expr::Quantified(_, bindings, test) => {
            gather_bound(alloc, variables, bindings.as_slice(), found)?;
            gather(alloc, variables, test, found)
        }
        Expr::If(test, chosen, other) => {
            gather(alloc, variables, test, found)?;
            gather(alloc, variables, chosen, found)?;
            gather(alloc, variables, other, found)
        }
        Expr::Or(parts) => gather_all(alloc, variables, parts.as_slice(), found),
        Expr::And(parts) => gather_all(alloc, variables, parts.as_slice(), found),
        Expr::Comparison(_, left, right) => {
            gather(alloc, variables, left, found)?;
            gather(alloc, variables, right, found)
        }
        Expr::Concatenation(parts) => gather_all(alloc, variables, parts.as_slice(), found),
        Expr::Range(from, to) => {
            gather(alloc, variables, from, found)?;
            gather(alloc, variables, to, found)
        }
        Expr::Additive(first, rest) => {
            gather(alloc, variables, first, found)?;
            gather_sums(alloc, variables, rest.as_slice(), found)
        }
        Expr::Multiplicative(first, rest) => {
            gather(alloc, variables, first, found)?;
            gather_products(alloc, variables, rest.as_slice(), found)
        }
        Expr::Union(parts) => gather_all(alloc, variables, parts.as_slice(), found),
        Expr::IntersectExcept(first, rest) => {
            gather(alloc, variables, first, found)?;
            gather_sets(alloc, variables, rest.as_slice(), found)
        }
        Expr::Unary(_, operand) => gather(alloc, variables, operand, found),
        Expr::SimpleMap(parts) => gather_all(alloc, variables, parts.as_slice(), found),
        Expr::Path(steps) => gather_all(alloc, variables, steps.as_slice(), found),
        Expr::Step(_, _, predicates) => gather_all(alloc, variables, predicates.as_slice(), found),
        Expr::AttributeStep(_, predicates) => gather_all(
            alloc,
            variables,
            predicates.as_slice(),
            found,
        ),
        Expr::Filter(primary, predicates) => {
            gather(alloc, variables, primary, found)?;
            gather_all(alloc, variables, predicates.as_slice(), found)
        }
        Expr::Call(function, arguments) => match arguments.as_slice() {
            [] => Ok(()),
            [first, rest @ ..] => {
                gather(alloc, variables, first, found)?;
                push_own(alloc, variables, *function, arguments.as_slice(), found)?;
                gather_all(alloc, variables, rest, found)
            }
        },
        Expr::PmdCall(_, arguments) => gather_all(alloc, variables, arguments.as_slice(), found),
        Expr::Root => Ok(()),
        Expr::Integer(_) => Ok(()),
        Expr::String(_) => Ok(()),
        Expr::Variable(_) => Ok(()),
        Expr::ContextItem => Ok(()),
    }
}

/// Puts the patterns of each expression at the end.
#[cycle(gathering)]
fn gather_all(
    alloc: Global,
    variables: &BoundVars<'_>,
    parts: &[Expr],
    found: &mut Found,
) -> Result<(), NoMemory>
    ensures { OnOk result (found.new ≡ found.old ++ of_each (map (seen_of (variables_of variables.now)) parts.now)) }
{
    for part in parts {
        gather(alloc, variables, part, found)?;
    }
    Ok(())
}

/// Puts the patterns of each variable's expression at the end.
#[cycle(gathering)]
fn gather_bound(
    alloc: Global,
    variables: &BoundVars<'_>,
    parts: &[(Text, Expr)],
    found: &mut Found,
) -> Result<(), NoMemory>
    ensures { OnOk result (found.new ≡ found.old ++ of_second (map (bound_seen (variables_of variables.now)) parts.now)) }
{
    for part in parts {
        gather(alloc, variables, &part.1, found)?;
    }
    Ok(())
}

/// Puts the patterns of each further operand of a sum at the end.
#[cycle(gathering)]
fn gather_sums(
    alloc: Global,
    variables: &BoundVars<'_>,
    parts: &[(Additive, Expr)],
    found: &mut Found,
) -> Result<(), NoMemory>
    ensures { OnOk result (found.new ≡ found.old ++ of_second (map (next_seen (variables_of variables.now)) parts.now)) }
{
    for part in parts {
        gather(alloc, variables, &part.1, found)?;
    }
    Ok(())
}

/// Puts the patterns of each further operand of a product at the end.
#[cycle(gathering)]
fn gather_products(
    alloc: Global,
    variables: &BoundVars<'_>,
    parts: &[(Multiplicative, Expr)],
    found: &mut Found,
) -> Result<(), NoMemory>
    ensures { OnOk result (found.new ≡ found.old ++ of_second (map (next_seen (variables_of variables.now)) parts.now)) }
{
    for part in parts {
        gather(alloc, variables, &part.1, found)?;
    }
    Ok(())
}

/// Puts the patterns of each further operand on sets at the end.
#[cycle(gathering)]
fn gather_sets(
    alloc: Global,
    variables: &BoundVars<'_>,
    parts: &[(SetOperator, Expr)],
    found: &mut Found,
) -> Result<(), NoMemory>
    ensures { OnOk result (found.new ≡ found.old ++ of_second (map (next_seen (variables_of variables.now)) parts.now)) }
{
    for part in parts {
        gather(alloc, variables, &part.1, found)?;
    }
    Ok(())
}
