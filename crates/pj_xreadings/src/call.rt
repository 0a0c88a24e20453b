//! Calls of functions.

ghost use Rattle.std.specs.Prelude.{◌≡◌, ◌++◌, ◌∷◌, [], drop, map, IfOk, Some};
ghost use Rattle.pj_xexpressions.specs.Names.{callee_of};
ghost use Rattle.pj_xexpressions.specs.Trees.{tree_of};
ghost use Rattle.pj_xreadings.specs.Mentions as mention;
ghost use Rattle.pj_xreadings.specs.Operands.{trees_of, arguments_in, in_roles, told, call};
ghost use Rattle.pj_xreadings.specs.Seen.{seen_mention, seen_mentions, seen_reading, seen_given, seen_arguments};
ghost use Rattle.pj_xreadings.specs.Steps.{called, filtered};

use crate::front::Front;
use crate::named::Named;
use crate::operand::{Given, Reading};
use crate::role::{Role, roles_named};
use crate::row::{apart, before};
use pj_base::NoMemory;
use pj_xexpressions::{Callee, Expr, function_named};
use std::alloc::Global;

/// A mention before others.
#[tactic(auto, using(crate::proofs::Lists::pushed))]
fn put<'t>(mention: Named<'t>, mut behind: Vec<Named<'t>>) -> Result<Vec<Named<'t>>, NoMemory>
    ensures { IfOk result (λ all. seen_mentions all.items ≡ seen_mention mention.entry ∷ seen_mentions behind.entry.items) }
{
    behind.push(mention)?;
    Ok(behind)
}

/// The roles from a place on, counted from 0; past the end there are none.
fn roles_from(roles: &[Role], at: usize) -> &[Role]
    ensures { result.now ≡ drop at roles.now }
{
    if at < roles.len() { &roles[at..] } else { &[] }
}

/// An argument that begins at the offset, before others: its expression, and what it names, behind what the first of the roles wants of it
/// where it is told that it ends.
fn argument<'t>(
    roles: &[Role],
    ended: bool,
    from: u32,
    reading: Reading<'t>,
    behind: Vec<Named<'t>>,
) -> Result<(Expr, Vec<Named<'t>>), NoMemory>
    ensures expr { IfOk result (λ made. tree_of made.0 ≡ (seen_reading reading.entry).tree) }
    ensures names { IfOk result (λ made. seen_mentions made.1.items ≡ in_roles roles.now (seen_given ended ((from, reading.entry) ∷ [])) ++ seen_mentions behind.entry.items) }
{
    let Reading {
        expr,
        written,
        names,
    } = reading;
    let all = before(names, behind)?;
    let names = match roles {
        [role, ..] if ended => put(Named::Argument(*role, written, from), all)?,
        _ => all,
    };
    Ok((expr, names))
}

/// The arguments of a call before other mentions: their expressions, and what they name, each behind what its role wants.
fn in_roles<'t>(
    alloc: Global,
    roles: &[Role],
    arguments: Given<'t>,
    behind: Vec<Named<'t>>,
) -> Result<(Vec<Expr>, Vec<Named<'t>>), NoMemory>
    ensures exprs { IfOk result (λ made. map tree_of made.0.items ≡ trees_of (arguments_in (seen_arguments arguments.entry))) }
    ensures names { IfOk result (λ made. seen_mentions made.1.items ≡ in_roles roles.now (seen_arguments arguments.entry) ++ seen_mentions behind.entry.items) }
{
    let mut left = arguments.list.into_vec();
    let mut ended = arguments.closed;
    let mut exprs = Front::new(alloc);
    let mut all = behind;
    'arguments: while let Some((from, reading)) = left.pop() {
        let (expr, names) = argument(roles_from(roles, left.len()), ended, from, reading, all)?;
        exprs = exprs.put(expr)?;
        all = names;
        ended = true;
    }
    Ok((exprs.into_vec(), all))
}

/// With how many arguments a function is called, before other mentions, where that or that there is no such function is told.
fn told<'t>(
    name: &'t str,
    count: usize,
    from: u32,
    closed: bool,
    behind: Vec<Named<'t>>,
) -> Result<Vec<Named<'t>>, NoMemory>
    ensures { IfOk result (λ all. seen_mentions all.items ≡ told closed (callee_of name.now) (mention.Call name.now count from) ++ seen_mentions behind.entry.items) }
{
    if closed {
        return put(Named::Call(name, count, from), behind);
    }
    match function_named(name) {
        Some(_) => Ok(behind),
        None => put(Named::Call(name, count, from), behind),
    }
}

/// The call of the function.
#[tactic(auto, using(crate::proofs::TreeForms::tree_of_call, crate::proofs::TreeForms::tree_of_pmd_call))]
fn call_of(callee: Callee, arguments: Vec<Expr>) -> Expr
    ensures { tree_of result ≡ called (Some callee) (map tree_of arguments.items) }
{
    match callee {
        Callee::XPath(function) => Expr::Call(function, arguments),
        Callee::Pmd(function) => Expr::PmdCall(function, arguments),
    }
}

/// The call of the function with the name; where there is none, the empty sequence (XPath 2.0, 3.1.5).
fn called(alloc: Global, name: &str, arguments: Vec<Expr>) -> Expr
    ensures { tree_of result ≡ called (callee_of name.now) (map tree_of arguments.items) }
{
    match function_named(name) {
        Some(callee) => call_of(callee, arguments),
        None => Expr::Comma(Vec::new(alloc)),
    }
}

/// The expression with its predicates, if there are any (XPath 2.0, 3.3.2).
#[tactic(auto, using(crate::proofs::TreeForms::tree_of_filter, crate::proofs::Calls::filtered_alone, crate::proofs::Calls::filtered_all))]
fn with_predicates(alloc: Global, primary: Expr, predicates: Vec<Expr>) -> Result<Expr, NoMemory>
    ensures { IfOk result (λ made. tree_of made ≡ filtered (tree_of primary) (map tree_of predicates.items)) }
{
    if predicates.is_empty() {
        return Ok(primary);
    }
    Ok(Expr::Filter(Box::new(alloc, primary)?, predicates))
}

/// The call of the function with the name, which stands at the offset, with its arguments and the predicates behind them.
pub fn function_call<'t>(
    alloc: Global,
    name: &'t str,
    from: u32,
    arguments: Given<'t>,
    predicates: Front<Reading<'t>>,
) -> Result<Reading<'t>, NoMemory>
    ensures { IfOk result (λ made. seen_reading made ≡ call name.now from (seen_arguments arguments.entry) (map seen_reading predicates.entry)) }
{
    let closed = arguments.closed;
    let (predicates, behind) = apart(alloc, predicates)?;
    let (arguments, inner) = in_roles(alloc, roles_named(name), arguments, behind)?;
    let names = told(name, arguments.len(), from, closed, inner)?;
    let expr = with_predicates(alloc, called(alloc, name, arguments), predicates)?;
    Ok(Reading::other(expr, names))
}
