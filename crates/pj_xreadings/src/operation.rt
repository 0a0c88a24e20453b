//! Operands with what stands before or behind them.

ghost use Rattle.std.specs.Prelude.{◌≡◌, map, IfOk};
ghost use Rattle.std.specs.Option.{option_map};
ghost use Rattle.pj_xexpressions.specs.Trees.{Additive', Multiplicative', IntersectExcept, node, tree_of};
ghost use Rattle.pj_xreadings.specs.Constructs.{construct_of};
ghost use Rattle.pj_xreadings.specs.Operands.{operations, names_behind, chain, mixed, compared, ranging, signed};
ghost use Rattle.pj_xreadings.specs.Seen.{behind_of, seen_behind, seen_last, seen_mentions, seen_reading, seen_second};

use crate::front::Front;
use crate::named::Named;
use crate::operand::{Reading, boxed};
use crate::row::{apart, before};
use pj_base::NoMemory;
use pj_xexpressions::{Additive, Compare, Expr, Multiplicative, SetOperator, Sign};
use std::alloc::Global;

/// The operator of a chain of operands.
#[derive(Clone, Copy)]
pub enum Chain {
    /// `a, b, ..` (XPath 2.0, 3.3.1).
    Comma,
    /// `a or b or ..` (XPath 2.0, 3.6).
    Or,
    /// `a and b and ..` (XPath 2.0, 3.6).
    And,
    /// `a || b || ..` (XPath 3.1, 3.6).
    Concatenation,
    /// `a union b | ..` (XPath 2.0, 3.3.3).
    Union,
    /// `a ! b ! ..` (XPath 3.1, 3.15).
    SimpleMap,
}

/// The expressions of operands, each behind its operator, and what they name, from the last on.
fn operations<'t, Operator: Drop>(
    alloc: Global,
    operands: Front<(Operator, Reading<'t>)>,
) -> Result<(Front<(Operator, Expr)>, Vec<Named<'t>>), NoMemory>
    ensures exprs { IfOk result (λ made. map behind_of made.0 ≡ operations (map seen_behind operands.entry)) }
    ensures names { IfOk result (λ made. seen_mentions made.1.items ≡ names_behind (map seen_behind operands.entry)) }
{
    let mut exprs = Front::new(alloc);
    let mut all = Vec::new(alloc);
    'operands: for (operator, reading) in operands.into_reversed() {
        let Reading { expr, names, .. } = reading;
        exprs = exprs.put((operator, expr))?;
        all = before(names, all)?;
    }
    Ok((exprs, all))
}

/// The chain of these operands.
fn chained(operator: Chain, operands: Vec<Expr>) -> Expr
    ensures { tree_of result ≡ node (construct_of operator) (map tree_of operands.items) }
{
    match operator {
        Chain::Comma => Expr::Comma(operands),
        Chain::Or => Expr::Or(operands),
        Chain::And => Expr::And(operands),
        Chain::Concatenation => Expr::Concatenation(operands),
        Chain::Union => Expr::Union(operands),
        Chain::SimpleMap => Expr::SimpleMap(operands),
    }
}

/// The operand itself where nothing stands behind it, else a chain.
#[tactic(auto, using(crate::proofs::Chains::chain_alone, crate::proofs::Chains::chain_all))]
pub fn chain_of<'t>(
    alloc: Global,
    operator: Chain,
    first: Reading<'t>,
    rest: Front<Reading<'t>>,
) -> Result<Reading<'t>, NoMemory>
    ensures { IfOk result (λ made. seen_reading made ≡ chain (construct_of operator) (seen_reading first.entry) (map seen_reading rest.entry)) }
{
    if rest.is_empty() {
        return Ok(first);
    }
    let (operands, names) = apart(alloc, rest.put(first)?)?;
    Ok(Reading::other(chained(operator, operands), names))
}

/// The operand itself where nothing stands behind it, else a comparison.
#[tactic(auto, using(crate::proofs::TreeForms::tree_of_comparison))]
pub fn comparison<'t>(
    alloc: Global,
    first: Reading<'t>,
    behind: Option<(Compare, Box<Reading<'t>>)>,
) -> Result<Reading<'t>, NoMemory>
    ensures { IfOk result (λ made. seen_reading made ≡ compared (seen_reading first.entry) (option_map seen_second behind.entry)) }
{
    match behind {
        Some((compare, second)) => {
            let (left, names) = boxed(alloc, first)?;
            let (right, behind) = boxed(alloc, Box::into_inner(second))?;
            let all = before(names, behind)?;
            Ok(Reading::other(Expr::Comparison(compare, left, right), all))
        }
        None => Ok(first),
    }
}

/// The operand itself where nothing stands behind it, else a range.
#[tactic(auto, using(crate::proofs::TreeForms::tree_of_range))]
pub fn range<'t>(
    alloc: Global,
    first: Reading<'t>,
    behind: Option<Box<Reading<'t>>>,
) -> Result<Reading<'t>, NoMemory>
    ensures { IfOk result (λ made. seen_reading made ≡ ranging (seen_reading first.entry) (option_map seen_last behind.entry)) }
{
    match behind {
        Some(last) => {
            let (from, names) = boxed(alloc, first)?;
            let (to, behind) = boxed(alloc, Box::into_inner(last))?;
            let all = before(names, behind)?;
            Ok(Reading::other(Expr::Range(from, to), all))
        }
        None => Ok(first),
    }
}

/// The operand itself where nothing stands behind it, else a sum.
#[tactic(auto, using(crate::proofs::Chains::mixed_alone, crate::proofs::Chains::mixed_all, crate::proofs::TreeForms::tree_of_additive))]
pub fn sum<'t>(
    alloc: Global,
    first: Reading<'t>,
    rest: Front<(Additive, Reading<'t>)>,
) -> Result<Reading<'t>, NoMemory>
    ensures { IfOk result (λ made. seen_reading made ≡ mixed Additive' (seen_reading first.entry) (map seen_behind rest.entry)) }
{
    if rest.is_empty() {
        return Ok(first);
    }
    let (left, names) = boxed(alloc, first)?;
    let (operands, behind) = operations(alloc, rest)?;
    let all = before(names, behind)?;
    Ok(Reading::other(Expr::Additive(left, operands.into_vec()), all))
}

/// The operand itself where nothing stands behind it, else a product.
#[tactic(auto, using(crate::proofs::Chains::mixed_alone, crate::proofs::Chains::mixed_all, crate::proofs::TreeForms::tree_of_multiplicative))]
pub fn product<'t>(
    alloc: Global,
    first: Reading<'t>,
    rest: Front<(Multiplicative, Reading<'t>)>,
) -> Result<Reading<'t>, NoMemory>
    ensures { IfOk result (λ made. seen_reading made ≡ mixed Multiplicative' (seen_reading first.entry) (map seen_behind rest.entry)) }
{
    if rest.is_empty() {
        return Ok(first);
    }
    let (left, names) = boxed(alloc, first)?;
    let (operands, behind) = operations(alloc, rest)?;
    let all = before(names, behind)?;
    Ok(Reading::other(Expr::Multiplicative(left, operands.into_vec()), all))
}

/// The operand itself where nothing stands behind it, else an intersection or a difference.
#[tactic(auto, using(crate::proofs::Chains::mixed_alone, crate::proofs::Chains::mixed_all, crate::proofs::TreeForms::tree_of_intersect_except))]
pub fn sets<'t>(
    alloc: Global,
    first: Reading<'t>,
    rest: Front<(SetOperator, Reading<'t>)>,
) -> Result<Reading<'t>, NoMemory>
    ensures { IfOk result (λ made. seen_reading made ≡ mixed IntersectExcept (seen_reading first.entry) (map seen_behind rest.entry)) }
{
    if rest.is_empty() {
        return Ok(first);
    }
    let (left, names) = boxed(alloc, first)?;
    let (operands, behind) = operations(alloc, rest)?;
    let all = before(names, behind)?;
    Ok(Reading::other(Expr::IntersectExcept(left, operands.into_vec()), all))
}

/// The operand behind the sign (XPath 2.0, 3.4).
#[tactic(auto, using(crate::proofs::TreeForms::tree_of_unary))]
pub fn signed<'t>(alloc: Global, sign: Sign, operand: Reading<'t>) -> Result<Reading<'t>, NoMemory>
    ensures { IfOk result (λ made. seen_reading made ≡ signed sign (seen_reading operand.entry)) }
{
    let Reading { expr, names, .. } = operand;
    let expr = Expr::Unary(sign, Box::new(alloc, expr)?);
    Ok(Reading::other(expr, names))
}
