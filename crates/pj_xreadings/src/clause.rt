//! Variables and choices.

ghost use Rattle.std.specs.Prelude.{◌≡◌, ◌++◌, [], ◌∷◌, map, IfOk};
ghost use Rattle.pj_xexpressions.specs.Trees.{binder, tree_of};
ghost use Rattle.pj_xreadings.specs.Constructs.{binder_of};
ghost use Rattle.pj_xreadings.specs.Mentions as mention;
ghost use Rattle.pj_xreadings.specs.Mentions.{scoped};
ghost use Rattle.pj_xreadings.specs.Operands.{bindings_of, bound, chosen, scopes_of};
ghost use Rattle.pj_xreadings.specs.Seen.{seen_bound, seen_mentions, seen_reading};

use crate::front::Front;
use crate::named::Named;
use crate::operand::{Bound, Reading, boxed};
use crate::row::before;
use pj_base::{NoMemory, Text};
use pj_xexpressions::{Expr, Quantifier};
use std::alloc::Global;

/// The word before variables.
#[derive(Clone, Copy)]
pub enum Binder {
    /// `for` (XPath 2.0, 3.7).
    For,
    /// `let` (XPath 3.1, 3.10).
    Let,
    /// `some` or `every` (XPath 2.0, 3.9).
    Quantified(Quantifier),
}

/// The name of a variable that is bound, and what its expression names, with the variable behind it, before others.
#[tactic(auto, using(crate::proofs::Lists::pushed))]
fn opened<'t>(
    alloc: Global,
    name: &'t str,
    names: Vec<Named<'t>>,
    mut behind: Vec<Named<'t>>,
) -> Result<(Text, Vec<Named<'t>>), NoMemory>
    ensures name { IfOk result (λ made. made.0 ≡ name.now) }
    ensures names { IfOk result (λ made. seen_mentions made.1.items ≡ seen_mentions names.entry.items ++ (mention.Binds name.now ∷ seen_mentions behind.entry.items)) }
{
    behind.push(Named::Binds(name))?;
    let all = before(names, behind)?;
    Ok((Text::from_str(alloc, name)?, all))
}

/// What follows variables, and the end of their scopes behind it.
#[tactic(auto, using(crate::proofs::Lists::pushed))]
fn closed<'t>(alloc: Global, count: usize, body: Vec<Named<'t>>) -> Result<Vec<Named<'t>>, NoMemory>
    ensures { IfOk result (λ all. seen_mentions all.items ≡ seen_mentions body.entry.items ++ (mention.Ends count ∷ [])) }
{
    let mut end = Vec::new(alloc);
    end.push(Named::Ends(count))?;
    before(body, end)
}

/// The names of variables with their expressions, and what these name before what follows them: each variable is seen by the expressions
/// behind its own, and by the body.
fn scoped<'t>(
    alloc: Global,
    variables: Front<Bound<'t>>,
    body: Vec<Named<'t>>,
) -> Result<(Vec<(Text, Expr)>, Vec<Named<'t>>), NoMemory>
    ensures { IfOk result (λ made. (map (λ variable. (variable.0, tree_of variable.1)) made.0.items ≡ bindings_of (map seen_bound variables.entry))
        × (seen_mentions made.1.items ≡ scoped (scopes_of (map seen_bound variables.entry)) 0 (seen_mentions body.entry.items))) }
{
    let mut left = variables.into_vec();
    let mut pairs = Vec::new(alloc);
    let mut all = closed(alloc, left.len(), body)?;
    'variables: while let Some(variable) = left.pop() {
        let Bound { name, value } = variable;
        let Reading { expr, names, .. } = value;
        let (name, names) = opened(alloc, name, names, all)?;
        pairs.push((name, expr))?;
        all = names;
    }
    pairs.reverse();
    Ok((pairs, all))
}

/// The expression of variables, each with its own, and what follows them.
#[tactic(auto, using(crate::proofs::TreeForms::tree_of_for, crate::proofs::TreeForms::tree_of_let, crate::proofs::TreeForms::tree_of_quantified))]
fn bound_of(word: Binder, variables: Vec<(Text, Expr)>, body: Box<Expr>) -> Expr
    ensures { tree_of result ≡ binder (binder_of word) (map (λ variable. (variable.0, tree_of variable.1)) variables.items) (tree_of body.value) }
{
    match word {
        Binder::For => Expr::For(variables, body),
        Binder::Let => Expr::Let(variables, body),
        Binder::Quantified(quantifier) => Expr::Quantified(quantifier, variables, body),
    }
}

/// Variables and what follows them.
pub fn bound<'t>(
    alloc: Global,
    word: Binder,
    variables: Front<Bound<'t>>,
    body: Reading<'t>,
) -> Result<Reading<'t>, NoMemory>
    ensures { IfOk result (λ made. seen_reading made ≡ bound (binder_of word) (map seen_bound variables.entry) (seen_reading body.entry)) }
{
    let (body, names) = boxed(alloc, body)?;
    let (pairs, all) = scoped(alloc, variables, names)?;
    Ok(Reading::other(bound_of(word, pairs, body), all))
}

/// The choice between two expressions, with what it names (XPath 2.0, 3.8).
pub fn choice<'t>(
    alloc: Global,
    test: Reading<'t>,
    yes: Reading<'t>,
    no: Reading<'t>,
) -> Result<Reading<'t>, NoMemory>
    ensures { IfOk result (λ made. seen_reading made ≡ chosen (seen_reading test.entry) (seen_reading yes.entry) (seen_reading no.entry)) }
{
    let (test, first) = boxed(alloc, test)?;
    let (yes, second) = boxed(alloc, yes)?;
    let (no, third) = boxed(alloc, no)?;
    let names = before(first, before(second, third)?)?;
    Ok(Reading::other(Expr::If(test, yes, no), names))
}
