//! Expressions as they are read, and the variables and arguments around them.

ghost use Rattle.std.specs.Prelude.{◌≡◌, IfOk};
ghost use Rattle.pj_xexpressions.specs.Trees.{tree_of};
ghost use Rattle.pj_xreadings.specs.Operands.{other, nothing};
ghost use Rattle.pj_xreadings.specs.Seen.{seen_reading, seen_mentions};

use crate::front::Front;
use crate::named::{Named, Spelling};
use pj_base::NoMemory;
use pj_xexpressions::Expr;
use std::alloc::Global;

/// An expression as it is read.
#[derive(Drop)]
pub struct Reading<'t> {
    /// The expression itself.
    pub expr: Expr,
    /// How it is written, where it is a literal or a variable alone.
    pub written: Spelling<'t>,
    /// What it names, from the last on.
    pub names: Vec<Named<'t>>,
}

impl<'t> Reading<'t> {
    /// An expression that is neither a literal nor a variable alone.
    pub fn other(expr: Expr, names: Vec<Named<'t>>) -> Reading<'t>
        ensures { seen_reading result ≡ other (tree_of expr) (seen_mentions names.entry.items) }
    {
        Reading {
            expr,
            written: Spelling::Other,
            names,
        }
    }

    /// The empty sequence, where no expression is there.
    #[tactic(auto, using(crate::proofs::TreeForms::tree_of_comma))]
    pub fn nothing(alloc: Global) -> Reading<'t>
        ensures { seen_reading result ≡ nothing }
    {
        Reading::other(Expr::Comma(Vec::new(alloc)), Vec::new(alloc))
    }
}

/// The expression in a box, and what it names, from the last on. A function that may want memory holds expressions in boxes: one by value
/// would have to be let go, variant by variant, wherever memory is wanting.
pub fn boxed<'t>(
    alloc: Global,
    reading: Reading<'t>,
) -> Result<(Box<Expr>, Vec<Named<'t>>), NoMemory>
    ensures expr { IfOk result (λ made. tree_of made.0.value ≡ (seen_reading reading.entry).tree) }
    ensures names { IfOk result (λ made. seen_mentions made.1.items ≡ (seen_reading reading.entry).names) }
{
    let Reading { expr, names, .. } = reading;
    Ok((Box::new(alloc, expr)?, names))
}

/// A variable and the expression to which it is bound.
#[derive(Drop)]
pub struct Bound<'t> {
    /// The variable's name.
    pub name: &'t str,
    /// The expression.
    pub value: Reading<'t>,
}

/// The arguments of a call.
#[derive(Drop)]
pub struct Given<'t> {
    /// Each with the offset of its first token, in bytes from 0.
    pub list: Front<(u32, Reading<'t>)>,
    /// Whether a `)` stands behind them.
    pub closed: bool,
}
