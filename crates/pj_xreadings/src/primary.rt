//! Literals, variables, and other primary expressions.

ghost use Rattle.std.specs.Prelude.{◌≡◌, ◌∷◌, [], map, IfOk};
ghost use Rattle.pj_xtokens.specs.Answer.{lexed_of};
ghost use Rattle.pj_xexpressions.specs.Trees as tree;
ghost use Rattle.pj_xexpressions.specs.Trees.{alone};
ghost use Rattle.pj_xreadings.specs.Mentions.{Variable};
ghost use Rattle.pj_xreadings.specs.Operands.{other, integer_literal, string_literal, variable, cut_variable};
ghost use Rattle.pj_xreadings.specs.Seen.{seen_mentions, seen_reading};

use crate::named::{Named, Spelling};
use crate::operand::Reading;
use pj_base::{NoMemory, Text};
use pj_xexpressions::Expr;
use pj_xtokens::{
    Token, begins_with_name, behind_first, first_from, first_text, integer_value, string_value,
};
use std::alloc::Global;

/// The integer that the first token writes (XPath 2.0, 3.1.1).
#[tactic(auto, using(crate::proofs::TreeForms::tree_of_integer))]
pub fn integer<'t>(alloc: Global, tokens: &[Token<'t>]) -> Reading<'t>
    ensures { seen_reading result ≡ integer_literal (map lexed_of tokens.now) }
{
    Reading {
        expr: Expr::Integer(integer_value(first_text(tokens))),
        written: Spelling::Number,
        names: Vec::new(alloc),
    }
}

/// The string that the first token writes (XPath 2.0, 3.1.1).
#[tactic(auto, using(crate::proofs::TreeForms::tree_of_string))]
pub fn string<'t>(alloc: Global, tokens: &[Token<'t>]) -> Result<Reading<'t>, NoMemory>
    ensures { IfOk result (λ made. seen_reading made ≡ string_literal (map lexed_of tokens.now)) }
{
    let literal = first_text(tokens);
    Ok(Reading {
        expr: Expr::String(string_value(alloc, literal)?),
        written: Spelling::Literal(literal),
        names: Vec::new(alloc),
    })
}

/// The mention of the variable, alone.
#[tactic(auto, using(crate::proofs::Lists::pushed))]
fn mentioned<'t>(alloc: Global, name: &'t str, from: u32) -> Result<Vec<Named<'t>>, NoMemory>
    ensures { IfOk result (λ made. seen_mentions made.items ≡ Variable name.now from ∷ []) }
{
    let mut names = Vec::new(alloc);
    names.push(Named::Variable(name, from))?;
    Ok(names)
}

/// The variable of the name, whose `$` is the first token (XPath 2.0, 3.1.2).
#[tactic(auto, using(crate::proofs::TreeForms::tree_of_variable))]
pub fn variable<'t>(
    alloc: Global,
    tokens: &[Token<'t>],
    name: &'t str,
) -> Result<Reading<'t>, NoMemory>
    ensures { IfOk result (λ made. seen_reading made ≡ variable (map lexed_of tokens.now) name.now) }
{
    let names = mentioned(alloc, name, first_from(tokens))?;
    let text = Text::from_str(alloc, name)?;
    Ok(Reading {
        expr: Expr::Variable(text),
        written: Spelling::Name(name),
        names,
    })
}

/// A variable that is cut off behind its `$`, which is the first token; a name behind that is its name.
#[tactic(auto, using(crate::proofs::TreeForms::tree_of_variable))]
pub fn cut_variable<'t>(alloc: Global, tokens: &[Token<'t>]) -> Result<Reading<'t>, NoMemory>
    ensures { IfOk result (λ made. seen_reading made ≡ cut_variable (map lexed_of tokens.now)) }
{
    let unnamed = Text::from_str(alloc, "")?;
    let behind = behind_first(tokens);
    if !begins_with_name(behind) {
        return Ok(Reading::other(Expr::Variable(unnamed), Vec::new(alloc)));
    }
    let name = first_text(behind);
    let names = mentioned(alloc, name, first_from(tokens))?;
    Ok(Reading {
        expr: Expr::Variable(unnamed),
        written: Spelling::Name(name),
        names,
    })
}

/// The expression in parentheses, which is no literal and no variable alone.
pub fn parenthesized<'t>(inner: Reading<'t>) -> Reading<'t>
    ensures { seen_reading result ≡ other (seen_reading inner.entry).tree (seen_reading inner.entry).names }
{
    let Reading { expr, names, .. } = inner;
    Reading::other(expr, names)
}

/// `.` alone (XPath 2.0, 3.1.4).
#[tactic(auto, using(crate::proofs::TreeForms::tree_of_context_item))]
pub fn context_item<'t>(alloc: Global) -> Reading<'t>
    ensures { seen_reading result ≡ other (alone tree.ContextItem) [] }
{
    Reading::other(Expr::ContextItem, Vec::new(alloc))
}
