//! The table of expressions over the small tree.
ghost use Rattle.std.specs.Prelude.{◌≡◌, ℕ, IfOk, length};
ghost use Rattle.pj_xvalue.specs.OfTree.{VariablesOfTree};
ghost use Rattle.pj_xsteps.specs.Context.{given_of};

use crate::facts::Facts;
use crate::given::{is_setting, text_of};
use crate::items::{put, put_given};
use crate::replies::Replies;
use crate::tree::small_tree;
use pj_base::{Names, NoMemory, Text};
use pj_rows::{Row, Section, Table};
use pj_tree::SyntaxTree;
use pj_xeval::{Focus, evaluate};
use pj_xexpressions::Expr;
use pj_xfuncs::Patterns;
use pj_xparse::{Parser, parse_with};
use pj_xvalue::{BoundVars, Item, Sequence};
use std::alloc::Global;

/// Answers an expression with what it gives at the document of the small tree. The variable `given` is 7 and 8.
#[derive(Drop)]
pub struct Evaluation {
    parser: Parser,
    names: Names,
    tree: SyntaxTree<'static>,
}

/// The name of the variable that is given.
fn names(alloc: Global) -> Result<Names, NoMemory> {
    let mut names = Names::new(alloc);
    names.push(Text::from_str(alloc, "given")?)?;
    Ok(names)
}

/// The variable `given`, which is 7 and 8.
fn given(alloc: Global) -> Result<BoundVars<'static>, NoMemory>
    ensures { (n : ℕ) → IfOk result (λ variables. VariablesOfTree n (given_of variables)) }
{
    let mut value = Sequence::new(alloc);
    value.push(Item::Int(7))?;
    value.push(Item::Int(8))?;
    let mut variables = BoundVars::new(alloc);
    let name = Text::from_str(alloc, "given")?;
    variables.push((name, value))?;
    Ok(variables)
}

/// Puts what an expression gives at the document: its items, or the code of its error.
fn put_at_document<'t>(
    out: &mut String,
    alloc: Global,
    tree: &'t SyntaxTree<'static>,
    expr: &Expr,
    facts: &'t Facts,
    variables: &'t BoundVars<'static>,
    patterns: &'t Patterns,
) -> Result<(), NoMemory>
    requires facts { facts.now.nodes ≡ length tree.now.nodes }
    requires variables { (n : ℕ) → VariablesOfTree n (given_of variables.now) }
{
    let mut calls = Replies { nodes: tree.len() };
    let focus = Focus {
        item: Item::Document,
        position: 1,
        size: 1,
        variables,
        patterns,
    };
    let given = evaluate(alloc, expr, focus, tree, facts, &mut calls);
    put_given(out, &given)
}

/// Puts what an expression gives.
fn put_expression(
    out: &mut String,
    alloc: Global,
    tree: &SyntaxTree<'static>,
    expr: &Expr,
) -> Result<(), NoMemory> {
    let facts = Facts { nodes: tree.len() };
    let variables = given(alloc)?;
    match Patterns::of(alloc, expr, &variables) {
        Ok(patterns) => put_at_document(out, alloc, tree, expr, &facts, &variables, &patterns),
        Err(_) => put(out, "! Refused"),
    }
}

/// The small tree.
fn tree(alloc: Global) -> Result<SyntaxTree<'static>, NoMemory> {
    match small_tree(alloc) {
        Ok(tree) => Ok(tree),
        Err(_) => Err(NoMemory),
    }
}

impl Evaluation {
    /// The table over the tree, with a parser for all its rows.
    pub fn new(alloc: Global) -> Result<Evaluation, NoMemory> {
        let names = names(alloc)?;
        let parser = Parser::new(alloc)?;
        let tree = tree(alloc)?;
        Ok(Evaluation {
            parser,
            names,
            tree,
        })
    }

    /// Puts what a text gives.
    fn put_text(&self, out: &mut String, alloc: Global, text: &str) -> Result<(), NoMemory> {
        match parse_with(alloc, &self.parser, text, &self.names) {
            Ok(expr) => put_expression(out, alloc, &self.tree, &expr),
            Err(_) => put(out, "! no expression"),
        }
    }
}

impl Table for Evaluation {
    fn has_setting(&self, name: &str) -> bool {
        is_setting(name)
    }

    fn answer(&self, alloc: Global, section: &Section, row: &Row) -> Result<String, NoMemory> {
        let text = text_of(alloc, section, row)?;
        let mut out = String::new(alloc);
        self.put_text(&mut out, alloc, text.as_str())?;
        Ok(out)
    }
}
