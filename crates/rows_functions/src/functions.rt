//! Expressions that call PMD's functions, in a file of Java.

ghost use Rattle.std.specs.Prelude.{◌≡◌, ◌<◌, ℕ, [], IfSome, length, Ok};
ghost use Rattle.pj_parse.specs.Parses.{Parses, file_parsed};
ghost use Rattle.pj_parse.specs.PoolText.{IsPoolOf};
ghost use Rattle.pj_properties.specs.OneFile.{IsOneFile};
ghost use Rattle.pj_xvalue.specs.Items.{IsOfTree, value_of_item};

use crate::shown::{fault_text, put_items, text_of};
use pj_attrs::{Facts, tokens_are_in_order};
use pj_base::{Names, NoMemory, Text};
use pj_declared::Declarations;
use pj_exprtypes::Typed;
use pj_file_oracle::{FileOracle, Held};
use pj_javafuncs::JavaCalls;
use pj_outer_names::File;
use pj_parse::{Parsed, parse};
use pj_row_java::{Beneath, place_of};
use pj_rows::{Row, Section, Table, put};
use pj_source::Source;
use pj_symbols::Symbols;
use pj_tree::{Node, SyntaxTree};
use pj_xeval::{Focus, evaluate};
use pj_xexpressions::Expr;
use pj_xfuncs::Patterns;
use pj_xparse::{Parser, parse_with};
use pj_xvalue::{Attributes, BoundVars, Calls, Item, XFault};
use std::alloc::Global;

/// The tables of functions. The settings of a section: `@file` is a text of Java, in which `/*^*/` stands before the context node, which is the outermost one that begins there,
/// and `@path` the file's path. Without `@file` the text stands on the first line of a row, before the expression. Without a mark the context is the document.
#[derive(Drop)]
pub struct Functions {
    parser: Parser,
    names: Names,
}

impl Functions {
    /// The tables, with a parser of expressions for all their rows.
    pub fn new(alloc: Global) -> Result<Functions, NoMemory> {
        Ok(Functions {
            parser: Parser::new(alloc)?,
            names: Names::new(alloc),
        })
    }

    /// The answer for a text of Java and what is asked of it.
    fn answer_text(
        &self,
        alloc: Global,
        text: &str,
        asked: &Asked<'_>,
    ) -> Result<String, NoMemory> {
        match parse_with(alloc, &self.parser, asked.expression, &self.names) {
            Ok(expression) => answer_expression(alloc, text, &expression, asked),
            Err(_) => text_of(alloc, "! no expression"),
        }
    }
}

/// What a row asks of a text of Java: a path, an expression, the classes that are written out, and the text with its mark.
#[derive(Clone, Copy)]
struct Asked<'r> {
    path: &'r str,
    expression: &'r str,
    classes: &'r str,
    marked: &'r str,
}

/// A line, and those below it.
fn split(text: &str) -> (&str, &str) {
    text.split_once('\n').unwrap_or((text, ""))
}

impl Table for Functions {
    fn has_setting(&self, name: &str) -> bool {
        matches!(name, "file" | "path")
    }

    fn answer(&self, alloc: Global, section: &Section, row: &Row) -> Result<String, NoMemory> {
        let (first, rest) = split(row.given.as_str());
        let (text, lines) = match section.setting("file") {
            Some(text) => (text, row.given.as_str()),
            None => (first, rest),
        };
        let (expression, classes) = split(lines);
        let asked = Asked {
            path: section.setting("path").unwrap_or("A.java"),
            expression: expression.trim(),
            classes,
            marked: text,
        };
        self.answer_text(alloc, text, &asked)
    }
}

/// The answer for an expression over a text of Java.
fn answer_expression(
    alloc: Global,
    text: &str,
    expression: &Expr,
    asked: &Asked<'_>,
) -> Result<String, NoMemory> {
    if text.len() > 1_000_000 {
        return text_of(alloc, "! too long");
    }
    match Source::read(alloc, text.as_bytes()) {
        Ok(source) => answer_source(alloc, &source, expression, asked),
        Err(_) => text_of(alloc, "! no text"),
    }
}

/// The same over its source.
fn answer_source(
    alloc: Global,
    source: &Source,
    expression: &Expr,
    asked: &Asked<'_>,
) -> Result<String, NoMemory> {
    match parse(alloc, source) {
        Ok(parsed) => answer_parsed(alloc, source, &parsed, expression, asked),
        Err(_) => text_of(alloc, "! no tree"),
    }
}

/// The same over its tree.
fn answer_parsed(
    alloc: Global,
    source: &Source,
    parsed: &Parsed<'_>,
    expression: &Expr,
    asked: &Asked<'_>,
) -> Result<String, NoMemory>
    requires parses { Parses source.now.text (Ok (file_parsed parsed.now)) }
    requires text { parsed.now.tree.text ≡ source.now.text }
    requires pool { IsPoolOf parsed.now.tree parsed.now.pool }
{
    tokens_are_in_order(source.text(), parsed);
    let symbols = Symbols::of(alloc, &parsed.tree)?;
    answer_of_one_file(alloc, source, parsed, &symbols, expression, asked)
}

/// The same with its declarations.
fn answer_of_one_file(
    alloc: Global,
    source: &Source,
    parsed: &Parsed<'_>,
    symbols: &Symbols,
    expression: &Expr,
    asked: &Asked<'_>,
) -> Result<String, NoMemory>
    requires one_file { IsOneFile parsed.now symbols.now }
    requires text { parsed.now.tree.text ≡ source.now.text }
{
    let facts = Facts::new(source, parsed, symbols);
    let declarations = Declarations::of(alloc, &parsed.tree)?;
    let file = File::new(alloc, &parsed.tree, symbols, &declarations)?;
    answer_of_file(alloc, &file, &facts, expression, asked)
}

/// The same with its facts.
fn answer_of_file<A: Attributes>(
    alloc: Global,
    file: &File<'_>,
    facts: &A,
    expression: &Expr,
    asked: &Asked<'_>,
) -> Result<String, NoMemory>
    requires nodes { A.nodes facts.now ≡ length file.now.nodes }
    requires text { A.text_length facts.now ≡ length file.now.text }
{
    let path = Text::from_str(alloc, asked.path)?;
    let mut beneath = Beneath::of(alloc, asked.classes)?;
    let mut out = String::new(alloc);
    let at = marked_node(file.tree(), asked.marked);
    if let Err(fault) = put_value(
        alloc,
        file,
        facts,
        expression,
        &path,
        at,
        &mut beneath,
        &mut out,
    ) {
        put(&mut out, &[fault_text(fault)])?;
    }
    if !beneath.noted.as_str().is_empty() {
        put(&mut out, &[", asks", beneath.noted.as_str()])?;
    }
    Ok(out)
}

/// The node that is marked, if one is.
fn marked_node(tree: &SyntaxTree<'_>, marked: &str) -> Option<Node>
    ensures { IfSome result (λ n. n.0 < length tree.now.nodes) }
{
    if marked.contains("/*^*/") {
        place_of(tree, marked)
    } else {
        None
    }
}

/// The node, or the document.
fn item_at(at: Option<Node>) -> Item<'static>
    ensures { (nodes : ℕ) → IfSome at (λ n. n.0 < nodes) → IsOfTree nodes (value_of_item result) }
{
    match at {
        Some(n) => Item::Node(n),
        None => Item::Document,
    }
}

/// Puts the value of an expression.
fn put_value<A: Attributes>(
    alloc: Global,
    file: &File<'_>,
    facts: &A,
    expression: &Expr,
    path: &Text,
    at: Option<Node>,
    beneath: &mut Beneath,
    out: &mut String,
) -> Result<(), XFault>
    requires nodes { A.nodes facts.now ≡ length file.now.nodes }
    requires text { A.text_length facts.now ≡ length file.now.text }
    requires inside { IfSome at (λ n. n.0 < length file.now.nodes) }
{
    let variables = BoundVars::new(alloc);
    match Patterns::of(alloc, expression, &variables) {
        Ok(patterns) => put_with(
            alloc, file, facts, expression, path, at, &variables, &patterns, beneath, out,
        ),
        Err(_) => Ok(put(out, &["! no patterns"])?),
    }
}

/// Puts the value of an expression with its patterns, where no variable is given.
fn put_with<'t, A: Attributes>(
    alloc: Global,
    file: &'t File<'_>,
    facts: &'t A,
    expression: &Expr,
    path: &'t Text,
    at: Option<Node>,
    variables: &'t BoundVars<'static>,
    patterns: &'t Patterns,
    beneath: &mut Beneath,
    out: &mut String,
) -> Result<(), XFault>
    requires nodes { A.nodes facts.now ≡ length file.now.nodes }
    requires text { A.text_length facts.now ≡ length file.now.text }
    requires inside { IfSome at (λ n. n.0 < length file.now.nodes) }
    requires variables { variables.now ≡ [] }
{
    let mut held = Held::new(alloc);
    let mut types = Typed::new(alloc);
    let oracle = FileOracle::new(alloc, file, beneath, &mut held);
    let calls = JavaCalls::new(oracle, &mut types, facts, path);
    let focus = Focus {
        item: item_at(at),
        position: 1,
        size: 1,
        variables,
        patterns,
    };
    put_by(alloc, file.tree(), facts, expression, focus, calls, out)
}

/// Puts the value of an expression by these functions of PMD.
fn put_by<'t, A: Attributes, C: Calls + Drop>(
    alloc: Global,
    tree: &'t SyntaxTree<'t>,
    facts: &'t A,
    expression: &Expr,
    focus: Focus<'t>,
    mut calls: C,
    out: &mut String,
) -> Result<(), XFault>
    requires facts { A.nodes facts.now ≡ length tree.now.nodes }
    requires nodes { C.nodes calls ≡ length tree.now.nodes }
    requires item { IsOfTree (length tree.now.nodes) (value_of_item focus.item) }
    requires variables { focus.variables.now ≡ [] }
{
    let items = evaluate(alloc, expression, focus, tree, facts, &mut calls)?;
    Ok(put_items(out, &items)?)
}
