//! The table of expressions and first faults.

use crate::given::{is_setting, text_of};
use crate::printed::print_expr;
use pj_base::{Names, NoMemory, Text};
use pj_rows::{Row, Section, Table};
use pj_xexpressions::Expr;
use pj_xparse::{Parser, XSyntax, parse_with};
use std::alloc::{AllocError, Global};
use std::fmt::Write;

/// Answers a text with its expression, or with its first fault. Where the section has the setting `asks taken`, any expression is
/// `taken`. The variable `p` is given.
#[derive(Drop)]
pub struct Syntax {
    parser: Parser,
    variables: Names,
}

/// What a section asks for: the expression, or whether there is one.
#[derive(Clone, Copy)]
enum Asked {
    Expression,
    Taken,
}

/// The variable that is given.
fn variables(alloc: Global) -> Result<Names, NoMemory> {
    let mut variables = Names::new(alloc);
    variables.push(Text::from_str(alloc, "p")?)?;
    Ok(variables)
}

/// Puts a fault.
fn put_fault(out: &mut String, fault: &XSyntax) -> Result<(), AllocError> {
    match fault {
        XSyntax::Token(from) => write!(out, "! Token {from}"),
        XSyntax::Expected(from) => write!(out, "! Expected {from}"),
        XSyntax::UnknownFunction(name, from) => {
            write!(out, "! UnknownFunction {} {from}", name.as_str())
        }
        XSyntax::UnknownVariable(name) => write!(out, "! UnknownVariable {}", name.as_str()),
        XSyntax::Outside(from) => write!(out, "! Outside {from}"),
        XSyntax::Deep(depth) => write!(out, "! Deep {depth}"),
        XSyntax::Memory => out.push_str("! Memory"),
    }
}

/// Puts what is asked of an expression.
fn put_expression(
    out: &mut String,
    alloc: Global,
    expr: &Expr,
    asked: Asked,
) -> Result<(), AllocError> {
    match asked {
        Asked::Expression => print_expr(out, alloc, expr),
        Asked::Taken => out.push_str("taken"),
    }
}

impl Syntax {
    /// The table, with the variable and a parser for all its rows.
    pub fn new(alloc: Global) -> Result<Syntax, NoMemory> {
        let variables = variables(alloc)?;
        let parser = Parser::new(alloc)?;
        Ok(Syntax { parser, variables })
    }

    /// Puts what is asked of a text, or its fault.
    fn put_text(
        &self,
        out: &mut String,
        alloc: Global,
        text: &str,
        asked: Asked,
    ) -> Result<(), AllocError> {
        match parse_with(alloc, &self.parser, text, &self.variables) {
            Ok(expr) => put_expression(out, alloc, &expr, asked),
            Err(fault) => put_fault(out, &fault),
        }
    }
}

impl Table for Syntax {
    fn has_setting(&self, name: &str) -> bool {
        is_setting(name) || name == "asks"
    }

    fn answer(&self, alloc: Global, section: &Section, row: &Row) -> Result<String, NoMemory> {
        let asked = match section.setting("asks") {
            Some("taken") => Asked::Taken,
            _ => Asked::Expression,
        };
        let text = text_of(alloc, section, row)?;
        let mut out = String::new(alloc);
        self.put_text(&mut out, alloc, text.as_str(), asked)?;
        Ok(out)
    }
}
