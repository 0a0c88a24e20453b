//! The table of calls of functions.

use crate::arguments::{InScope, arguments_of, in_scope};
use crate::items::{put, put_given};
use pj_base::NoMemory;
use pj_rows::{Row, Section, Table};
use pj_xexpressions::{Expr, Function};
use pj_xfuncs::{PatternFault, Patterns, call};
use pj_xparse::{Parser, parse_with};
use std::alloc::Global;

/// Answers a call with what it gives, another expression with `taken`, and each with its first refused pattern. The variable `p`
/// is a string that is a pattern, `n` an integer, and `two` two strings.
#[derive(Drop)]
pub struct Functions {
    parser: Parser,
    scope: InScope,
}

/// Puts what the call of a function gives.
fn put_call(
    alloc: Global,
    out: &mut String,
    function: Function,
    arguments: &[Expr],
    patterns: &Patterns,
) -> Result<(), NoMemory> {
    let arguments = arguments_of(alloc, arguments)?;
    let given = call(alloc, function, &arguments, patterns);
    put_given(out, &given)
}

/// Puts what an expression gives whose patterns are taken: `taken` where it is no call.
fn put_taken(
    alloc: Global,
    out: &mut String,
    expr: &Expr,
    patterns: &Patterns,
) -> Result<(), NoMemory> {
    match expr {
        Expr::Call(function, arguments) => {
            put_call(alloc, out, *function, arguments.as_slice(), patterns)
        }
        _ => put(out, "taken"),
    }
}

/// Puts the pattern that is refused.
fn put_refused(out: &mut String, fault: &PatternFault) -> Result<(), NoMemory> {
    match fault {
        PatternFault::Refused(pattern) => {
            put(out, "! Refused ")?;
            put(out, pattern.as_str())
        }
        PatternFault::Memory => Err(NoMemory),
    }
}

/// Puts what an expression gives, or its first refused pattern.
fn put_found(
    alloc: Global,
    out: &mut String,
    expr: &Expr,
    scope: &InScope,
) -> Result<(), NoMemory> {
    match Patterns::of(alloc, expr, &scope.variables) {
        Ok(patterns) => put_taken(alloc, out, expr, &patterns),
        Err(fault) => put_refused(out, &fault),
    }
}

impl Functions {
    /// The table with the variables, and a parser for all its rows.
    pub fn new(alloc: Global) -> Result<Functions, NoMemory> {
        let parser = Parser::new(alloc)?;
        let scope = in_scope(alloc)?;
        Ok(Functions { parser, scope })
    }

    /// Puts what a text comes to.
    fn put_text(&self, out: &mut String, alloc: Global, text: &str) -> Result<(), NoMemory> {
        match parse_with(alloc, &self.parser, text, &self.scope.names) {
            Ok(expr) => put_found(alloc, out, &expr, &self.scope),
            Err(_) => put(out, "! no expression"),
        }
    }
}

impl Table for Functions {
    fn answer(&self, alloc: Global, _section: &Section, row: &Row) -> Result<String, NoMemory> {
        let mut out = String::new(alloc);
        self.put_text(&mut out, alloc, row.given.as_str())?;
        Ok(out)
    }
}
