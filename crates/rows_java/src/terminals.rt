//! The terminals of tokens. Given are the kind of a token and its text.
use crate::source::put;
use pj_base::NoMemory;
use pj_grammar::Terminal;
use pj_lex::TokenKind;
use pj_rows::{Row, Section, Table};
use std::alloc::Global;
use std::fmt::Write;

/// The rows of terminals.
pub struct Terminals;

/// The kind of tokens of a name, among those that the rows name.
fn kind_named(name: &str) -> Option<TokenKind> {
    match name {
        "Identifier" => Some(TokenKind::Identifier),
        "StringLiteral" => Some(TokenKind::StringLiteral),
        _ => None,
    }
}

/// Puts a terminal.
fn put_terminal(out: &mut String, terminal: Terminal) -> Result<(), NoMemory> {
    match terminal {
        Terminal::Token(kind) => write!(out, "Token {kind:?}")?,
        Terminal::Word(word) => write!(out, "Word {word:?}")?,
    }
    Ok(())
}

/// Puts the terminal of a kind of tokens and a text.
fn put_terminal_of(out: &mut String, given: &str) -> Result<(), NoMemory> {
    let (name, text) = given.split_once(' ').unwrap_or((given, ""));
    match kind_named(name) {
        Some(kind) => put_terminal(out, Terminal::of(kind, text)),
        None => put(out, "! no such kind"),
    }
}

impl Table for Terminals {
    fn answer(&self, alloc: Global, _section: &Section, row: &Row) -> Result<String, NoMemory> {
        let mut found = String::new(alloc);
        put_terminal_of(&mut found, row.given.as_str())?;
        Ok(found)
    }
}
