//! The tokens of small texts. Given is a text, and found are its tokens and faults, each with where it stands.
use crate::source::{put, put_between, source_of};
use pj_base::NoMemory;
use pj_lex::{LexFault, Lexer, Token};
use pj_rows::{Row, Section, Table};
use pj_source::Source;
use std::alloc::Global;
use std::fmt::Write;

/// The rows of tokens.
pub struct Tokens;

/// Puts a token or a fault with where it stands.
fn put_answer(out: &mut String, answer: &Result<Token<'_>, LexFault>) -> Result<(), NoMemory> {
    match answer {
        Ok(token) => write!(
            out,
            "{:?} {}-{}",
            token.kind, token.span.from, token.span.to
        )?,
        Err(fault) => write!(out, "! {} at {}", fault.kind, fault.offset)?,
    }
    Ok(())
}

/// Puts the tokens and faults of a source. The lexer is asked on after it has told the end.
fn put_tokens(out: &mut String, source: &Source) -> Result<(), NoMemory> {
    let mut lexer = Lexer::over(source.text());
    for _ in 0..40 {
        if let Some(answer) = lexer.next_token() {
            put_between(out, "; ")?;
            put_answer(out, &answer)?;
        }
    }
    Ok(())
}

/// Puts the tokens and faults of a text.
fn put_tokens_of(out: &mut String, alloc: Global, text: &str) -> Result<(), NoMemory> {
    match source_of(alloc, text) {
        Some(source) => put_tokens(out, &source),
        None => put(out, "! no text"),
    }
}

impl Table for Tokens {
    fn answer(&self, alloc: Global, _section: &Section, row: &Row) -> Result<String, NoMemory> {
        let mut found = String::new(alloc);
        put_tokens_of(&mut found, alloc, row.given.as_str())?;
        Ok(found)
    }
}
