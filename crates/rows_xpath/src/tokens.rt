//! The table of tokens.

use crate::given::MOST;
use pj_base::NoMemory;
use pj_rows::{Row, Section, Table};
use pj_xtokens::{End, Token, tokens};
use std::alloc::{AllocError, Global};
use std::fmt::Write;

/// Answers a text with its tokens, and where they end.
pub struct TokenLists;

/// Puts tokens, each with its offset, its kind and its characters.
fn put_tokens(out: &mut String, tokens: &[Token<'_>]) -> Result<(), AllocError> {
    for token in tokens {
        write!(out, "{} {:?} {}; ", token.from, token.kind, token.text)?;
    }
    Ok(())
}

/// Puts where tokens end.
fn put_end(out: &mut String, end: End) -> Result<(), AllocError> {
    match end {
        End::Text(at) => write!(out, "end {at}"),
        End::Fault(at) => write!(out, "fault {at}"),
    }
}

/// Puts the tokens of a text.
fn put_text(out: &mut String, alloc: Global, text: &str) -> Result<(), NoMemory> {
    if text.len() > MOST {
        return Ok(out.push_str("! too long")?);
    }
    let found = tokens(alloc, text)?;
    put_tokens(out, found.list.as_slice())?;
    put_end(out, found.end)?;
    Ok(())
}

impl Table for TokenLists {
    fn answer(&self, alloc: Global, _section: &Section, row: &Row) -> Result<String, NoMemory> {
        let mut out = String::new(alloc);
        put_text(&mut out, alloc, row.given.as_str())?;
        Ok(out)
    }
}
