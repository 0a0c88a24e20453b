//! The table of what derivations say.

use crate::given::{MOST, is_setting, text_of};
use crate::printed::print_expr;
use pj_base::NoMemory;
use pj_ll::{End, Run, Step};
use pj_rows::{Row, Section, Table};
use pj_xderive::{Parser, derivation};
use pj_xmeaning::reading;
use pj_xtokens::{End as TextEnd, Token, TokenList, tokens};
use std::alloc::{AllocError, Global};
use std::fmt::Write;

/// Answers a text with the expression that its tokens say by their derivation, or with the first fault of the tokens. Where the
/// section has the setting `asks derivation`, it says only whether there is one.
#[derive(Drop)]
pub struct Meanings {
    parser: Parser,
}

/// What a section asks for: the expression, or whether there is a derivation.
#[derive(Clone, Copy)]
enum Asked {
    Expression,
    Derivation,
}

/// The offset of a token, or of the end.
fn offset(found: &TokenList<'_>, place: u32) -> u32 {
    match found.list.as_slice().get(place as usize) {
        Some(token) => token.from,
        None => match found.end {
            TextEnd::Text(at) | TextEnd::Fault(at) => at,
        },
    }
}

/// Puts the expression of a derivation.
fn put_expression(
    out: &mut String,
    alloc: Global,
    steps: &[Step],
    tokens: &[Token<'_>],
) -> Result<(), NoMemory> {
    let read = reading(alloc, steps, tokens)?;
    print_expr(out, alloc, &read.expr)?;
    Ok(())
}

/// Puts how a derivation ends.
fn put_end(out: &mut String, found: &TokenList<'_>, end: End) -> Result<(), AllocError> {
    match end {
        End::Whole => out.push_str("whole"),
        End::Stops(place) => write!(out, "! Expected {}", offset(found, place)),
        End::LeftOut(place) => write!(out, "! Outside {}", offset(found, place)),
        End::TooDeep(place) => write!(out, "! Deep {}", offset(found, place)),
    }
}

/// Puts what is asked of a derivation.
fn put_derived(
    out: &mut String,
    alloc: Global,
    found: &TokenList<'_>,
    run: &Run,
    asked: Asked,
) -> Result<(), NoMemory> {
    match (run.end, asked) {
        (End::Whole, Asked::Expression) => {
            put_expression(out, alloc, run.steps.as_slice(), found.list.as_slice())
        }
        _ => Ok(put_end(out, found, run.end)?),
    }
}

impl Meanings {
    /// The table, with a parser for all its rows.
    pub fn new(alloc: Global) -> Result<Meanings, NoMemory> {
        let parser = Parser::new(alloc)?;
        Ok(Meanings { parser })
    }

    /// Puts what is asked of the tokens of a text.
    fn put_found(
        &self,
        out: &mut String,
        alloc: Global,
        found: &TokenList<'_>,
        asked: Asked,
    ) -> Result<(), NoMemory> {
        let list = found.list.as_slice();
        if list.len() > MOST {
            return Ok(out.push_str("! too long")?);
        }
        let run = derivation(alloc, &self.parser, list)?;
        put_derived(out, alloc, found, &run, asked)
    }

    /// Puts what is asked of a text.
    fn put_text(
        &self,
        out: &mut String,
        alloc: Global,
        text: &str,
        asked: Asked,
    ) -> Result<(), NoMemory> {
        if text.len() > MOST {
            return Ok(out.push_str("! too long")?);
        }
        let found = tokens(alloc, text)?;
        self.put_found(out, alloc, &found, asked)
    }
}

impl Table for Meanings {
    fn has_setting(&self, name: &str) -> bool {
        is_setting(name) || name == "asks"
    }

    fn answer(&self, alloc: Global, section: &Section, row: &Row) -> Result<String, NoMemory> {
        let asked = match section.setting("asks") {
            Some("derivation") => Asked::Derivation,
            _ => Asked::Expression,
        };
        let text = text_of(alloc, section, row)?;
        let mut out = String::new(alloc);
        self.put_text(&mut out, alloc, text.as_str(), asked)?;
        Ok(out)
    }
}
