//! The tokens of a source.

ghost use Rattle.std.specs.Prelude.{◌≡◌, ◌<◌, ◌^◌, length, map, IfOk, MatchResult};
ghost use Rattle.std.specs.Str.{chars};
ghost use Rattle.pj_lex.specs.Tokens.{position};
ghost use Rattle.pj_grammar.specs.Words.{AreTokens, seen};
ghost use Rattle.pj_parse.specs.Faults.{IsFaultOfTokens};

use crate::fault::ParseFault;
use pj_lex::{Lexer, Tokens};
use pj_source::Source;
use std::alloc::Global;

/// A lexer at the beginning of the text of a source. No memory is taken.
pub fn tokens<'s>(source: &'s Source) -> Lexer<'s>
    ensures begins { result ≡ position 0 (chars source.now.text) }
{
    Lexer::over(source.text())
}

/// All tokens of a source, comments included, or the fault that ends them. A text of fewer than 2^32 bytes has fewer
/// tokens than that.
pub fn collect_tokens<'s>(alloc: Global, source: &'s Source) -> Result<Tokens<'s>, ParseFault>
    ensures tokens { MatchResult result (λ ts. AreTokens source.now.text (map seen ts)) (IsFaultOfTokens source.now.text) }
    ensures few { IfOk result (λ ts. length ts < 2 ^ 32) }
{
    let mut lexer = tokens(source);
    let mut found = Tokens::new(alloc);
    for _ in 0..u32::MAX {
        match lexer.next_token() {
            None => return Ok(found),
            Some(Err(fault)) => return Err(ParseFault::Lex(fault)),
            Some(Ok(token)) => found.push(token)?,
        }
    }
    Err(ParseFault::Memory)
}
