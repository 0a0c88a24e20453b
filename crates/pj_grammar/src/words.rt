//! The words of a source: its tokens without comments, which the grammar sees.

ghost use Rattle.std.specs.Prelude.{◌≡◌, ◌≤◌, length, map, not, IfOk};
ghost use Rattle.pj_grammar.specs.Words.{is_comment, seen, words, spans, terminals};

use crate::terminal::Terminal;
use pj_base::NoMemory;
use pj_lex::{Token, TokenKind};
use pj_tree::Span;
use std::alloc::Global;

/// Whether the grammar sees a token.
fn is_word(token: &Token<'_>) -> bool
    ensures { result ≡ not (is_comment token.now.kind) }
{
    token.kind != TokenKind::Comment
}

/// Where the words stand.
pub fn word_spans(alloc: Global, tokens: &[Token<'_>]) -> Result<Vec<Span>, NoMemory>
    ensures { IfOk result (λ found. found.items ≡ spans (words (map seen tokens.now))) }
{
    let mut found = Vec::new(alloc);
    for token in tokens {
        if is_word(token) {
            found.push(token.span)?;
        }
    }
    Ok(found)
}

/// What the words are in the grammar.
pub fn word_terminals(alloc: Global, tokens: &[Token<'_>]) -> Result<Vec<u16>, NoMemory>
    ensures terminals { IfOk result (λ found. found.items ≡ terminals (words (map seen tokens.now))) }
    ensures few { IfOk result (λ found. length found.items ≤ length tokens.now) }
{
    let mut found = Vec::new(alloc);
    for token in tokens {
        if is_word(token) {
            found.push(Terminal::of(token.kind, token.text).number())?;
        }
    }
    Ok(found)
}
