//! The pieces of grammars, as rows write them: `seq2 token1 rule0`.
use pj_base::NoMemory;
use pj_grammar::{Piece, items_of};
use pj_peg::{Grammar, WellFormed};
use pj_peg_grammar::GrammarFault;
use std::alloc::Global;

/// The piece of a word without a number.
fn plain_piece(word: &str) -> Option<Piece> {
    match word {
        "any" => Some(Piece::Any),
        "star" => Some(Piece::Star),
        "maybe" => Some(Piece::Maybe),
        "and" => Some(Piece::And),
        "not" => Some(Piece::Not),
        _ => None,
    }
}

/// The piece of a word, if it is one.
fn piece_of(word: &str) -> Option<Piece> {
    if let Some(number) = word.strip_prefix("token") {
        return Some(Piece::Token(number.parse::<u16>().ok()?));
    }
    if let Some(number) = word.strip_prefix("rule") {
        return Some(Piece::Rule(number.parse::<u16>().ok()?));
    }
    if let Some(number) = word.strip_prefix("seq") {
        return Some(Piece::Seq(number.parse::<u8>().ok()?));
    }
    if let Some(number) = word.strip_prefix("choice") {
        return Some(Piece::Choice(number.parse::<u8>().ok()?));
    }
    plain_piece(word)
}

/// The pieces of words, up to the first that is none.
fn pieces_of(alloc: Global, words: &str) -> Result<Vec<Piece>, NoMemory> {
    let mut pieces = Vec::new(alloc);
    for word in words.split(' ') {
        let Some(piece) = piece_of(word) else {
            break;
        };
        pieces.push(piece)?;
    }
    Ok(pieces)
}

/// The grammar of the rules that the pieces stand for, or its fault. No rule at all, and more rules than there may be, are want
/// of memory, which no row wants.
fn made(alloc: Global, pieces: &[Piece]) -> Result<WellFormed, GrammarFault> {
    let rules = items_of(alloc, pieces)?;
    if rules.len() == 0 || rules.len() > 65536 {
        return Err(GrammarFault::Memory);
    }
    Grammar::new(rules).checked(alloc)
}

/// The grammar of the pieces that are written so, or its fault.
pub fn grammar_of(alloc: Global, words: &str) -> Result<WellFormed, GrammarFault> {
    let pieces = pieces_of(alloc, words)?;
    made(alloc, pieces.as_slice())
}

/// Puts a kind so many times.
fn put_kind(kinds: &mut Vec<u16>, times: usize, kind: u16) -> Result<(), NoMemory> {
    let len = kinds.len().saturating_add(times);
    kinds.resize(len, kind)?;
    Ok(())
}

/// The kinds of tokens that are written as numbers, `60*1` for the kind 1 written 60 times. What is no number is 0.
pub fn kinds_of(alloc: Global, numbers: &str) -> Result<Vec<u16>, NoMemory> {
    let mut kinds = Vec::new(alloc);
    for written in numbers.split_whitespace() {
        let (times, kind) = written.split_once('*').unwrap_or(("1", written));
        let times = times.parse::<usize>().unwrap_or(0);
        put_kind(&mut kinds, times, kind.parse::<u16>().unwrap_or(0))?;
    }
    Ok(kinds)
}
