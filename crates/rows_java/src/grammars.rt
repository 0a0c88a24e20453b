//! Grammars of a few rules. Given are the pieces of a grammar, and found is whether it is well-formed. By the settings `ends`
//! and `steps` given are a grammar and, behind `on`, kinds of tokens, and found is the derivation; a section's setting
//! `grammar` has the grammar for all of its rows.
use crate::pieces::{grammar_of, kinds_of};
use crate::source::{put, put_between};
use pj_base::NoMemory;
use pj_peg::{WellFormed, run};
use pj_peg_grammar::{Derivation, GrammarFault, Step};
use pj_rows::{Row, Section, Table};
use std::alloc::Global;
use std::fmt::Write;

/// The rows of grammars.
pub struct Grammars;

/// What is asked of a grammar.
#[derive(Clone, Copy)]
enum Question {
    /// Where the first rule ends, and the number of steps of the derivation.
    Ends,
    /// The steps of the derivation.
    Steps,
}

/// Puts why a grammar is not well-formed.
fn put_fault(out: &mut String, fault: GrammarFault) -> Result<(), NoMemory> {
    match fault {
        GrammarFault::LeftRecursion(rule) => write!(out, "! rule {rule} comes to itself")?,
        GrammarFault::EmptyRepeat(rule) => {
            write!(out, "! rule {rule} repeats what can take nothing")?
        }
        GrammarFault::UnknownRule(rule) => {
            write!(out, "! rule {rule} names a rule that is not there")?
        }
        GrammarFault::Memory => put(out, "! memory")?,
    }
    Ok(())
}

/// Puts where the first rule ends, and the number of steps.
fn put_end(out: &mut String, derivation: &Derivation) -> Result<(), NoMemory> {
    let count = derivation.len();
    if count > 0 {
        let to = derivation.step(0).to;
        write!(out, "{to} by {count}")?;
    }
    Ok(())
}

/// Puts a step.
fn put_step(out: &mut String, step: Step) -> Result<(), NoMemory> {
    put_between(out, "; ")?;
    write!(
        out,
        "{} {}-{} to {}",
        step.rule, step.from, step.to, step.next
    )?;
    Ok(())
}

/// Puts the steps.
fn put_steps(out: &mut String, derivation: &Derivation) -> Result<(), NoMemory> {
    for number in 0..derivation.len() {
        put_step(out, derivation.step(number))?;
    }
    Ok(())
}

/// Puts what is asked of a derivation.
fn put_derivation(
    out: &mut String,
    derivation: &Derivation,
    question: Question,
) -> Result<(), NoMemory> {
    match question {
        Question::Ends => put_end(out, derivation),
        Question::Steps => put_steps(out, derivation),
    }
}

/// Puts what is asked of the derivation of these kinds of tokens.
fn put_derived(
    out: &mut String,
    alloc: Global,
    grammar: &WellFormed,
    kinds: &[u16],
    question: Question,
) -> Result<(), NoMemory> {
    if kinds.len() > 200_000 {
        return put(out, "! too long");
    }
    match run(alloc, grammar, kinds) {
        Ok(Some(derivation)) => put_derivation(out, &derivation, question),
        Ok(None) => put(out, "! no derivation"),
        Err(_) => Err(NoMemory),
    }
}

/// Puts what is asked of a grammar and kinds of tokens, as they are written.
fn put_outcome(
    out: &mut String,
    alloc: Global,
    pieces: &str,
    numbers: &str,
    question: Question,
) -> Result<(), NoMemory> {
    let kinds = kinds_of(alloc, numbers)?;
    match grammar_of(alloc, pieces) {
        Ok(grammar) => put_derived(out, alloc, &grammar, kinds.as_slice(), question),
        Err(fault) => put_fault(out, fault),
    }
}

/// Puts whether a grammar is well-formed.
fn put_check(out: &mut String, alloc: Global, pieces: &str) -> Result<(), NoMemory> {
    match grammar_of(alloc, pieces) {
        Ok(_) => put(out, "well-formed"),
        Err(fault) => put_fault(out, fault),
    }
}

/// What a section asks.
fn question_of(section: &Section) -> Option<Question> {
    if section.has("ends") {
        return Some(Question::Ends);
    }
    if section.has("steps") {
        return Some(Question::Steps);
    }
    None
}

/// The grammar and the kinds of tokens of a row.
fn parts_of<'r>(section: &'r Section, given: &'r str) -> (&'r str, &'r str) {
    match section.setting("grammar") {
        Some(grammar) => (grammar, given),
        None => given.split_once(" on ").unwrap_or((given, "")),
    }
}

/// Puts what a section asks of a row.
fn put_asked(
    out: &mut String,
    alloc: Global,
    section: &Section,
    given: &str,
) -> Result<(), NoMemory> {
    match question_of(section) {
        None => put_check(out, alloc, given),
        Some(question) => {
            let (pieces, numbers) = parts_of(section, given);
            put_outcome(out, alloc, pieces, numbers, question)
        }
    }
}

impl Table for Grammars {
    fn has_setting(&self, name: &str) -> bool {
        name == "ends" || name == "steps" || name == "grammar"
    }

    fn answer(&self, alloc: Global, section: &Section, row: &Row) -> Result<String, NoMemory> {
        let mut found = String::new(alloc);
        put_asked(&mut found, alloc, section, row.given.as_str())?;
        Ok(found)
    }
}
