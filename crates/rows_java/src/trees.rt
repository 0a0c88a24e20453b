//! The trees of Java texts. Given is a text, in the place of the dots of the setting `frame` where there is one, and found are
//! the nodes below the first node of the kind that the setting `below` names, or below the root. By the setting `texts` found
//! are the texts that nodes stand for. By the setting `stretches` given are a kind of nodes and, behind `in`, a text, and found
//! is where the nodes of the kind begin and end.
use crate::nested::{first_of, put_below};
use crate::source::{put, put_between, source_of};
use pj_base::NoMemory;
use pj_parse::{ParseFault, Parsed, parse};
use pj_rows::{Row, Section, Table};
use pj_source::Source;
use pj_tree::{Node, Span, SyntaxTree};
use std::alloc::Global;
use std::fmt::Write;

/// The rows of trees.
pub struct Trees;

/// What is asked of a tree.
#[derive(Clone, Copy)]
enum Question<'q> {
    /// The nodes below the first one of a kind, by its name.
    Below(&'q str),
    /// Where the nodes of a kind begin and end, by its name.
    Stretches(&'q str),
    /// The texts that nodes stand for.
    Texts,
}

/// Puts the nodes below the first one of a kind.
fn put_below_kind(out: &mut String, tree: &SyntaxTree<'_>, kind: &str) -> Result<(), NoMemory> {
    match first_of(tree, kind) {
        Some(root) => put_below(out, tree, root),
        None => put(out, "! no such node"),
    }
}

/// Puts where a node begins and ends.
fn put_span(out: &mut String, span: Span) -> Result<(), NoMemory> {
    put_between(out, " ")?;
    write!(out, "{}-{}", span.from, span.to)?;
    Ok(())
}

/// Puts where the nodes of a kind begin and end.
fn put_stretches(out: &mut String, tree: &SyntaxTree<'_>, kind: &str) -> Result<(), NoMemory> {
    for n in 0..tree.len() {
        if tree.kind(Node(n)).name() == kind {
            put_span(out, tree.span(Node(n)))?;
        }
    }
    Ok(())
}

/// Puts a kind and a text in brackets.
fn put_text(out: &mut String, kind: &str, text: &str) -> Result<(), NoMemory> {
    put_between(out, " ")?;
    put(out, kind)?;
    put(out, "[")?;
    put(out, text)?;
    put(out, "]")
}

/// Puts the texts that nodes stand for, each in brackets behind the kind of its node.
fn put_texts(out: &mut String, parsed: &Parsed<'_>) -> Result<(), NoMemory> {
    for n in 0..parsed.tree.len() {
        if let Some(text) = parsed.pool.text(Node(n)) {
            put_text(out, parsed.tree.kind(Node(n)).name(), text)?;
        }
    }
    Ok(())
}

/// Puts what is asked of a tree.
fn put_answer(
    out: &mut String,
    parsed: &Parsed<'_>,
    question: Question<'_>,
) -> Result<(), NoMemory> {
    match question {
        Question::Below(kind) => put_below_kind(out, &parsed.tree, kind),
        Question::Stretches(kind) => put_stretches(out, &parsed.tree, kind),
        Question::Texts => put_texts(out, parsed),
    }
}

/// Puts why there is no tree: the kind and the place of the fault among the tokens, or that the syntax is wrong.
fn put_fault(out: &mut String, fault: ParseFault) -> Result<(), NoMemory> {
    match fault {
        ParseFault::Lex(fault) => write!(out, "! {} at {}", fault.kind, fault.offset)?,
        ParseFault::Syntax => put(out, "! syntax")?,
        _ => write!(out, "! {fault:?}")?,
    }
    Ok(())
}

/// Puts what is asked of the tree of a source, or its fault.
fn put_outcome(
    out: &mut String,
    alloc: Global,
    source: &Source,
    question: Question<'_>,
) -> Result<(), NoMemory> {
    match parse(alloc, source) {
        Ok(parsed) => put_answer(out, &parsed, question),
        Err(fault) => put_fault(out, fault),
    }
}

/// Puts what is asked of the tree of a text, or its fault.
fn put_outcome_of(
    out: &mut String,
    alloc: Global,
    text: &str,
    question: Question<'_>,
) -> Result<(), NoMemory> {
    match source_of(alloc, text) {
        Some(source) => put_outcome(out, alloc, &source, question),
        None => put(out, "! no text"),
    }
}

/// What a section asks, and the text of a row.
fn question_of<'r>(section: &'r Section, given: &'r str) -> (Question<'r>, &'r str) {
    if section.has("stretches") {
        let (kind, text) = given.split_once(" in ").unwrap_or((given, ""));
        return (Question::Stretches(kind), text);
    }
    if section.has("texts") {
        return (Question::Texts, given);
    }
    let kind = section.setting("below").unwrap_or("CompilationUnit");
    (Question::Below(kind), given)
}

/// Puts what a section asks of a row.
fn put_asked(
    out: &mut String,
    alloc: Global,
    section: &Section,
    given: &str,
) -> Result<(), NoMemory> {
    let (question, code) = question_of(section, given);
    let text = section.framed(alloc, code)?;
    put_outcome_of(out, alloc, text.as_str(), question)
}

impl Table for Trees {
    fn has_setting(&self, name: &str) -> bool {
        name == "frame" || name == "below" || name == "texts" || name == "stretches"
    }

    fn answer(&self, alloc: Global, section: &Section, row: &Row) -> Result<String, NoMemory> {
        let mut found = String::new(alloc);
        put_asked(&mut found, alloc, section, row.given.as_str())?;
        Ok(found)
    }
}
