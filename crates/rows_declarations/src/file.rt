//! The answer for a row, and the file that its text is.
use crate::declared::put_meant;
use crate::question::{Question, question_of};
use crate::spelled::spelled;
use crate::written::put_read;
use pj_base::{NoMemory, Text};
use pj_row_java::{Java, expanded, named};
use pj_rows::{Row, Section, Table};
use pj_source::Source;
use pj_tree::SyntaxTree;
use std::alloc::Global;

/// The tables of declarations. The settings of a section: `@find` is what is asked, `@of` the kind of node of which it is read, and `@frame` a
/// text in which that of each row stands for the dots.
#[derive(Drop)]
pub struct Declared<'g> {
    /// The grammar of the texts.
    pub java: &'g Java,
}

impl<'g> Table for Declared<'g> {
    fn has_setting(&self, name: &str) -> bool {
        matches!(name, "find" | "of" | "frame")
    }

    fn answer(&self, alloc: Global, section: &Section, row: &Row) -> Result<String, NoMemory> {
        let found = answer_row(alloc, self.java, section, row.given.as_str())?;
        Ok(found.into_string())
    }
}

/// What a row asks of a text: the grammar of the text, the question, the kind of node, the name in front of the text, and the text.
#[derive(Clone, Copy)]
struct Asked<'r> {
    java: &'r Java,
    question: Question,
    kind: &'r str,
    front: Option<&'r str>,
    text: &'r str,
}

/// The answer for what a row gives.
fn answer_row(
    alloc: Global,
    java: &Java,
    section: &Section,
    given: &str,
) -> Result<Text, NoMemory> {
    let Some(question) = question_of(section.setting("find").unwrap_or("")) else {
        return Text::from_str(alloc, "! no such question");
    };
    if let Question::Spelling(spelling) = question {
        return spelled(alloc, spelling, given);
    }
    let line = expanded(alloc, given)?;
    answer_line(alloc, java, section, question, line.as_str())
}

/// The answer for the line of a row.
fn answer_line(
    alloc: Global,
    java: &Java,
    section: &Section,
    question: Question,
    line: &str,
) -> Result<Text, NoMemory> {
    let (front, text) = named(line);
    let text = section.framed(alloc, text)?;
    let asked = Asked {
        java,
        question,
        kind: section.setting("of").unwrap_or(""),
        front,
        text: text.as_str(),
    };
    answer_text(alloc, &asked)
}

/// The answer for a text of Java.
fn answer_text(alloc: Global, asked: &Asked<'_>) -> Result<Text, NoMemory> {
    if asked.text.len() > 1_000_000 {
        return Text::from_str(alloc, "! too long");
    }
    match Source::read(alloc, asked.text.as_bytes()) {
        Ok(source) => answer_source(alloc, &source, asked),
        Err(_) => Text::from_str(alloc, "! no text"),
    }
}

/// The same for its source.
fn answer_source(alloc: Global, source: &Source, asked: &Asked<'_>) -> Result<Text, NoMemory> {
    match asked.java.parse(alloc, source) {
        Ok(parsed) => answer_tree(alloc, &parsed.tree, asked),
        Err(_) => Text::from_str(alloc, "! no tree"),
    }
}

/// The same for its tree.
fn answer_tree(alloc: Global, tree: &SyntaxTree<'_>, asked: &Asked<'_>) -> Result<Text, NoMemory> {
    let mut out = Text::new(alloc);
    put_found(alloc, &mut out, tree, asked)?;
    Ok(out)
}

/// Puts what is found in a tree.
fn put_found(
    alloc: Global,
    out: &mut Text,
    tree: &SyntaxTree<'_>,
    asked: &Asked<'_>,
) -> Result<(), NoMemory> {
    match asked.question {
        Question::Meaning(meaning) => {
            put_meant(alloc, out, tree, meaning, asked.front, asked.text)
        }
        Question::Reading(reading) => put_read(alloc, out, tree, reading, asked.kind),
        Question::Spelling(_) => out.push_str("! no text of Java"),
    }
}
