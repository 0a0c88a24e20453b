//! The answer for a row, and the file that its text is.

ghost use Rattle.std.specs.Prelude.{◌≡◌, ◌<◌, length};
ghost use Rattle.pj_symbols.specs.Symbols.{symbols_of};

use crate::calls::put_call;
use pj_base::{NoMemory, Text};
use pj_declared::Declarations;
use pj_exprtypes::{Typed, type_of};
use pj_file_oracle::{FileOracle, Held};
use pj_names::AskFault;
use pj_outer_names::File;
use pj_row_java::{Beneath, Java, expanded, place_of, put_type};
use pj_rows::{Row, Section, Table};
use pj_source::Source;
use pj_symbols::Symbols;
use pj_tree::{Node, SyntaxTree};
use std::alloc::Global;

/// The tables of types. The settings of a section: `@file` is the one text of all rows, in which `$` stands for what a row gives, with the mark of the outermost
/// node before it; `@again` says that the type is asked twice, and that just what is asked the second time is noted;
/// `@parts` that those of all other nodes are asked before it, the last node first.
#[derive(Drop)]
pub struct Types<'g> {
    /// The grammar of the texts.
    pub java: &'g Java,
    /// Whether the rows are of calls: what is chosen for them, and the type of a method call.
    pub is_of_calls: bool,
}

impl<'g> Table for Types<'g> {
    fn has_setting(&self, name: &str) -> bool {
        matches!(name, "file" | "again" | "parts")
    }

    fn answer(&self, alloc: Global, section: &Section, row: &Row) -> Result<String, NoMemory> {
        let found = answer_row(alloc, self, section, row.given.as_str())?;
        Ok(found.into_string())
    }
}

/// What a row gives: the grammar, a text, the classes that are written out, and whether the type is asked twice, or behind those of all nodes.
#[derive(Clone, Copy)]
struct Asked<'r> {
    java: &'r Java,
    text: &'r str,
    classes: &'r str,
    is_again: bool,
    is_by_parts: bool,
    is_of_calls: bool,
}

/// A text in which an expression stands in the place of a `$`, with a mark before it.
fn filled(alloc: Global, file: &str, expression: &str) -> Result<Text, NoMemory> {
    let (front, rest) = file.split_once('$').unwrap_or((file, ""));
    let mut text = Text::from_str(alloc, front)?;
    text.push_str("/*^*/")?;
    text.push_str(expression)?;
    text.push_str(rest)?;
    Ok(text)
}

/// The text of a row.
fn text_of(alloc: Global, section: &Section, line: &str) -> Result<Text, NoMemory> {
    let line = expanded(alloc, line.trim())?;
    match section.setting("file") {
        Some(file) => filled(alloc, file, line.as_str()),
        None => Ok(line),
    }
}

/// The answer for what a row gives.
fn answer_row(
    alloc: Global,
    table: &Types<'_>,
    section: &Section,
    given: &str,
) -> Result<Text, NoMemory> {
    let (line, classes) = given.split_once('\n').unwrap_or((given, ""));
    let text = text_of(alloc, section, line)?;
    let asked = Asked {
        java: table.java,
        text: text.as_str(),
        classes,
        is_again: section.has("again"),
        is_by_parts: section.has("parts"),
        is_of_calls: table.is_of_calls,
    };
    answer_text(alloc, &asked)
}

/// The answer for a text of Java.
fn answer_text(alloc: Global, asked: &Asked<'_>) -> Result<Text, NoMemory> {
    if asked.text.len() > 4_000_000 {
        return Text::from_str(alloc, "! too long");
    }
    match Source::read(alloc, asked.text.as_bytes()) {
        Ok(source) => answer_source(alloc, &source, asked),
        Err(_) => Text::from_str(alloc, "! no text"),
    }
}

/// The same for its source.
fn answer_source(alloc: Global, source: &Source, asked: &Asked<'_>) -> Result<Text, NoMemory> {
    match asked.java.parse(alloc, source) {
        Ok(parsed) => answer_tree(alloc, &parsed.tree, asked),
        Err(_) => Text::from_str(alloc, "! no tree"),
    }
}

/// The same for its tree.
fn answer_tree(alloc: Global, tree: &SyntaxTree<'_>, asked: &Asked<'_>) -> Result<Text, NoMemory> {
    let symbols = Symbols::of(alloc, tree)?;
    answer_with(alloc, tree, &symbols, asked)
}

/// The same for its tree and the symbols of that.
fn answer_with(
    alloc: Global,
    tree: &SyntaxTree<'_>,
    symbols: &Symbols,
    asked: &Asked<'_>,
) -> Result<Text, NoMemory>
    requires symbols { symbols.now ≡ symbols_of tree.now }
{
    let declarations = Declarations::of(alloc, tree)?;
    let file = File::new(alloc, tree, symbols, &declarations)?;
    match place_of(file.tree(), asked.text) {
        Some(n) => answer_at(alloc, &file, asked, n),
        None => Text::from_str(alloc, "! no place"),
    }
}

/// The same for the node that is marked.
fn answer_at(alloc: Global, file: &File<'_>, asked: &Asked<'_>, n: Node) -> Result<Text, NoMemory>
    requires inside { n.0 < length file.now.nodes }
{
    let mut beneath = Beneath::of(alloc, asked.classes)?;
    let mut out = Text::new(alloc);
    let found = if asked.is_of_calls {
        put_call(alloc, file, &mut beneath, n, &mut out)
    } else if asked.is_again {
        put_found_again(alloc, file, &mut beneath, n, &mut out)
    } else if asked.is_by_parts {
        put_found_by_parts(alloc, file, &mut beneath, n, &mut out)
    } else {
        put_found(alloc, file, &mut beneath, n, &mut out)
    };
    told(out, found, beneath.noted.as_str())
}

/// Puts the type of a node.
fn put_found(
    alloc: Global,
    file: &File<'_>,
    beneath: &mut Beneath,
    n: Node,
    out: &mut Text,
) -> Result<(), AskFault>
    requires inside { n.0 < length file.now.nodes }
{
    let mut types = Typed::new(alloc);
    let mut held = Held::new(alloc);
    let mut oracle = FileOracle::new(alloc, file, beneath, &mut held);
    let ty = type_of(&mut oracle, &mut types, n)?;
    Ok(put_type(out, &ty)?)
}

/// Puts the type of a node that is given when it is asked once more. Just what is asked then is noted.
fn put_found_again(
    alloc: Global,
    file: &File<'_>,
    beneath: &mut Beneath,
    n: Node,
    out: &mut Text,
) -> Result<(), AskFault>
    requires inside { n.0 < length file.now.nodes }
{
    let mut types = Typed::new(alloc);
    let mut held = Held::new(alloc);
    let mut oracle = FileOracle::new(alloc, file, beneath, &mut held);
    let _ = type_of(&mut oracle, &mut types, n)?;
    oracle.inner.forget();
    let ty = type_of(&mut oracle, &mut types, n)?;
    Ok(put_type(out, &ty)?)
}

/// Puts the type of a node behind those of all nodes, the last one first; what is asked for itself is noted.
fn put_found_by_parts(
    alloc: Global,
    file: &File<'_>,
    beneath: &mut Beneath,
    n: Node,
    out: &mut Text,
) -> Result<(), AskFault>
    requires inside { n.0 < length file.now.nodes }
{
    let mut types = Typed::new(alloc);
    let mut held = Held::new(alloc);
    let mut oracle = FileOracle::new(alloc, file, beneath, &mut held);
    let count = file.tree().len();
    for behind in 0..count {
        let part = Node(count - 1 - behind);
        if part.0 < oracle.tree().len() {
            let _ = type_of(&mut oracle, &mut types, part)?;
        }
    }
    oracle.inner.forget();
    if n.0 >= oracle.tree().len() {
        return Ok(());
    }
    let ty = type_of(&mut oracle, &mut types, n)?;
    Ok(put_type(out, &ty)?)
}

/// What was found, or why nothing was, and behind it the classes that were asked.
fn told(mut out: Text, found: Result<(), AskFault>, noted: &str) -> Result<Text, NoMemory> {
    match found {
        Ok(()) => {}
        Err(AskFault::Failed) => out.push_str("! failed")?,
        Err(AskFault::Memory) => out.push_str("! memory")?,
    }
    if !noted.is_empty() {
        out.push_str(", asks")?;
        out.push_str(noted)?;
    }
    Ok(out)
}
