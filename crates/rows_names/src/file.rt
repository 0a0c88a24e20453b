//! The answer for a row, and the file that its text is.

ghost use Rattle.std.specs.Prelude.{◌≡◌};
ghost use Rattle.pj_symbols.specs.Symbols.{symbols_of};

use crate::file_oracle::put_asked;
use crate::inherited::put_classes_around;
use crate::question::{Asked, Asking, Lookup, Question, question_of};
use crate::{imports, inherited, node_types, type_names, variables};
use pj_base::{NoMemory, Text};
use pj_declared::Declarations;
use pj_file_oracle::{FileOracle, Held};
use pj_names::{AskFault, Oracle};
use pj_outer_names::File;
use pj_row_java::{Beneath, Classes, Java, Noted, Over, expanded, named};
use pj_rows::{Row, Section, Table};
use pj_source::Source;
use pj_symbols::Symbols;
use pj_tree::SyntaxTree;
use std::alloc::Global;

/// The tables of names. The settings of a section: `@find` is what is asked, `@file` the one text of all rows, and `@show` says that it counts
/// whether the answer is known.
#[derive(Drop)]
pub struct Names<'g> {
    /// The grammar of the texts.
    pub java: &'g Java,
    /// What is asked where a section does not say it.
    pub find: &'static str,
}

impl<'g> Table for Names<'g> {
    fn has_setting(&self, name: &str) -> bool {
        matches!(name, "find" | "file" | "show")
    }

    fn answer(&self, alloc: Global, section: &Section, row: &Row) -> Result<String, NoMemory> {
        let find = section.setting("find").unwrap_or(self.find);
        let found = answer_row(alloc, self.java, section, find, row.given.as_str())?;
        Ok(found.into_string())
    }
}

/// The answer for what a row gives.
fn answer_row(
    alloc: Global,
    java: &Java,
    section: &Section,
    find: &str,
    given: &str,
) -> Result<Text, NoMemory> {
    let Some(question) = question_of(find) else {
        return Text::from_str(alloc, "! no such question");
    };
    let (line, classes) = given.split_once('\n').unwrap_or((given, ""));
    let line = expanded(alloc, line.trim())?;
    answer_line(alloc, java, section, question, line.as_str(), classes)
}

/// The text of a row: that of its section, where the section has one.
fn text_of(alloc: Global, section: &Section, text: &str) -> Result<Text, NoMemory> {
    match section.setting("file") {
        Some(file) => Text::from_str(alloc, file),
        None => Text::from_str(alloc, text),
    }
}

/// The answer for the line of a row.
fn answer_line(
    alloc: Global,
    java: &Java,
    section: &Section,
    question: Question,
    line: &str,
    classes: &str,
) -> Result<Text, NoMemory> {
    let (name, text) = named(line);
    let text = text_of(alloc, section, text)?;
    let asked = Asked {
        java,
        question,
        front: if section.has("file") {
            Some(line)
        } else {
            name
        },
        text: text.as_str(),
        classes,
    };
    answer_known(alloc, &asked, section.has("show"))
}

/// Whether an answer is a type that is not known, or a member of such a type.
fn is_unknown(found: &str) -> bool {
    found.ends_with('?') || found.contains("L?;")
}

/// The answer, of which it may count whether it is known.
fn answer_known(alloc: Global, asked: &Asked<'_>, is_known: bool) -> Result<Text, NoMemory> {
    let found = answer_text(alloc, asked)?;
    if is_known && !is_unknown(found.as_str()) {
        return Text::from_str(alloc, "known");
    }
    Ok(found)
}

/// The answer for a text of Java.
fn answer_text(alloc: Global, asked: &Asked<'_>) -> Result<Text, NoMemory> {
    if asked.text.len() > 1_000_000 {
        return Text::from_str(alloc, "! too long");
    }
    match Source::read(alloc, asked.text.as_bytes()) {
        Ok(source) => answer_source(alloc, &source, asked),
        Err(_) => Text::from_str(alloc, "! no text"),
    }
}

/// The same for its source.
fn answer_source(alloc: Global, source: &Source, asked: &Asked<'_>) -> Result<Text, NoMemory> {
    match asked.java.parse(alloc, source) {
        Ok(parsed) => answer_tree(alloc, &parsed.tree, asked),
        Err(_) => Text::from_str(alloc, "! no tree"),
    }
}

/// The same for its tree.
fn answer_tree(alloc: Global, tree: &SyntaxTree<'_>, asked: &Asked<'_>) -> Result<Text, NoMemory> {
    let symbols = Symbols::of(alloc, tree)?;
    answer_with(alloc, tree, &symbols, asked)
}

/// The same for its tree and the symbols of that.
fn answer_with(
    alloc: Global,
    tree: &SyntaxTree<'_>,
    symbols: &Symbols,
    asked: &Asked<'_>,
) -> Result<Text, NoMemory>
    requires symbols { symbols.now ≡ symbols_of tree.now }
{
    let declarations = Declarations::of(alloc, tree)?;
    let file = File::new(alloc, tree, symbols, &declarations)?;
    answer_file(alloc, &file, asked)
}

/// The same for the file.
fn answer_file(alloc: Global, file: &File<'_>, asked: &Asked<'_>) -> Result<Text, NoMemory> {
    match asked.question {
        Question::Around => {
            let mut out = Text::new(alloc);
            put_classes_around(&mut out, file, asked)?;
            Ok(out)
        }
        Question::Lookup(lookup) => answer_over(alloc, file, lookup, asked),
        Question::Asking(asking) => answer_asked(alloc, file, asking, asked),
    }
}

/// What was found, or why nothing was, and behind it the classes that were asked.
fn told(mut out: Text, found: Result<(), AskFault>, noted: &str) -> Result<Text, NoMemory> {
    match found {
        Ok(()) => {}
        Err(AskFault::Failed) => out.push_str("! failed")?,
        Err(AskFault::Memory) => out.push_str("! memory")?,
    }
    if !noted.is_empty() {
        out.push_str(", asks")?;
        out.push_str(noted)?;
    }
    Ok(out)
}

/// What is found over the oracle of the file, and what is asked of the one beneath.
fn answer_asked(
    alloc: Global,
    file: &File<'_>,
    asking: Asking,
    asked: &Asked<'_>,
) -> Result<Text, NoMemory> {
    let mut beneath = Beneath::of(alloc, asked.classes)?;
    let mut out = Text::new(alloc);
    let found = put_asked(alloc, file, &mut beneath, asking, asked, &mut out);
    told(out, found, beneath.noted.as_str())
}

/// What is found over the oracle of the file, and what is asked of that.
fn answer_over(
    alloc: Global,
    file: &File<'_>,
    lookup: Lookup,
    asked: &Asked<'_>,
) -> Result<Text, NoMemory> {
    let mut beneath = Classes::of(alloc, asked.classes)?;
    let mut held = Held::new(alloc);
    let mut oracle = FileOracle::new(alloc, &*file, &mut beneath, &mut held);
    answer_by(alloc, file, &mut oracle, lookup, asked)
}

/// What is found over an oracle, and what is asked of that.
fn answer_by<O: Oracle>(
    alloc: Global,
    file: &File<'_>,
    oracle: &mut O,
    lookup: Lookup,
    asked: &Asked<'_>,
) -> Result<Text, NoMemory> {
    let classes = Classes::of(alloc, asked.classes)?;
    let is_each_time = matches!(
        lookup,
        Lookup::Inherited | Lookup::Member | Lookup::Supertypes
    );
    let mut over = Over {
        inner: oracle,
        classes,
        noted: Noted::new(alloc, is_each_time),
    };
    let mut out = Text::new(alloc);
    let found = put_lookup(alloc, file, &mut over, lookup, asked, &mut out);
    told(out, found, over.noted.as_str())
}

/// Puts what is found over this oracle.
fn put_lookup<O: Oracle>(
    alloc: Global,
    file: &File<'_>,
    over: &mut Over<'_, O>,
    lookup: Lookup,
    asked: &Asked<'_>,
    out: &mut Text,
) -> Result<(), AskFault> {
    match lookup {
        Lookup::Outside => imports::put_outside(alloc, file, over, asked.name(), out),
        Lookup::Dotted => imports::put_dotted(alloc, file, over, asked.name(), out),
        Lookup::Inherited => inherited::put_member(alloc, file, over, false, asked.name(), out),
        Lookup::Member => inherited::put_member(alloc, file, over, true, asked.name(), out),
        Lookup::Supertypes => inherited::put_supertypes(alloc, over, asked.name(), out),
        Lookup::TypeName => type_names::put_name(alloc, file, over, asked, out),
        Lookup::WrittenType => type_names::put_written(alloc, file, over, false, asked, out),
        Lookup::TypeInHeader => type_names::put_written(alloc, file, over, true, asked, out),
        Lookup::Bound => type_names::put_bound(alloc, file, over, asked, out),
        Lookup::Variable => variables::put_name(alloc, file, over, asked, out),
        Lookup::NodeType => node_types::put_node(alloc, file, over, asked, out),
        Lookup::VariableType => node_types::put_variable(alloc, file, over, asked, out),
        Lookup::MemberType => node_types::put_member(alloc, file, over, asked, out),
        Lookup::ElementType => node_types::put_elements(alloc, file, over, asked, out),
    }
}
