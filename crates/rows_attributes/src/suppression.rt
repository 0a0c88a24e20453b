//! Annotations that suppress findings of a rule `R`. Given is what stands in the frame of the section, and the setting `node`
//! has the text of the node that is asked about; or given are the text of a node and, behind `in`, that of a file, in both of
//! which the sign % stands for the section's setting `annotation`.

ghost use Rattle.std.specs.Prelude.{◌≡◌, ◌<◌, length, IfSome};

use crate::files::{Question, put_of_text};
use crate::put::put;
use pj_base::{NoMemory, Text};
use pj_rows::{Row, Section, Table};
use pj_suppress::by_annotation;
use pj_tree::{Node, SyntaxTree};
use pj_xvalue::Attributes;
use std::alloc::Global;

/// The rows of annotations that suppress.
pub struct Suppression;

/// The first node of a text.
fn node_of(tree: &SyntaxTree<'_>, text: &str) -> Option<Node>
    ensures { IfSome result (λ n. n.0 < length tree.now.nodes) }
{
    for n in 0..tree.len() {
        if tree.text(Node(n)) == text {
            return Some(Node(n));
        }
    }
    None
}

/// Puts whether findings of the rule `R` at the first node of a text are suppressed.
pub fn put_suppressed<A: Attributes>(
    out: &mut String,
    alloc: Global,
    tree: &SyntaxTree<'_>,
    facts: &A,
    text: &str,
) -> Result<(), NoMemory>
    requires { A.nodes facts.now ≡ length tree.now.nodes }
{
    let rule = Text::from_str(alloc, "R")?;
    match node_of(tree, text) {
        Some(n) if by_annotation(tree, facts, n, &rule) => put(out, "suppressed"),
        Some(_) => put(out, "not suppressed"),
        None => put(out, "! no such node"),
    }
}

/// A text in which the sign % is written out.
fn written(alloc: Global, text: &str, annotation: &str) -> Result<String, NoMemory> {
    let (before, behind) = match text.split_once('%') {
        Some(parts) => parts,
        None => return Ok(String::from_str(alloc, text)?),
    };
    let mut whole = String::from_str(alloc, before)?;
    whole.push_str(annotation)?;
    whole.push_str(behind)?;
    Ok(whole)
}

/// Puts whether findings are suppressed at a node of a file, where the sign % stands for an annotation in both.
fn put_marked(
    out: &mut String,
    alloc: Global,
    given: &str,
    annotation: &str,
) -> Result<(), NoMemory> {
    let (node, file) = given.split_once(" in ").unwrap_or((given, ""));
    let node = written(alloc, node, annotation)?;
    let file = written(alloc, file, annotation)?;
    put_of_text(
        out,
        alloc,
        file.as_str(),
        Question::Suppressed(node.as_str()),
    )
}

/// Puts whether findings are suppressed as a row asks.
fn put_asked(
    out: &mut String,
    alloc: Global,
    section: &Section,
    given: &str,
) -> Result<(), NoMemory> {
    if let Some(annotation) = section.setting("annotation") {
        return put_marked(out, alloc, given, annotation);
    }
    let file = section.framed(alloc, given)?;
    let node = section.setting("node").unwrap_or("");
    put_of_text(out, alloc, file.as_str(), Question::Suppressed(node))
}

impl Table for Suppression {
    fn has_setting(&self, name: &str) -> bool {
        name == "annotation" || name == "frame" || name == "node"
    }

    fn answer(&self, alloc: Global, section: &Section, row: &Row) -> Result<String, NoMemory> {
        let mut found = String::new(alloc);
        put_asked(&mut found, alloc, section, row.given.as_str())?;
        Ok(found)
    }
}
