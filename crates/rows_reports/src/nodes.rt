//! Items with the nodes that a query of them finds, and messages of errors.
use crate::fields::number_of;
use pj_base::{NoMemory, Text, value_in};
use pj_findings::{code_name, denoted_nodes, rule_message};
use pj_rows::{Row, Section, Table, put, put_between};
use pj_tree::Node;
use pj_xvalue::{Item, Sequence, XCode};
use std::alloc::Global;
use std::fmt::Write;

/// The table of items.
pub struct Nodes;

/// The table of messages.
pub struct Messages;

/// The item that is written so.
fn item_of(written: &str) -> Option<Item<'_>> {
    let (word, value) = written.split_once(' ').unwrap_or((written, ""));
    match word {
        "element" => Some(Item::Node(Node(number_of(value)))),
        "attribute" => {
            let (node, place) = value.split_once(' ')?;
            Some(Item::Attribute(Node(number_of(node)), number_of(place)))
        }
        "document" => Some(Item::Document),
        "integer" => Some(Item::Int(value.parse::<i64>().ok()?)),
        "boolean" => Some(Item::Bool(value == "true")),
        "text" => Some(Item::Borrowed(value)),
        _ => None,
    }
}

/// The items that are written so, up to the first that is none.
fn items_of(alloc: Global, given: &str) -> Result<Sequence<'_>, NoMemory> {
    let mut items = Sequence::new(alloc);
    for written in given.split(", ") {
        let Some(item) = item_of(written) else {
            break;
        };
        items.push(item)?;
    }
    Ok(items)
}

/// The numbers of nodes.
fn nodes_shown(alloc: Global, nodes: &[Node]) -> Result<String, NoMemory> {
    let mut out = String::new(alloc);
    for node in nodes {
        put_between(&mut out, " ")?;
        write!(out, "{}", node.0)?;
    }
    Ok(out)
}

impl Table for Nodes {
    fn answer(&self, alloc: Global, _section: &Section, row: &Row) -> Result<String, NoMemory> {
        let items = items_of(alloc, row.given.as_str())?;
        match denoted_nodes(alloc, items)? {
            Ok(nodes) => nodes_shown(alloc, nodes.as_slice()),
            Err(code) => {
                let mut out = String::new(alloc);
                put(&mut out, &["! ", code_name(code)])?;
                Ok(out)
            }
        }
    }
}

/// The codes of errors, by their names.
static CODES: [(&str, XCode); 9] = [
    ("FORG0006", XCode::FORG0006),
    ("XPTY0004", XCode::XPTY0004),
    ("XPTY0018", XCode::XPTY0018),
    ("XPTY0019", XCode::XPTY0019),
    ("XPTY0020", XCode::XPTY0020),
    ("FOAR0001", XCode::FOAR0001),
    ("FOAR0002", XCode::FOAR0002),
    ("FOTY0012", XCode::FOTY0012),
    ("FORX0003", XCode::FORX0003),
];

/// The message of a rule that met the error of a name.
fn message_shown(alloc: Global, rule: &str, name: &str) -> Result<String, NoMemory> {
    let rule = Text::from_str(alloc, rule)?;
    match value_in(&CODES, name) {
        Some(code) => Ok(rule_message(alloc, &rule, code)?.into_string()),
        None => Ok(String::from_str(alloc, "! no such code")?),
    }
}

impl Table for Messages {
    fn answer(&self, alloc: Global, _section: &Section, row: &Row) -> Result<String, NoMemory> {
        let given = row.given.as_str();
        let (rule, name) = given.split_once(' ').unwrap_or((given, ""));
        message_shown(alloc, rule, name)
    }
}
