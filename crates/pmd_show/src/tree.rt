//! The syntax tree of a file, a line a node.

ghost use Rattle.std.specs.Prelude.{◌≡◌, ◌<◌, ◌≤◌, length, Ok};
ghost use Rattle.pj_parse.specs.Parses.{Parses, file_parsed};
ghost use Rattle.pj_parse.specs.PoolText.{IsPoolOf};

use crate::fault::Fault;
use pj_attrs::{Facts, tokens_are_in_order};
use pj_base::{Bytes, NoMemory, Text};
use pj_findings::{Extent, extent_of};
use pj_outside::{Reading, Refused, Tree};
use pj_parse::{FileFault, FileRefused, Parsed, fault_message, parse_file, read_file};
use pj_source::Source;
use pj_symbols::Symbols;
use pj_tree::{Node, SyntaxTree};
use pj_xvalue::{Attributes, Value};
use std::alloc::Global;
use std::io;
use std::io::Write;

/// The most bytes that a file may have, as in a run.
const MOST_BYTES: u64 = 1_048_576;

/// How deep each node lies below the root.
fn depths_of(alloc: Global, tree: &SyntaxTree<'_>) -> Result<Vec<u32>, Fault> {
    let mut depths: Vec<u32> = Vec::new(alloc);
    for n in 0..tree.len() {
        let depth = match tree.parent(Node(n)) {
            None => 0,
            Some(parent) => match depths.get(parent.0 as usize) {
                Some(above) => above.saturating_add(1),
                None => 0,
            },
        };
        depths.push(depth)?;
    }
    Ok(depths)
}

/// Writes an attribute with its value: a string in quotes, with escapes for what a line cannot hold.
fn write_attribute<W: Write>(out: &mut W, name: &str, value: Value<'_>) -> io::Result<()> {
    match value {
        Value::Str(text) => write!(out, " @{name}={text:?}"),
        Value::Int(number) => write!(out, " @{name}={number}"),
        Value::Bool(holds) => write!(out, " @{name}={holds}"),
    }
}

/// Writes the attributes of a node that have a value, in order.
fn write_attributes<W: Write, A: Attributes>(out: &mut W, facts: &A, n: Node) -> io::Result<()>
    requires { n.0 < A.nodes facts.now }
{
    for name in facts.names(n) {
        if let Some(value) = facts.attribute(n, name) {
            write_attribute(out, name, value)?;
        }
    }
    Ok(())
}

/// Writes the kind of a node, and the places of its first and its last character.
fn write_node<W: Write, A: Attributes>(
    out: &mut W,
    tree: &SyntaxTree<'_>,
    facts: &A,
    n: Node,
) -> io::Result<()>
    requires inside { n.0 < length tree.now.nodes }
    requires text { A.text_length facts.now ≡ length tree.now.text }
{
    let kind = tree.kind(n).name();
    let Extent { begin, end } = extent_of(tree, facts, n);
    write!(
        out,
        "{kind} {}:{}-{}:{}",
        begin.line, begin.column, end.line, end.column
    )
}

/// Writes the nodes of a tree, each set in by two blanks for each node above it.
fn write_nodes<W: Write, A: Attributes>(
    out: &mut W,
    tree: &SyntaxTree<'_>,
    facts: &A,
    depths: &[u32],
    with_attributes: bool,
) -> io::Result<()>
    requires nodes { A.nodes facts.now ≡ length tree.now.nodes }
    requires text { A.text_length facts.now ≡ length tree.now.text }
{
    for n in 0..tree.len() {
        let depth = match depths.get(n as usize) {
            Some(depth) => *depth,
            None => 0,
        };
        for _ in 0..depth {
            out.write_all(b"  ")?;
        }
        write_node(out, tree, facts, Node(n))?;
        if with_attributes {
            write_attributes(out, facts, Node(n))?;
        }
        out.write_all(b"\n")?;
    }
    Ok(())
}

/// Writes the tree of a file that was parsed.
fn show_parsed<W: Write>(
    alloc: Global,
    out: &mut W,
    source: &Source,
    parsed: &Parsed<'_>,
    with_attributes: bool,
) -> Result<(), Fault>
    requires parses { Parses source.now.text (Ok (file_parsed parsed.now)) }
    requires text { parsed.now.tree.text ≡ source.now.text }
    requires pool { IsPoolOf parsed.now.tree parsed.now.pool }
{
    tokens_are_in_order(source.text(), parsed);
    let symbols = Symbols::of(alloc, &parsed.tree)?;
    let facts = Facts::new(source, parsed, &symbols);
    let depths = depths_of(alloc, &parsed.tree)?;
    write_nodes(
        out,
        &parsed.tree,
        &facts,
        depths.as_slice(),
        with_attributes,
    )?;
    Ok(())
}

/// What is said of a file of this path with this fault.
fn not_java(alloc: Global, path: &str, fault: FileFault) -> Result<Fault, NoMemory> {
    let path = Text::from_str(alloc, path)?;
    let message = fault_message(alloc, fault)?;
    Ok(Fault::NotJava(path, message))
}

/// Why a file of this path that was refused so is not shown.
fn fault_of(alloc: Global, path: &str, refused: FileRefused) -> Fault {
    match refused {
        FileRefused::Memory => Fault::Memory,
        FileRefused::Fault(fault) => match not_java(alloc, path, fault) {
            Ok(fault) => fault,
            Err(_) => Fault::Memory,
        },
    }
}

/// Writes the tree of a file of these bytes.
fn show_bytes<W: Write>(
    alloc: Global,
    out: &mut W,
    path: &str,
    bytes: &Bytes,
    with_attributes: bool,
) -> Result<(), Fault>
    requires { length bytes.now ≤ 4294967294 }
{
    let source = match read_file(alloc, bytes.as_slice()) {
        Ok(source) => source,
        Err(refused) => return Err(fault_of(alloc, path, refused)),
    };
    match parse_file(alloc, &source) {
        Ok(parsed) => show_parsed(alloc, out, &source, &parsed, with_attributes),
        Err(refused) => Err(fault_of(alloc, path, refused)),
    }
}

/// Shows the syntax tree of the Java file of a path.
pub fn show_file<T: Tree, W: Write>(
    alloc: Global,
    files: &mut T,
    out: &mut W,
    path: &str,
    with_attributes: bool,
) -> Result<(), Fault> {
    match files.read(path, MOST_BYTES) {
        Ok(Reading::Whole(bytes)) => show_bytes(alloc, out, path, &bytes, with_attributes),
        Ok(Reading::Absent) => Err(Fault::Missing(Text::from_str(alloc, path)?)),
        Ok(Reading::Longer) => Err(Fault::TooLong(Text::from_str(alloc, path)?)),
        Err(Refused::Failed) => Err(Fault::NotRead),
        Err(Refused::Memory) => Err(Fault::Memory),
    }
}
