//! The limits of depth and of tokens.

use crate::fixtures::expect;
use pj_parse::parse;
use pj_source::Source;
use pj_tree::{Node, SyntaxTree};
use std::alloc::{AllocError, Global};
use std::fmt::Write;
use std::test::Fail;

/// How many nodes stand above a node.
fn depth(tree: &SyntaxTree<'_>, node: Node) -> u32 {
    let mut at = node;
    for depth in 0..1000 {
        if at.0 >= tree.len() {
            return depth;
        }
        match tree.parent(at) {
            None => return depth,
            Some(parent) => at = parent,
        }
    }
    1000
}

/// The nodes of a tree in preorder, each behind the number of nodes above it.
fn write_nodes(out: &mut String, tree: &SyntaxTree<'_>) -> Result<(), AllocError> {
    for n in 0..tree.len() {
        let above = depth(tree, Node(n));
        write!(out, "{above} {} ", tree.kind(Node(n)).name())?;
    }
    Ok(())
}

/// The nodes of the tree of a source, or its fault.
fn write_outcome(out: &mut String, alloc: Global, source: &Source) -> Result<(), AllocError> {
    match parse(alloc, source) {
        Ok(parsed) => write_nodes(out, &parsed.tree),
        Err(fault) => write!(out, "{fault:?}"),
    }
}

/// Whether the nodes of the tree, or its fault, end so.
fn ends_so(alloc: Global, source: &Source, wanted: &str) -> Result<bool, AllocError> {
    let mut found = String::new(alloc);
    write_outcome(&mut found, alloc, source)?;
    Ok(found.as_str().as_bytes().ends_with(wanted.as_bytes()))
}

/// The same of a text.
fn text_ends_so(alloc: Global, text: &str, wanted: &str) -> Result<bool, AllocError> {
    if text.len() > 1_000_000 {
        return Ok(false);
    }
    match Source::read(alloc, text.as_bytes()) {
        Ok(source) => ends_so(alloc, &source, wanted),
        Err(_) => Ok(false),
    }
}

/// A text of a front, so many times an opening, so many times a closing, and an end.
struct Long {
    front: &'static str,
    opening: &'static str,
    closing: &'static str,
    count: u32,
    end: &'static str,
    wanted: &'static str,
}

/// The limits of depth and of tokens.
static LIMITS: [Long; 3] = [
    Long {
        front: "class A {",
        opening: "{",
        closing: "}",
        count: 996,
        end: "}",
        wanted: "999 Block ",
    },
    Long {
        front: "class A {",
        opening: "{",
        closing: "}",
        count: 997,
        end: "}",
        wanted: "TooDeep(1001)",
    },
    Long {
        front: "",
        opening: ";",
        closing: "",
        count: 200_001,
        end: "",
        wanted: "TooManyTokens(200001)",
    },
];

/// Writes a part so many times.
fn repeat(text: &mut String, part: &str, count: u32) -> Result<(), AllocError> {
    for _ in 0..count {
        text.push_str(part)?;
    }
    Ok(())
}

fn write_long(text: &mut String, long: &Long) -> Result<(), AllocError> {
    text.push_str(long.front)?;
    repeat(text, long.opening, long.count)?;
    repeat(text, long.closing, long.count)?;
    text.push_str(long.end)
}

/// Whether the answer for the text ends so.
fn long_ends_so(alloc: Global, long: &Long) -> Result<bool, AllocError> {
    let mut text = String::new(alloc);
    write_long(&mut text, long)?;
    text_ends_so(alloc, text.as_str(), long.wanted)
}

#[test]
fn limits(rt: HostRuntime) -> Result<(), Fail> {
    for long in &LIMITS {
        expect(long_ends_so(rt.alloc(), long)?, long.wanted)?;
    }
    Ok(())
}
