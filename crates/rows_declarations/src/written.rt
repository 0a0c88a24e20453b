//! What is read of the first node of a kind.

ghost use Rattle.std.specs.Prelude.{◌≡◌, ◌<◌, length, IfSome};
ghost use Rattle.pj_symbols.specs.Symbols.{FindsClasses};

use crate::question::Reading;
use pj_base::{NoMemory, Text};
use pj_names::ClassNames;
use pj_symbols::Symbols;
use pj_tree::{Node, SyntaxTree};
use pj_written::{
    Written, all_bounds, class_flags, field_flags, fits, implied_supertypes, method_flags,
    written_name, written_supertypes,
};
use std::alloc::Global;

/// Puts flags as a number.
fn put_flags(alloc: Global, out: &mut Text, flags: u16) -> Result<(), NoMemory> {
    let digits = flags.to_string(alloc)?;
    out.push_str(digits.as_str())
}

/// Puts a word, behind a space where it is not the first.
fn put_word(out: &mut Text, word: &str) -> Result<(), NoMemory> {
    if !out.is_empty() {
        out.push_str(" ")?;
    }
    out.push_str(word)
}

/// The first node of the kind with this name.
fn first_of(tree: &SyntaxTree<'_>, kind: &str) -> Option<Node>
    ensures { IfSome result (λ n. n.0 < length tree.now.nodes) }
{
    for n in 0..tree.len() {
        if tree.kind(Node(n)).name() == kind {
            return Some(Node(n));
        }
    }
    None
}

/// Puts the texts of nodes.
fn put_nodes(out: &mut Text, tree: &SyntaxTree<'_>, nodes: &[Node]) -> Result<(), NoMemory> {
    for n in nodes {
        if n.0 < tree.len() {
            put_word(out, tree.text(*n))?;
        }
    }
    Ok(())
}

/// Puts names of classes, with a space before each.
fn put_classes(out: &mut Text, names: &ClassNames) -> Result<(), NoMemory> {
    for name in names.as_slice() {
        out.push_str(" ")?;
        out.push_str(name.as_str())?;
    }
    Ok(())
}

/// Puts the parts of a name, with `package` before those of one that begins with a package.
pub fn put_parts(out: &mut Text, name: &Written) -> Result<(), NoMemory> {
    if name.has_package {
        out.push_str("package")?;
    }
    for part in name.parts.as_slice() {
        put_word(
            out,
            if part.is_empty() {
                "\"\""
            } else {
                part.as_str()
            },
        )?;
    }
    Ok(())
}

/// Puts the name of a class type.
fn put_class_type(
    alloc: Global,
    out: &mut Text,
    tree: &SyntaxTree<'_>,
    n: Node,
) -> Result<(), NoMemory>
    requires inside { n.0 < length tree.now.nodes }
{
    let name = written_name(alloc, tree, n)?;
    put_parts(out, &name)
}

/// Puts the bounds of the type parameters.
fn put_bounds(alloc: Global, out: &mut Text, tree: &SyntaxTree<'_>, n: Node) -> Result<(), NoMemory>
    requires inside { n.0 < length tree.now.nodes }
{
    let bounds = all_bounds(alloc, tree, n)?;
    put_nodes(out, tree, bounds.as_slice())?;
    if out.is_empty() {
        return out.push_str("nothing");
    }
    Ok(())
}

/// Puts the supertypes that a class writes, and a `;`.
fn put_written(
    alloc: Global,
    out: &mut Text,
    tree: &SyntaxTree<'_>,
    class: Node,
) -> Result<(), NoMemory>
    requires inside { class.0 < length tree.now.nodes }
{
    let written = written_supertypes(alloc, tree, class)?;
    put_nodes(out, tree, written.as_slice())?;
    out.push_str(";")
}

/// Puts the supertypes that a class has besides.
fn put_implied(
    alloc: Global,
    out: &mut Text,
    tree: &SyntaxTree<'_>,
    symbols: &Symbols,
    class: Node,
) -> Result<(), NoMemory>
    requires inside { class.0 < length tree.now.nodes }
    requires finds { FindsClasses tree.now symbols.now.classes }
{
    let implied = implied_supertypes(alloc, tree, symbols, class)?;
    put_classes(out, &implied)
}

/// Puts all supertypes of a class.
fn put_supertypes(
    alloc: Global,
    out: &mut Text,
    tree: &SyntaxTree<'_>,
    class: Node,
) -> Result<(), NoMemory>
    requires inside { class.0 < length tree.now.nodes }
{
    put_written(alloc, out, tree, class)?;
    let symbols = Symbols::of(alloc, tree)?;
    put_implied(alloc, out, tree, &symbols, class)
}

/// Puts what is read of a node.
fn put_of_node(
    alloc: Global,
    out: &mut Text,
    tree: &SyntaxTree<'_>,
    reading: Reading,
    n: Node,
) -> Result<(), NoMemory>
    requires inside { n.0 < length tree.now.nodes }
{
    match reading {
        Reading::Parts => put_class_type(alloc, out, tree, n),
        Reading::ClassFlags => put_flags(alloc, out, class_flags(tree, n)),
        Reading::FieldFlags => put_flags(alloc, out, field_flags(tree, n)),
        Reading::MethodFlags => put_flags(alloc, out, method_flags(tree, n)),
        Reading::Supertypes => put_supertypes(alloc, out, tree, n),
        Reading::Bounds => put_bounds(alloc, out, tree, n),
        Reading::Fits => out.push_str(if fits(tree, 0, n) { "yes" } else { "no" }),
    }
}

/// Puts what is read of the first node of a kind.
pub fn put_read(
    alloc: Global,
    out: &mut Text,
    tree: &SyntaxTree<'_>,
    reading: Reading,
    kind: &str,
) -> Result<(), NoMemory> {
    match first_of(tree, kind) {
        Some(n) => put_of_node(alloc, out, tree, reading, n),
        None => out.push_str("! no node"),
    }
}
