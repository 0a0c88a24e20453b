//! The name of a class type, as it is written (JLS 4.3).

ghost use Rattle.std.specs.Prelude.{◌≡◌, ◌<◌, length, IfOk};
ghost use Rattle.pj_written.specs.Written.{extended, innermost, name_of_text, name_within, written_name};

use crate::names::{begins_package, parts_of, put_parts};
use pj_base::{Names, NoMemory};
use pj_tree::{Kind, Node, SyntaxTree, child_of, has_word};
use std::alloc::Global;

/// A name with dots, as it is written.
#[derive(Drop)]
pub struct Written {
    /// The node at which its first part is looked up.
    pub at: Node,
    /// Whether it begins with a package.
    pub has_package: bool,
    /// Its parts between dots.
    pub parts: Names,
}

/// The name of a class type that has no other one before a dot.
fn innermost(alloc: Global, tree: &SyntaxTree<'_>, n: Node) -> Result<Written, NoMemory>
    requires inside { n.0 < length tree.now.nodes }
    ensures { IfOk result (λ name. name ≡ innermost tree.now n) }
{
    let mut parts = Names::new(alloc);
    put_parts(alloc, &mut parts, tree.own(n))?;
    Ok(Written {
        at: n,
        has_package: has_word(tree, n, "."),
        parts,
    })
}

/// A name, and then the parts of a class type around.
fn extended(
    alloc: Global,
    tree: &SyntaxTree<'_>,
    name: Written,
    n: Node,
) -> Result<Written, NoMemory>
    requires inside { n.0 < length tree.now.nodes }
    ensures { IfOk result (λ made. made ≡ extended tree.now name n) }
{
    let Written {
        at,
        has_package,
        parts,
    } = name;
    let mut parts = parts;
    put_parts(alloc, &mut parts, tree.own(n))?;
    Ok(Written {
        at,
        has_package,
        parts,
    })
}

/// The name of a class type that has at most so many within it.
fn name_within(
    alloc: Global,
    tree: &SyntaxTree<'_>,
    deep: u32,
    n: Node,
) -> Result<Written, NoMemory>
    requires inside { n.0 < length tree.now.nodes }
    ensures { IfOk result (λ name. name ≡ name_within tree.now deep n) }
{
    if deep == 0 {
        return Ok(Written {
            at: n,
            has_package: false,
            parts: Names::new(alloc),
        });
    }
    match child_of(tree, n, Kind::ClassType) {
        Some(outer) => {
            let name = name_within(alloc, tree, deep - 1, outer)?;
            extended(alloc, tree, name, n)
        }
        None => innermost(alloc, tree, n),
    }
}

/// The name of a class type. Its calls go as deep as there are class types in one another, of which a tree, that is at most 1,000 deep,
/// has fewer.
pub fn written_name(alloc: Global, tree: &SyntaxTree<'_>, n: Node) -> Result<Written, NoMemory>
    requires inside { n.0 < length tree.now.nodes }
    ensures { IfOk result (λ name. name ≡ written_name tree.now n) }
{
    name_within(alloc, tree, tree.len(), n)
}

/// The name that a text is, looked up at a place: its first part begins a package where it begins with `a` to `z` and is not the last one.
pub fn name_of_text(alloc: Global, place: Node, text: &str) -> Result<Written, NoMemory>
    ensures { IfOk result (λ name. name ≡ name_of_text place text.now) }
{
    let parts = parts_of(alloc, text)?;
    let has_package = begins_package(&parts);
    Ok(Written {
        at: place,
        has_package,
        parts,
    })
}
