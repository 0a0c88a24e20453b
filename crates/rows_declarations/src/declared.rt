//! What a name means as far as the file tells.

ghost use Rattle.std.specs.Prelude.{◌<◌, length};

use crate::question::Meaning;
use pj_base::{NoMemory, Text};
use pj_declared::{Declarations, Declared, ImportSort};
use pj_row_java::{name_at_mark, place_of, put_declaration};
use pj_tree::{Node, SyntaxTree};
use std::alloc::Global;

/// The node that declares what is meant.
fn node_of(declared: Option<Declared>) -> Option<Node> {
    match declared {
        Some(declared) => Some(declared.node),
        None => None,
    }
}

/// What the name means at the place.
fn meant(declarations: &Declarations<'_>, meaning: Meaning, name: &str, place: Node) -> Option<Node>
    requires inside { place.0 < length declarations.now.nodes }
{
    match meaning {
        Meaning::Variable => node_of(declarations.variable(name, place)),
        Meaning::Type => node_of(declarations.class_or_type_parameter(name, place)),
        Meaning::ImportedType => declarations.single_import(ImportSort::OfType, name),
        Meaning::ImportedMember => declarations.single_import(ImportSort::Static, name),
    }
}

/// Puts whether the marked declaration is meant by the name in front of a text, or else by the one behind the mark.
pub fn put_meant(
    alloc: Global,
    out: &mut Text,
    tree: &SyntaxTree<'_>,
    meaning: Meaning,
    front: Option<&str>,
    text: &str,
) -> Result<(), NoMemory> {
    let Some(place) = place_of(tree, text) else {
        return out.push_str("! no place");
    };
    let name = front.unwrap_or(name_at_mark(text));
    let declarations = Declarations::of(alloc, tree)?;
    match meant(&declarations, meaning, name, place) {
        Some(node) => put_declaration(alloc, out, tree, text, node),
        None => out.push_str("none"),
    }
}
