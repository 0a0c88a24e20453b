//! Imports on demand (JLS 7.5.2, 7.5.4).

ghost use Rattle.std.specs.Prelude.{◌≡◌, ◌<◌, length, IfOk};
ghost use Rattle.pj_outer_names.specs.Imports.{imports_on_demand, is_import_on_demand};

use pj_base::NoMemory;
use pj_tree::{Children, Kind, Node, SyntaxTree, has_word, is_kind};
use pj_written::Nodes;
use std::alloc::Global;

/// Whether the node is an import on demand.
pub fn is_import_on_demand(tree: &SyntaxTree<'_>, n: Node) -> bool
    requires inside { n.0 < length tree.now.nodes }
    ensures { result ≡ is_import_on_demand tree.now n }
{
    is_kind(tree, Kind::ImportDeclaration, n) && has_word(tree, n, "*")
}

/// The imports on demand of both sorts, in the order of the text.
pub fn listed_on_demand(alloc: Global, tree: &SyntaxTree<'_>) -> Result<Nodes, NoMemory>
    ensures { IfOk result (λ nodes. nodes ≡ imports_on_demand tree.now) }
{
    let _nodes = tree.len();
    let mut nodes = Nodes::new(alloc);
    for child in tree.children(Node(0)) {
        if is_import_on_demand(tree, child) {
            nodes.push(child)?;
        }
    }
    Ok(nodes)
}
