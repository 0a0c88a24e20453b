//! Nodes of a class of the file: its declaration, its members, and what declares their names.

ghost use Rattle.std.specs.Prelude.{◌≡◌, ◌<◌, ◌≤◌, length, filter, IfOk};
ghost use Rattle.std.specs.List.{All};
ghost use Rattle.pj_tree.specs.Kinds.{is_kind};
ghost use Rattle.pj_tree.specs.Tree.{children_of};
ghost use Rattle.pj_tree.specs.declared.node.Node.{Node};
ghost use Rattle.pj_written.specs.Flags.{formal_parameters};
ghost use Rattle.pj_file_oracle.specs.Members.{body_nodes, variable_brackets, variable_text};

use pj_base::NoMemory;
use pj_declared::body_kind;
use pj_tree::{Kind, Node, SyntaxTree, child_of, first_word, is_kind};
use pj_written::{Nodes, below_child, bracket_count};
use std::alloc::Global;

/// The children of a kind, in a list.
fn listed_of_kind(
    alloc: Global,
    tree: &SyntaxTree<'_>,
    n: Node,
    kind: Kind,
) -> Result<Nodes, NoMemory>
    requires inside { n.0 < length tree.now.nodes }
    ensures { IfOk result (λ nodes. nodes ≡ filter (is_kind tree.now kind) (children_of tree.now n)) }
{
    let mut nodes = Nodes::new(alloc);
    for child in tree.children(n) {
        if is_kind(tree, kind, child) {
            nodes.push(child)?;
        }
    }
    Ok(nodes)
}

/// The children of a kind.
pub fn children_of_kind(
    alloc: Global,
    tree: &SyntaxTree<'_>,
    n: Node,
    kind: Kind,
) -> Result<Nodes, NoMemory>
    requires inside { n.0 < length tree.now.nodes }
    ensures value { IfOk result (λ nodes. nodes ≡ filter (is_kind tree.now kind) (children_of tree.now n)) }
    ensures inside { IfOk result (λ nodes. All (λ (m : Node). m.0 < length tree.now.nodes) nodes) }
{
    let nodes = listed_of_kind(alloc, tree, n, kind)?;
    Ok(nodes)
}

/// The parameters of a method or a constructor; a receiver parameter is none.
pub fn formal_parameters(alloc: Global, tree: &SyntaxTree<'_>, n: Node) -> Result<Nodes, NoMemory>
    requires inside { n.0 < length tree.now.nodes }
    ensures value { IfOk result (λ nodes. nodes ≡ formal_parameters tree.now n) }
    ensures inside { IfOk result (λ nodes. All (λ (m : Node). m.0 < length tree.now.nodes) nodes) }
{
    match child_of(tree, n, Kind::FormalParameters) {
        Some(list) => children_of_kind(alloc, tree, list, Kind::FormalParameter),
        None => Ok(Nodes::new(alloc)),
    }
}

/// What stands in the body of a class.
pub fn body_nodes(alloc: Global, tree: &SyntaxTree<'_>, class: Node) -> Result<Nodes, NoMemory>
    requires inside { class.0 < length tree.now.nodes }
    ensures value { IfOk result (λ nodes. nodes ≡ body_nodes tree.now class) }
    ensures inside { IfOk result (λ nodes. All (λ (m : Node). m.0 < length tree.now.nodes) nodes) }
{
    match body_kind(tree.kind(class)) {
        Some(kind) => below_child(alloc, tree, class, kind),
        None => Ok(Nodes::new(alloc)),
    }
}

/// The name that a declaration gives a variable.
pub fn variable_text<'t>(tree: &'t SyntaxTree<'_>, n: Node) -> &'t str
    requires inside { n.0 < length tree.now.nodes }
    ensures { result.now ≡ variable_text tree.now n }
{
    match child_of(tree, n, Kind::VariableId) {
        Some(id) => first_word(tree, id),
        None => "",
    }
}

/// How many pairs of brackets stand behind that name.
pub fn variable_brackets(tree: &SyntaxTree<'_>, n: Node) -> u32
    requires inside { n.0 < length tree.now.nodes }
    ensures { result ≡ variable_brackets tree.now n }
{
    match child_of(tree, n, Kind::VariableId) {
        Some(id) => bracket_count(tree, id),
        None => 0,
    }
}
