//! The operands of expressions, and the expression that the type of a variable is made of that is declared by `var`.

ghost use Rattle.std.specs.Prelude.{◌≡◌, ◌<◌, ◌++◌, length, IfOk, IfSome, OnOk};
ghost use Rattle.std.specs.List.{All};
ghost use Rattle.pj_tree.specs.Tree.{children_of};
ghost use Rattle.pj_tree.specs.declared.node.Node.{Node};
ghost use Rattle.pj_exprtypes.specs.Operands.{but_first, first_only, if_some, infix_operands, operands, source_of, unary_operands, var_operands};

use pj_base::{ListOf, NoMemory};
use pj_calls::receiver_of;
use pj_leaf_types::{initializer_of, statement_of};
use pj_operators::{Infix, Unary, infix_of, unary_of};
use pj_tree::{Children, Kind, Node, SyntaxTree, first_child, second_child};
use std::alloc::Global;

/// Nodes, in the order in which they are typed.
pub type Nodes = ListOf<Node>;

/// Puts nodes at the end.
fn put_nodes(nodes: &mut Nodes, more: Children<'_>) -> Result<(), NoMemory>
    ensures { OnOk result (nodes.new ≡ nodes.old ++ more.entry) }
{
    for n in more {
        nodes.push(n)?;
    }
    Ok(())
}

/// A node, where there is one.
fn if_some(alloc: Global, n: Option<Node>) -> Result<Nodes, NoMemory>
    ensures { IfOk result (λ nodes. nodes ≡ if_some n) }
{
    let mut nodes = Nodes::new(alloc);
    if let Some(n) = n {
        nodes.push(n)?;
    }
    Ok(nodes)
}

/// The first child of a node, where it has one.
fn first_operand(alloc: Global, tree: &SyntaxTree<'_>, n: Node) -> Result<Nodes, NoMemory>
    requires inside { n.0 < length tree.now.nodes }
    ensures value { IfOk result (λ nodes. nodes ≡ first_only (children_of tree.now n)) }
{
    if_some(alloc, first_child(tree, n))
}

/// All children of a node.
fn all_operands(alloc: Global, tree: &SyntaxTree<'_>, n: Node) -> Result<Nodes, NoMemory>
    requires inside { n.0 < length tree.now.nodes }
    ensures value { IfOk result (λ nodes. nodes ≡ children_of tree.now n) }
{
    let mut nodes = Nodes::new(alloc);
    put_nodes(&mut nodes, tree.children(n))?;
    Ok(nodes)
}

/// The children of a node but the first.
fn branches(alloc: Global, tree: &SyntaxTree<'_>, n: Node) -> Result<Nodes, NoMemory>
    requires inside { n.0 < length tree.now.nodes }
    ensures value { IfOk result (λ nodes. nodes ≡ but_first (children_of tree.now n)) }
{
    let mut children = tree.children(n);
    let mut nodes = Nodes::new(alloc);
    if children.next().is_some() {
        put_nodes(&mut nodes, children)?;
    }
    Ok(nodes)
}

/// Those of an infix expression by its operator.
fn infix_operands(
    alloc: Global,
    tree: &SyntaxTree<'_>,
    n: Node,
    operator: Option<Infix>,
) -> Result<Nodes, NoMemory>
    requires inside { n.0 < length tree.now.nodes }
    ensures value { IfOk result (λ nodes. nodes ≡ infix_operands operator (children_of tree.now n)) }
{
    match operator {
        None | Some(Infix::Test) => Ok(Nodes::new(alloc)),
        Some(Infix::Shift) => first_operand(alloc, tree, n),
        Some(Infix::Sum | Infix::Bitwise | Infix::Arithmetic) => all_operands(alloc, tree, n),
    }
}

/// That of a unary expression by its operator.
fn unary_operands(
    alloc: Global,
    tree: &SyntaxTree<'_>,
    n: Node,
    operator: Option<Unary>,
) -> Result<Nodes, NoMemory>
    requires inside { n.0 < length tree.now.nodes }
    ensures value { IfOk result (λ nodes. nodes ≡ unary_operands operator (children_of tree.now n)) }
{
    match operator {
        None | Some(Unary::Not) => Ok(Nodes::new(alloc)),
        Some(Unary::Step | Unary::Sign) => first_operand(alloc, tree, n),
    }
}

/// The operands of a node by its kind.
fn listed_operands(alloc: Global, tree: &SyntaxTree<'_>, n: Node) -> Result<Nodes, NoMemory>
    requires inside { n.0 < length tree.now.nodes }
    ensures value { IfOk result (λ nodes. nodes ≡ operands tree.now n) }
{
    match tree.kind(n) {
        Kind::InfixExpression => infix_operands(alloc, tree, n, infix_of(tree, n)),
        Kind::UnaryExpression => unary_operands(alloc, tree, n, unary_of(tree, n)),
        Kind::ConditionalExpression => branches(alloc, tree, n),
        Kind::FieldAccess | Kind::AssignmentExpression | Kind::ArrayAccess => {
            first_operand(alloc, tree, n)
        }
        Kind::MethodCall => if_some(alloc, receiver_of(tree, n)),
        _ => Ok(Nodes::new(alloc)),
    }
}

/// The operands of a node: the nodes whose types its own type is made of, in the order in which they are typed (JLS 15.7).
pub fn operands(alloc: Global, tree: &SyntaxTree<'_>, n: Node) -> Result<Nodes, NoMemory>
    requires inside { n.0 < length tree.now.nodes }
    ensures value { IfOk result (λ nodes. nodes ≡ operands tree.now n) }
    ensures inside { IfOk result (λ nodes. All (λ (m : Node). m.0 < length tree.now.nodes) nodes) }
{
    let nodes = listed_operands(alloc, tree, n)?;
    Ok(nodes)
}

/// Whether the type of a node is made of those of others, which may be many, or is that of a call. What is told without others, or costs no more than one of them, is left out.
pub fn is_made_of_others(tree: &SyntaxTree<'_>, n: Node) -> bool
    requires inside { n.0 < length tree.now.nodes }
{
    match tree.kind(n) {
        Kind::MethodCall
        | Kind::FieldAccess
        | Kind::ArrayAccess
        | Kind::ConditionalExpression
        | Kind::UnaryExpression => true,
        Kind::InfixExpression => !matches!(infix_of(tree, n), None | Some(Infix::Test)),
        _ => false,
    }
}

/// What the type of a variable is made of that is declared by `var`: what its enhanced `for` goes through, and else its initializer.
fn source_of(tree: &SyntaxTree<'_>, id: Node) -> Option<Node>
    requires inside { id.0 < length tree.now.nodes }
    ensures value { result ≡ source_of tree.now id }
    ensures inside { IfSome result (λ n. n.0 < length tree.now.nodes) }
{
    match statement_of(tree, id) {
        Some(statement) => second_child(tree, statement),
        None => initializer_of(tree, id),
    }
}

/// The same as a list, which has at most one node.
pub fn var_operands(alloc: Global, tree: &SyntaxTree<'_>, id: Node) -> Result<Nodes, NoMemory>
    requires inside { id.0 < length tree.now.nodes }
    ensures value { IfOk result (λ nodes. nodes ≡ var_operands tree.now id) }
    ensures inside { IfOk result (λ nodes. All (λ (m : Node). m.0 < length tree.now.nodes) nodes) }
{
    let nodes = if_some(alloc, source_of(tree, id))?;
    Ok(nodes)
}
