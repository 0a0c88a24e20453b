//! From a grammar's items to the nodes of its program.
ghost use Rattle.std.specs.Prelude.{◌≡◌, [], ◌∷◌, ◌++◌, length, map, IfOk, OnOk};
ghost use Rattle.pj_peg_grammar.specs.Form.{form_of, forms_of, seq_all, choice_all};
ghost use Rattle.pj_peg_grammar.specs.Program.{AreNodes, AddsForm, IsProgram, rules_of};

use crate::Item;
use crate::program::{Node, Program};
use pj_base::NoMemory;
use std::alloc::Global;

/// Adds a node, and says its index.
fn add(nodes: &mut Vec<Node>, node: Node) -> Result<usize, NoMemory>
    ensures index { IfOk result (λ index. index ≡ length nodes.old.items) }
    ensures nodes { OnOk result (nodes.new.items ≡ nodes.old.items ++ node ∷ []) }
{
    let index = nodes.len();
    nodes.push(node)?;
    Ok(index)
}

/// Adds the nodes of an item, and says the index of the one that stands for it.
#[cycle(add_items)]
fn add_item(item: &Item, nodes: &mut Vec<Node>, stars: &mut Vec<usize>) -> Result<usize, NoMemory>
    requires { AreNodes nodes.old.items stars.old.items }
    ensures { IfOk result (λ index. AddsForm nodes.old.items nodes.new.items stars.old.items stars.new.items index (form_of item.now)) }
{
    match item {
        Item::Token(kind) => Ok(add(nodes, Node::Token(*kind))?),
        Item::Any => Ok(add(nodes, Node::Any)?),
        Item::Rule(rule) => Ok(add(nodes, Node::Rule(*rule))?),
        Item::Seq(parts) => add_sequence(parts, nodes, stars),
        Item::Choice(parts) => add_choice(parts, nodes, stars),
        Item::Star(part) => {
            let part = add_item(part, nodes, stars)?;
            let star = stars.len();
            stars.push(part)?;
            Ok(add(nodes, Node::Star(part, star))?)
        }
        Item::Maybe(part) => {
            let part = add_item(part, nodes, stars)?;
            Ok(add(nodes, Node::Maybe(part))?)
        }
        Item::And(part) => {
            let part = add_item(part, nodes, stars)?;
            Ok(add(nodes, Node::And(part))?)
        }
        Item::Not(part) => {
            let part = add_item(part, nodes, stars)?;
            Ok(add(nodes, Node::Not(part))?)
        }
    }
}

/// Adds the nodes of a sequence, the last part first.
#[cycle(add_items)]
fn add_sequence(
    parts: &[Item],
    nodes: &mut Vec<Node>,
    stars: &mut Vec<usize>,
) -> Result<usize, NoMemory>
    requires { AreNodes nodes.old.items stars.old.items }
    ensures { IfOk result (λ index. AddsForm nodes.old.items nodes.new.items stars.old.items stars.new.items index (seq_all (map form_of parts.now))) }
{
    let mut rest = add(nodes, Node::Nothing)?;
    let mut left = parts.len();
    while left > 0 {
        left -= 1;
        let first = add_item(&parts[left], nodes, stars)?;
        rest = add(nodes, Node::Seq(first, rest))?;
    }
    Ok(rest)
}

/// Adds the nodes of a choice, the last alternative first.
#[cycle(add_items)]
fn add_choice(
    parts: &[Item],
    nodes: &mut Vec<Node>,
    stars: &mut Vec<usize>,
) -> Result<usize, NoMemory>
    requires { AreNodes nodes.old.items stars.old.items }
    ensures { IfOk result (λ index. AddsForm nodes.old.items nodes.new.items stars.old.items stars.new.items index (choice_all (map form_of parts.now))) }
{
    let mut others = add(nodes, Node::Never)?;
    let mut left = parts.len();
    while left > 0 {
        left -= 1;
        let first = add_item(&parts[left], nodes, stars)?;
        others = add(nodes, Node::Choice(first, others))?;
    }
    Ok(others)
}

/// The program of a grammar's rules.
pub fn compile(alloc: Global, rules: &[Item]) -> Result<Program, NoMemory>
    ensures program { IfOk result IsProgram }
    ensures rules { IfOk result (λ program. rules_of program ≡ forms_of rules.now) }
{
    let mut nodes = Vec::new(alloc);
    let mut roots = Vec::new(alloc);
    let mut stars = Vec::new(alloc);
    for rule in rules {
        let root = add_item(rule, &mut nodes, &mut stars)?;
        roots.push(root)?;
    }
    Ok(Program {
        nodes,
        roots,
        stars,
    })
}
