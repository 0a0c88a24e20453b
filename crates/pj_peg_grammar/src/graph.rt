//! Which rules a rule can call where it begins, and an order in which each rule stands behind those that it calls.
ghost use Rattle.std.specs.Prelude.{◌≡◌, ℕ, ◌+◌, ◌^◌, ◌<◌, ◌≤◌, ◌++◌, ◌↔◌, Bool, List, length, map, true, IsTrue, OnOk, IfOk, Vec};
ghost use Rattle.std.specs.Bool.{OnTrue, OnFalse};
ghost use Rattle.std.specs.Global.{Global as Heap};
ghost use Rattle.pj_peg_grammar.specs.Program.{AreNodes, IsProgram, form_at, forms_in, rules_of};
ghost use Rattle.pj_peg_grammar.specs.Analysis.{facts_by, is_set, unset, begun_by};
ghost use Rattle.pj_peg_grammar.specs.Graph.{IsIn, calls_of, Comes, Marks, IsPlacing, IsClosed, IsFaultBy};

use crate::GrammarFault;
use crate::analysis::{Facts, has};
use crate::program::{Node, Program};
use pj_base::NoMemory;
use std::alloc::Global;

/// Adds the rules that a node can call where it begins, by the facts of the nodes.
fn add_begun(
    nodes: &[Node],
    facts: &[Facts],
    root: usize,
    found: &mut Vec<u16>,
) -> Result<(), NoMemory>
    requires nodes { (stars : List ℕ) × AreNodes nodes.now stars }
    requires within { root < length nodes.now }
    requires facts { length facts.now ≡ length nodes.now }
    ensures { OnOk result ((e : ℕ → Bool) (n : ℕ) → facts.now ≡ map (facts_by e n) (forms_in nodes.now) →
        found.new.items ≡ found.old.items ++ begun_by e (form_at (forms_in nodes.now) root)) }
{
    let mut node = root;
    loop {
        match nodes[node] {
            Node::Token(_) | Node::Any | Node::Nothing | Node::Never => return Ok(()),
            Node::Rule(rule) => {
                found.push(rule)?;
                return Ok(());
            }
            Node::Seq(first, rest) => {
                add_begun(nodes, facts, first, found)?;
                if !facts[first].nullable {
                    return Ok(());
                }
                node = rest;
            }
            Node::Choice(first, others) => {
                add_begun(nodes, facts, first, found)?;
                node = others;
            }
            Node::Star(part, _) => node = part,
            Node::Maybe(part) => node = part,
            Node::And(part) => node = part,
            Node::Not(part) => node = part,
        }
    }
}

/// For each rule, those that it can call where it begins.
pub fn calls(alloc: Global, program: &Program, facts: &[Facts]) -> Result<Vec<Vec<u16>>, NoMemory>
    requires program { IsProgram program.now }
    requires facts { length facts.now ≡ length program.now.nodes.items }
    ensures { IfOk result (λ graph. (e : ℕ → Bool) (n : ℕ) → facts.now ≡ map (facts_by e n) (forms_in program.now.nodes.items) →
        map (λ (v : Vec ℕ Heap). v.items) graph.items ≡ map (begun_by e) (rules_of program.now)) }
{
    let mut graph = Vec::new(alloc);
    for root in &program.roots {
        let mut found = Vec::new(alloc);
        add_begun(&program.nodes, facts, *root, &mut found)?;
        graph.push(found)?;
    }
    Ok(graph)
}

/// Marks the rules as seen, and puts those that are new on the list of what is to do.
fn mark(calls: &[u16], seen: &mut Vec<bool>, todo: &mut Vec<u16>) -> Result<(), NoMemory>
    ensures { OnOk result (Marks calls.now seen.old.items todo.old.items seen.new.items todo.new.items) }
{
    for rule in calls {
        if *rule as usize >= seen.len() {
            continue;
        }
        if seen[*rule as usize] {
            continue;
        }
        todo.push(*rule)?;
        seen[*rule as usize] = true;
    }
    Ok(())
}

/// Whether the rule comes to itself.
fn comes_to_itself(alloc: Global, graph: &[Vec<u16>], rule: u16) -> Result<bool, NoMemory>
    requires { rule < length graph.now }
    ensures { IfOk result (λ comes. IsTrue comes ↔ Comes graph.now rule rule) }
{
    let mut seen = Vec::new(alloc);
    seen.resize(graph.len(), false)?;
    let mut todo = Vec::new(alloc);
    mark(&graph[rule as usize], &mut seen, &mut todo)?;
    while let Some(next) = todo.pop() {
        mark(&graph[next as usize], &mut seen, &mut todo)?;
    }
    Ok(seen[rule as usize])
}

/// Rules in an order in which each stands after those that it calls.
#[derive(Drop)]
pub struct Placing {
    /// The rules in their order.
    pub order: Vec<u16>,
    /// Of each rule whether it is in the order.
    pub placed: Vec<bool>,
}

/// Whether the rules of the list are all placed.
fn are_placed(calls: &[u16], placed: &[bool]) -> bool
    ensures { IsTrue result ↔ ((s : ℕ) → IsIn calls.now s → is_set placed.now s ≡ true) }
{
    for rule in calls {
        if !has(placed, *rule) {
            return false;
        }
    }
    true
}

/// Places the rules whose calls are placed, the last rule first, and says whether there was one.
fn place_further(
    graph: &[Vec<u16>],
    order: &mut Vec<u16>,
    placed: &mut Vec<bool>,
) -> Result<bool, NoMemory>
    requires few { length graph.now ≤ 2 ^ 16 }
    requires placing { IsPlacing graph.now order.old.items placed.old.items }
    ensures placing { OnOk result (IsPlacing graph.now order.new.items placed.new.items) }
    ensures fewer { IfOk result (λ added. OnTrue added (unset placed.new.items < unset placed.old.items)) }
    ensures closed { IfOk result (λ added. OnFalse added (IsClosed graph.now placed.new.items)) }
{
    let mut added = false;
    let mut rule = graph.len();
    while rule > 0 {
        rule -= 1;
        let calls = &graph[rule];
        if placed[rule] {
            continue;
        }
        if !are_placed(calls, placed) {
            continue;
        }
        order.push(rule as u16)?;
        placed[rule] = true;
        added = true;
    }
    Ok(added)
}

/// Places all rules that do not come to one that comes to itself.
pub fn place_rules(alloc: Global, graph: &[Vec<u16>]) -> Result<Placing, NoMemory>
    requires { length graph.now ≤ 2 ^ 16 }
    ensures placing { IfOk result (λ p. IsPlacing graph.now p.order.items p.placed.items) }
    ensures closed { IfOk result (λ p. IsClosed graph.now p.placed.items) }
{
    let mut order = Vec::new(alloc);
    let mut placed = Vec::new(alloc);
    placed.resize(graph.len(), false)?;
    while place_further(graph, &mut order, &mut placed)? {}
    Ok(Placing { order, placed })
}

/// Whether the rule comes to itself. None that is placed does.
fn is_left_recursive(
    alloc: Global,
    graph: &[Vec<u16>],
    placed: &[bool],
    rule: u16,
) -> Result<bool, NoMemory>
    requires rule { rule < length graph.now }
    requires placing { (order : List ℕ) × IsPlacing graph.now order placed.now }
    ensures { IfOk result (λ comes. IsTrue comes ↔ Comes graph.now rule rule) }
{
    if has(placed, rule) {
        return Ok(false);
    }
    let comes = comes_to_itself(alloc, graph, rule)?;
    Ok(comes)
}

/// The first fault of a rule, by the facts of its item.
pub fn fault_of(
    alloc: Global,
    fact: Facts,
    graph: &[Vec<u16>],
    placed: &[bool],
    rule: u16,
) -> Result<Option<GrammarFault>, NoMemory>
    requires rule { rule < length graph.now }
    requires placing { (order : List ℕ) × IsPlacing graph.now order placed.now }
    ensures { IfOk result (IsFaultBy fact graph.now rule) }
{
    if !fact.known {
        return Ok(Some(GrammarFault::UnknownRule(rule)));
    }
    if is_left_recursive(alloc, graph, placed, rule)? {
        return Ok(Some(GrammarFault::LeftRecursion(rule)));
    }
    if !fact.repeats {
        return Ok(Some(GrammarFault::EmptyRepeat(rule)));
    }
    Ok(None)
}
