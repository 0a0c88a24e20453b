//! What is to be known of the nodes of a grammar: which can take nothing, and whether their rules are there.
ghost use Rattle.std.specs.Prelude.{◌≡◌, ℕ, ◌&&◌, ◌||◌, ◌<◌, Bool, List, length, map, not, true, false, Some, slice_get, IfOk};
ghost use Rattle.std.specs.Bool.{OnTrue, OnFalse};
ghost use Rattle.pj_peg_grammar.specs.Form.{Form};
ghost use Rattle.pj_peg_grammar.specs.Program.{AreNodes, PartsBelow, IsProgram, node_form, forms_in, rules_of};
ghost use Rattle.pj_peg_grammar.specs.Analysis.{facts_by, is_set, unset, root_bit, AreNullableRules, AddsRules};

use crate::program::{Node, Program};
use pj_base::NoMemory;
use std::alloc::Global;

/// What is to be known of a node: whether it can take nothing, whether it names only rules that are there, and whether no
/// repetition in it is of a node that can take nothing.
#[derive(Clone, Copy)]
pub struct Facts {
    /// It can take nothing.
    pub nullable: bool,
    /// It names only rules that are there.
    pub known: bool,
    /// No repetition in it is of a node that can take nothing.
    pub repeats: bool,
}

/// Whether the number is in the set.
pub fn has(set: &[bool], number: u16) -> bool
    ensures { result ≡ is_set set.now number }
{
    (number as usize) < set.len() && set[number as usize]
}

/// The facts of a node whose parts have these facts.
fn facts_of_node(node: Node, facts: &[Facts], empty: &[bool]) -> Facts
    requires { (stars : List ℕ) × PartsBelow stars (length facts.now) node }
    ensures { (forms : List Form) → facts.now ≡ map (facts_by (is_set empty.now) (length empty.now)) forms →
        result ≡ facts_by (is_set empty.now) (length empty.now) (node_form forms node) }
{
    match node {
        Node::Token(_) | Node::Any | Node::Never => Facts {
            nullable: false,
            known: true,
            repeats: true,
        },
        Node::Nothing => Facts {
            nullable: true,
            known: true,
            repeats: true,
        },
        Node::Rule(rule) => Facts {
            nullable: has(empty, rule),
            known: (rule as usize) < empty.len(),
            repeats: true,
        },
        Node::Seq(first, rest) => facts[first].followed_by(facts[rest]),
        Node::Choice(first, others) => facts[first].or(facts[others]),
        Node::Star(part, _) => facts[part].repeated(),
        Node::Maybe(part) | Node::And(part) | Node::Not(part) => Facts {
            nullable: true,
            ..facts[part]
        },
    }
}

impl Facts {
    /// What is to be known of a sequence, by its first part and by the rest.
    fn followed_by(self, rest: Facts) -> Facts
        ensures { result ≡ record { nullable = self.nullable && rest.nullable; known = self.known && rest.known; repeats = self.repeats && rest.repeats } }
    {
        Facts {
            nullable: self.nullable && rest.nullable,
            known: self.known && rest.known,
            repeats: self.repeats && rest.repeats,
        }
    }

    /// What is to be known of a choice, by its first alternative and by the others.
    fn or(self, other: Facts) -> Facts
        ensures { result ≡ record { nullable = self.nullable || other.nullable; known = self.known && other.known; repeats = self.repeats && other.repeats } }
    {
        Facts {
            nullable: self.nullable || other.nullable,
            known: self.known && other.known,
            repeats: self.repeats && other.repeats,
        }
    }

    /// What is to be known of a repetition.
    fn repeated(self) -> Facts
        ensures { result ≡ record { nullable = true; known = self.known; repeats = not self.nullable && self.repeats } }
    {
        Facts {
            nullable: true,
            known: self.known,
            repeats: !self.nullable && self.repeats,
        }
    }
}

/// The facts of each node, where these rules can take nothing.
pub fn facts_of(alloc: Global, program: &Program, empty: &[bool]) -> Result<Vec<Facts>, NoMemory>
    requires { IsProgram program.now }
    ensures { IfOk result (λ facts. facts.items ≡ map (facts_by (is_set empty.now) (length empty.now)) (forms_in program.now.nodes.items)) }
{
    let mut facts = Vec::new(alloc);
    for node in &program.nodes {
        let fact = facts_of_node(*node, &facts, empty);
        facts.push(fact)?;
    }
    Ok(facts)
}

/// Of each fact whether the node can take nothing.
fn nullable_bits(alloc: Global, facts: &[Facts]) -> Result<Vec<bool>, NoMemory>
    ensures { IfOk result (λ bits. bits.items ≡ map (λ (f : Facts). f.nullable) facts.now) }
{
    let mut bits = Vec::new(alloc);
    for fact in facts {
        bits.push(fact.nullable)?;
    }
    Ok(bits)
}

/// Adds to the set the rules whose node has its bit set, and says whether there was one.
pub fn add_rules(roots: &[usize], bits: &[bool], set: &mut Vec<bool>) -> bool
    requires roots { (r k : ℕ) → slice_get roots.now r ≡ Some k → k < length bits.now }
    requires count { length set.old.items ≡ length roots.now }
    ensures adds { AddsRules bits.now roots.now set.old.items set.new.items }
    ensures fewer { OnTrue result (unset set.new.items < unset set.old.items) }
    ensures unchanged { OnFalse result (set.new.items ≡ set.old.items) }
    ensures closed { OnFalse result ((r : ℕ) → root_bit bits.now roots.now r ≡ true → is_set set.old.items r ≡ true) }
{
    let mut added = false;
    for rule in 0..roots.len() {
        let root = roots[rule];
        if !bits[root] {
            continue;
        }
        if set[rule] {
            continue;
        }
        set[rule] = true;
        added = true;
    }
    added
}

/// The rules that can take nothing: none at first, and in each turn those that can by the ones found so far.
pub fn nullable_rules(alloc: Global, program: &Program) -> Result<Vec<bool>, NoMemory>
    requires { IsProgram program.now }
    ensures { IfOk result (λ empty. AreNullableRules (rules_of program.now) empty.items) }
{
    let mut empty = Vec::new(alloc);
    empty.resize(program.roots.len(), false)?;
    loop {
        let facts = facts_of(alloc, program, &empty)?;
        let bits = nullable_bits(alloc, &facts)?;
        if !add_rules(&program.roots, &bits, &mut empty) {
            return Ok(empty);
        }
    }
}
