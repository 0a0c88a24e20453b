//! With which tokens each node of a program can begin.
ghost use Rattle.std.specs.Prelude.{◌≡◌, ℕ, ◌&&◌, ◌||◌, ◌<◌, Bool, List, length, map, Some, slice_get, IfOk, if◌then◌else◌};
ghost use Rattle.std.specs.Bool.{OnTrue, OnFalse};
ghost use Rattle.std.specs.Int.RustNames.{bit_or};
ghost use Rattle.pj_peg_grammar.specs.declared.firsts.Beginning.{Beginning as AnyBeginning};
ghost use Rattle.pj_peg_grammar.specs.Form.{Form};
ghost use Rattle.pj_peg_grammar.specs.Program.{PartsBelow, IsProgram, node_form, forms_in, rules_of};
ghost use Rattle.pj_peg_grammar.specs.Analysis.{is_set, AreNullableRules};
ghost use Rattle.pj_peg_grammar.specs.Firsts.{all_kinds, kind_set, set_at, missing, beginning_by, going_of, AreGoing};

use crate::analysis::has;
use crate::program::{Node, Program};
use pj_base::NoMemory;
use std::alloc::Global;

/// How many kinds of tokens the sets are of: those from 0 on. Where a token of a further kind stands, nothing is ruled out.
pub const KINDS: u16 = 128;

/// Whether a node can take nothing, and the kinds of which the first can be where it takes tokens: kind k is in the set where
/// bit k is 1.
#[derive(Clone, Copy)]
pub struct Beginning {
    /// It can take nothing.
    pub nullable: bool,
    /// The kinds of which the first can be where it takes tokens.
    pub firsts: u128,
}

impl Beginning {
    /// With which tokens a sequence can begin, by its first part and by the rest.
    fn followed_by(self, rest: Beginning) -> Beginning
        ensures { result ≡ record { nullable = self.nullable && rest.nullable; firsts = (if self.nullable then bit_or self.firsts rest.firsts else self.firsts) } }
    {
        Beginning {
            nullable: self.nullable && rest.nullable,
            firsts: if self.nullable {
                self.firsts | rest.firsts
            } else {
                self.firsts
            },
        }
    }

    /// With which tokens a choice can begin, by its first alternative and by the others.
    fn or(self, other: Beginning) -> Beginning
        ensures { result ≡ record { nullable = self.nullable || other.nullable; firsts = bit_or self.firsts other.firsts } }
    {
        Beginning {
            nullable: self.nullable || other.nullable,
            firsts: self.firsts | other.firsts,
        }
    }

    /// The kinds of which one can stand where the node goes on: any, where it can take nothing.
    fn going(self) -> u128
        ensures { result ≡ going_of self }
    {
        if self.nullable {
            u128::MAX
        } else {
            self.firsts
        }
    }
}

/// The set of one kind. Of a further kind there is none.
fn only(kind: u16) -> u128
    ensures { result ≡ kind_set kind }
{
    if kind < KINDS { 1u128 << kind } else { 0 }
}

/// The set of a rule. One that is not there has the empty set.
fn set_of(sets: &[u128], rule: u16) -> u128
    ensures { result ≡ set_at sets.now rule }
{
    if (rule as usize) < sets.len() {
        sets[rule as usize]
    } else {
        0
    }
}

/// How a node begins whose parts begin so, where these rules can take nothing and begin with the kinds of their sets.
fn beginning_of_node(node: Node, parts: &[Beginning], empty: &[bool], sets: &[u128]) -> Beginning
    requires { (stars : List ℕ) × PartsBelow stars (length parts.now) node }
    ensures { (forms : List Form) → parts.now ≡ map (beginning_by (is_set empty.now) (set_at sets.now)) forms →
        result ≡ beginning_by (is_set empty.now) (set_at sets.now) (node_form forms node) }
{
    match node {
        Node::Token(kind) => Beginning {
            nullable: false,
            firsts: only(kind),
        },
        Node::Any => Beginning {
            nullable: false,
            firsts: u128::MAX,
        },
        Node::Never => Beginning {
            nullable: false,
            firsts: 0,
        },
        Node::Nothing | Node::And(_) | Node::Not(_) => Beginning {
            nullable: true,
            firsts: 0,
        },
        Node::Rule(rule) => Beginning {
            nullable: has(empty, rule),
            firsts: set_of(sets, rule),
        },
        Node::Seq(first, rest) => parts[first].followed_by(parts[rest]),
        Node::Choice(first, others) => parts[first].or(parts[others]),
        Node::Star(part, _) | Node::Maybe(part) => Beginning {
            nullable: true,
            ..parts[part]
        },
    }
}

/// How each node begins, where these rules can take nothing and begin with the kinds of their sets.
fn beginnings_of(
    alloc: Global,
    program: &Program,
    empty: &[bool],
    sets: &[u128],
) -> Result<Vec<Beginning>, NoMemory>
    requires { IsProgram program.now }
    ensures { IfOk result (λ all. all.items ≡ map (beginning_by (is_set empty.now) (set_at sets.now)) (forms_in program.now.nodes.items)) }
{
    let mut all = Vec::with_capacity(alloc, program.nodes.len())?;
    for node in &program.nodes {
        let beginning = beginning_of_node(*node, &all, empty, sets);
        all.push(beginning)?;
    }
    Ok(all)
}

/// What is in one set or in the other.
fn union(set: u128, other: u128) -> u128
    ensures { result ≡ bit_or set other }
{
    set | other
}

/// Adds to each rule's set the kinds with which its node can begin, and says whether one of them was new.
fn add_firsts(roots: &[usize], all: &[Beginning], sets: &mut Vec<u128>) -> bool
    requires roots { (r k : ℕ) → slice_get roots.now r ≡ Some k → k < length all.now }
    requires count { length sets.old.items ≡ length roots.now }
    ensures count { length sets.new.items ≡ length sets.old.items }
    ensures fewer { OnTrue result (missing sets.new.items < missing sets.old.items) }
    ensures unchanged { OnFalse result (sets.new.items ≡ sets.old.items) }
    ensures closed { OnFalse result ((r k : ℕ) (b : AnyBeginning) → slice_get roots.now r ≡ Some k → slice_get all.now k ≡ Some b →
        bit_or (set_at sets.old.items r) b.firsts ≡ set_at sets.old.items r) }
{
    let mut added = false;
    for rule in 0..roots.len() {
        let root = roots[rule];
        let old = sets[rule];
        let new = union(old, all[root].firsts);
        if new == old {
            continue;
        }
        sets[rule] = new;
        added = true;
    }
    added
}

/// Of each node the kinds of which one can stand where it goes on.
fn going_sets(alloc: Global, all: &[Beginning]) -> Result<Vec<u128>, NoMemory>
    ensures { IfOk result (λ sets. sets.items ≡ map going_of all.now) }
{
    let mut sets = Vec::with_capacity(alloc, all.len())?;
    for beginning in all {
        sets.push(beginning.going())?;
    }
    Ok(sets)
}

/// Of each node the kinds of which one can stand where it goes on: those with which it can begin, or any where it can take
/// nothing. The rules' sets are empty at first, and in each turn get what their nodes can begin with by the sets so far.
pub fn goings(alloc: Global, program: &Program, empty: &[bool]) -> Result<Vec<u128>, NoMemory>
    requires program { IsProgram program.now }
    requires empty { AreNullableRules (rules_of program.now) empty.now }
    ensures { IfOk result (λ sets. AreGoing program.now sets.items) }
{
    let mut sets = Vec::new(alloc);
    sets.resize(program.roots.len(), 0)?;
    loop {
        let all = beginnings_of(alloc, program, empty, &sets)?;
        if !add_firsts(&program.roots, &all, &mut sets) {
            return Ok(going_sets(alloc, &all)?);
        }
    }
}
