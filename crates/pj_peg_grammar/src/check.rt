//! What is found out of a grammar's rules, and the test whether they are well-formed.
ghost use Rattle.std.specs.Prelude.{◌≡◌, ℕ, ◌^◌, ◌≤◌, length, IfOk, IfErr, OnOk};
ghost use Rattle.pj_peg_grammar.specs.Form.{forms_of};
ghost use Rattle.pj_peg_grammar.specs.WellFormed.{IsWellFormed, IsFirstFault};
ghost use Rattle.pj_peg_grammar.specs.Analysed.{IsAnalysis};
ghost use Rattle.pj_peg_grammar.specs.Graph.{IsPlacing, IsClosed};
ghost use Rattle.pj_peg_grammar.specs.Firsts.{AreGoing};

use crate::analysis::{Facts, facts_of, nullable_rules};
use crate::compile::compile;
use crate::firsts::goings;
use crate::graph::{Placing, calls, fault_of, place_rules};
use crate::program::Program;
use crate::{GrammarFault, Item};
use pj_base::NoMemory;
use std::alloc::Global;

/// What was found out of a grammar's rules.
#[derive(Drop)]
pub struct Analysis {
    /// The items of the rules as nodes.
    pub program: Program,
    /// What is to be known of each node.
    pub facts: Vec<Facts>,
    /// For each rule, those that it can call where it begins.
    pub calls: Vec<Vec<u16>>,
    /// The rules that do not come to one that comes to itself, in an order.
    pub placing: Placing,
    /// Of each node the kinds of which one can stand where it goes on.
    pub goings: Vec<u128>,
}

/// Finds out what is to be known of the rules.
pub fn analyse(alloc: Global, rules: &[Item]) -> Result<Analysis, NoMemory>
    requires { length rules.now ≤ 2 ^ 16 }
    ensures analysis { IfOk result (λ a. IsAnalysis (forms_of rules.now) a.program a.facts.items a.calls.items) }
    ensures placing { IfOk result (λ a. IsPlacing a.calls.items a.placing.order.items a.placing.placed.items) }
    ensures closed { IfOk result (λ a. IsClosed a.calls.items a.placing.placed.items) }
    ensures goings { IfOk result (λ a. AreGoing a.program a.goings.items) }
{
    let program = compile(alloc, rules)?;
    let empty = nullable_rules(alloc, &program)?;
    let facts = facts_of(alloc, &program, &empty)?;
    let calls = calls(alloc, &program, &facts)?;
    let placing = place_rules(alloc, &calls)?;
    let goings = goings(alloc, &program, &empty)?;
    Ok(Analysis {
        program,
        facts,
        calls,
        placing,
        goings,
    })
}

/// The fault of the first rule that has one.
pub fn first_fault(alloc: Global, rules: &[Item], analysis: &Analysis) -> Result<(), GrammarFault>
    requires few { length rules.now ≤ 2 ^ 16 }
    requires analysis { IsAnalysis (forms_of rules.now) analysis.now.program analysis.now.facts.items analysis.now.calls.items }
    requires placing { IsPlacing analysis.now.calls.items analysis.now.placing.order.items analysis.now.placing.placed.items }
    ensures well_formed { OnOk result (IsWellFormed (forms_of rules.now)) }
    ensures fault { IfErr result (IsFirstFault (forms_of rules.now)) }
    ensures accepts { IsWellFormed (forms_of rules.now) → IfErr result (λ fault. fault ≡ GrammarFault.Memory) }
{
    for rule in 0..rules.len() {
        let fact = analysis.facts[analysis.program.roots[rule]];
        let placed = &analysis.placing.placed;
        match fault_of(alloc, fact, &analysis.calls, placed, rule as u16)? {
            Some(fault) => return Err(fault),
            None => {}
        }
    }
    Ok(())
}
