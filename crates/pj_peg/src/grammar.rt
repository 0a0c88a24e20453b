//! Grammars, and those that are well-formed.
ghost use Rattle.std.specs.Prelude.{◌≡◌, ◌^◌, ◌<◌, ◌≤◌, length, IfOk, IfErr, OnOk};
ghost use Rattle.pj_peg_grammar.specs.Form.{forms_of};
ghost use Rattle.pj_peg_grammar.specs.WellFormed.{IsWellFormed, IsFirstFault};
ghost use Rattle.pj_peg_grammar.specs.Analysed.{IsAnalysis};
ghost use Rattle.pj_peg_grammar.specs.Firsts.{AreGoing};

use crate::plan::Plan;
use crate::slots::slots_by_kind;
use pj_base::NoMemory;
use pj_peg_grammar::{Analysis, GrammarFault, Item, Items, analyse, first_fault};
use std::alloc::Global;
use std::marker::Model;

/// The rules of a grammar, by their numbers. Whether it is well-formed is not known yet.
#[derive(Drop)]
pub struct Grammar {
    rules: Items,
}

impl Model for Grammar {
    ghost use Rattle.std.specs.Prelude.{◌^◌, ◌<◌, ◌≤◌, List, length};
    ghost use Rattle.std.specs.Coded.{codes};
    ghost use Rattle.pj_peg_grammar.specs.contracts.item.Item as e;
    ghost use Rattle.pj_peg_grammar.specs.declared.item.Item.{Item};

    ghost Value = { List Item };

    ghost coded = { Prim.hlevel (codes, e.the_row.coded) };

    ghost view = { λ g. g.rules.items };

    ghost invariant = { λ g. (0 < length g.rules.items) × (length g.rules.items ≤ 2 ^ 16) };
}

/// A well-formed grammar: no rule names one that is not there, none can come to itself at one place, and none repeats an item
/// that can take nothing.
#[derive(Drop)]
pub struct WellFormed {
    rules: Items,
    pub(crate) plan: Plan,
}

impl Model for WellFormed {
    ghost use Rattle.std.specs.Prelude.{List};
    ghost use Rattle.std.specs.Coded.{codes};
    ghost use Rattle.pj_peg_grammar.specs.contracts.item.Item as e;
    ghost use Rattle.pj_peg_grammar.specs.declared.item.Item.{Item};
    ghost use Rattle.pj_peg_grammar.specs.Form.{forms_of};
    ghost use Rattle.pj_peg.specs.Made.{IsMade};

    ghost Value = { List Item };

    ghost coded = { Prim.hlevel (codes, e.the_row.coded) };

    ghost view = { λ g. g.rules.items };

    ghost invariant = { λ g. IsMade (forms_of g.rules.items) g.plan };
}

impl Grammar {
    /// The grammar of these rules, of which there are from 1 to 65,536.
    pub fn new(rules: Items) -> Grammar
        requires some { 0 < length rules.items }
        requires most { length rules.items ≤ 2 ^ 16 }
        ensures rules { result ≡ rules.items }
    {
        Grammar { rules }
    }

    /// The grammar, if it is well-formed, else the first of the faults of the first rule by number that has one, in the order
    /// unknown rule, left recursion, empty repetition. Only `GrammarFault::Memory` has no cause in the rules.
    pub fn checked(self, alloc: Global) -> Result<WellFormed, GrammarFault>
        ensures rules { IfOk result (λ grammar. grammar ≡ self) }
        ensures well_formed { OnOk result (IsWellFormed (forms_of self)) }
        ensures fault { IfErr result (IsFirstFault (forms_of self)) }
        ensures accepts { IsWellFormed (forms_of self) → IfErr result (λ fault. fault ≡ GrammarFault.Memory) }
    {
        let analysis = analyse(alloc, &self.rules)?;
        first_fault(alloc, &self.rules, &analysis)?;
        Ok(WellFormed::made(alloc, self.rules, analysis)?)
    }
}

impl WellFormed {
    /// The number of rules.
    pub fn rule_count(&self) -> u32
        ensures count { result ≡ length self.now }
        ensures well_formed { IsWellFormed (forms_of self.now) }
    {
        self.rules.len() as u32
    }

    /// The grammar of rules that are known to be well-formed.
    fn made(alloc: Global, rules: Items, analysis: Analysis) -> Result<WellFormed, NoMemory>
        requires some { 0 < length rules.items }
        requires most { length rules.items ≤ 2 ^ 16 }
        requires well_formed { IsWellFormed (forms_of rules.items) }
        requires analysis { IsAnalysis (forms_of rules.items) analysis.program analysis.facts.items analysis.calls.items }
        requires goings { AreGoing analysis.program analysis.goings.items }
        ensures { IfOk result (λ grammar. grammar ≡ rules.items) }
    {
        let Analysis {
            program,
            facts: _,
            calls: _,
            placing: _,
            goings,
        } = analysis;
        let slots = slots_by_kind(alloc, &program, &goings)?;
        let plan = Plan {
            program,
            goings,
            slots,
        };
        Ok(WellFormed { rules, plan })
    }

    /// The grammar of rules that are known to be well-formed, of which there are from 1 to 65,536. For a table of rules that is
    /// known when it is compiled, `well_formed_from_test` of `proofs/Decided.antt` of `pj_peg_grammar` shows it by a computation.
    pub fn of_rules(alloc: Global, rules: Items) -> Result<WellFormed, NoMemory>
        requires some { 0 < length rules.items }
        requires most { length rules.items ≤ 2 ^ 16 }
        requires well_formed { IsWellFormed (forms_of rules.items) }
        ensures rules { IfOk result (λ grammar. grammar ≡ rules.items) }
    {
        let analysis = analyse(alloc, &rules)?;
        WellFormed::made(alloc, rules, analysis)
    }
}
