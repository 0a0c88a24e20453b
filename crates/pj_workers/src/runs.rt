//! What the rules of a set come to in a file that has a tree, each with the classes on which that rests.
ghost use Rattle.std.specs.Prelude.{◌≡◌, ◌<◌, List, Ok, IfOk, length};
ghost use Rattle.std.specs.List.{All, AllZip};
ghost use Rattle.pj_javafuncs.specs.Facts.{facts as known};
ghost use Rattle.pj_names.specs.Asking.{each};
ghost use Rattle.pj_names.specs.Noting.{Notes};
ghost use Rattle.pj_names.specs.Told.{Asks, seen};
ghost use Rattle.pj_workers.specs.Chosen.{chosen};
ghost use Rattle.pj_workers.specs.FileMeaning.{rule_at};
ghost use Rattle.pj_workers.specs.JavaReplies.{java_replies, known_in};
ghost use Rattle.pj_workers.specs.Results.{RestsOn, came_to};
ghost use Rattle.pj_workers.specs.RuleMeaning.{rule_in_file};
ghost use Rattle.pj_workers.specs.Rules.{IsRuleOf, Rule as MeantRule};
ghost use Rattle.pj_workers.specs.Views.{AreRight, IsOfOneFile, file_seen, if_active};

use crate::file_rule::{FileRule, result_by};
use crate::view::FileView;
use pj_exprtypes::Typed;
use pj_file_oracle::{FileOracle, Held};
use pj_findings::{RuleRun, RuleRuns};
use pj_javafuncs::JavaCalls;
use pj_names::{AskFault, ClassNameSet, Oracle, Recorder};
use pj_outer_names::File;
use pj_reports::{Ruled, Spots};
use pj_rule_sets::{Rule, which_are_active};
use pj_xlaws::trees_tell_expressions;
use pj_xparse::one_expression;
use pj_xpatterns::trees_tell_patterns;
use pj_xvalue::Attributes;
use std::mem::{replace, swap};

/// The oracle beneath that of functions that are called no more. What they hold of the file is put in the place of these tables.
fn give_back<'a, 'f, O: Oracle, A: Attributes>(
    calls: JavaCalls<'a, 'f, O, A>,
    held: &mut Held,
    types: &mut Typed,
) -> &'a mut O
    ensures same_oracle { result.ghost_name ≡ calls.entry.oracle.inner.ghost_name }
    ensures oracle { result.now ≡ calls.entry.oracle.inner.now }
    ensures held { held.new ≡ calls.entry.oracle.held.now }
    ensures types { types.new ≡ calls.entry.types.now }
{
    let over = calls.oracle;
    let last_held = over.held;
    let last_types = calls.types;
    swap(last_held, held);
    swap(last_types, types);
    over.inner
}

/// What an active rule comes to in a file, with the facts of the file and what is held of it.
fn active_result<'t, O: Oracle, A: Attributes>(
    file: &'t FileView<'t>,
    java: &'t File<'_>,
    facts: &'t A,
    rule: &'t Rule,
    oracle: &mut O,
    held: &mut Held,
    types: &mut Typed,
) -> Result<Ruled, AskFault>
    requires file { IsOfOneFile file.now }
    requires java { java.now ≡ (file_seen file.now).tree }
    requires nodes { A.nodes facts.now ≡ length (file_seen file.now).tree.nodes }
    requires text { A.text_length facts.now ≡ length (file_seen file.now).tree.text }
    requires known { known (A.attribute_of facts.now) (A.names_of facts.now) (A.modifiers_of facts.now) (A.place_of facts.now) file.now.path.now ≡ known_in file.now.path.now (file_seen file.now) }
    requires right { AreRight (file_seen file.now).tree (O.tells oracle.old) held.old types.old.entries }
    ensures asks { (meant : MeantRule) → IsRuleOf file.now.marker.now rule.now meant
        → Asks (rule_in_file (java_replies file.now.path.now (file_seen file.now)) (file_seen file.now) meant) (O.tells oracle.old) (O.tells oracle.new) result }
    ensures kept { (O.tells oracle.new).kept ≡ (O.tells oracle.old).kept }
    ensures right { AreRight (file_seen file.now).tree (O.tells oracle.new) held.new types.new.entries }
{
    one_expression();
    trees_tell_expressions();
    trees_tell_patterns();
    let mut own_held = replace(held, Held::new(file.alloc));
    let mut own_types = replace(types, Typed::new(file.alloc));
    let over = FileOracle::new(file.alloc, java, oracle, &mut own_held);
    let mut calls = JavaCalls::new(over, &mut own_types, facts, file.path);
    let in_file = FileRule { file, rule };
    let came_to = result_by(&in_file, &mut calls);
    let _inner = give_back(calls, held, types);
    came_to
}

/// What a rule comes to in a file: nothing where it is not active.
fn result_if_active<'t, O: Oracle>(
    file: &'t FileView<'t>,
    java: &'t File<'_>,
    rule: &'t Rule,
    is_active: bool,
    oracle: &mut O,
    held: &mut Held,
    types: &mut Typed,
) -> Result<Ruled, AskFault>
    requires file { IsOfOneFile file.now }
    requires java { java.now ≡ (file_seen file.now).tree }
    requires right { AreRight (file_seen file.now).tree (O.tells oracle.old) held.old types.old.entries }
    ensures asks { (meant : MeantRule) → IsRuleOf file.now.marker.now rule.now meant
        → Asks (if_active is_active file.now.path.now (file_seen file.now) meant) (O.tells oracle.old) (O.tells oracle.new) result }
    ensures kept { (O.tells oracle.new).kept ≡ (O.tells oracle.old).kept }
    ensures right { AreRight (file_seen file.now).tree (O.tells oracle.new) held.new types.new.entries }
{
    if is_active {
        return active_result(file, java, file.facts, rule, oracle, held, types);
    }
    Ok(Ruled::Spots(Spots::new(file.alloc)))
}

/// The same, and the names that the rule asks are noted.
fn noted_result<'t, O: Oracle>(
    file: &'t FileView<'t>,
    java: &'t File<'_>,
    rule: &'t Rule,
    is_active: bool,
    oracle: &mut O,
    held: &mut Held,
    types: &mut Typed,
    noted: &mut ClassNameSet,
) -> Result<Ruled, AskFault>
    requires file { IsOfOneFile file.now }
    requires java { java.now ≡ (file_seen file.now).tree }
    requires right { AreRight (file_seen file.now).tree (O.tells oracle.old) held.old types.old.entries }
    ensures asks { (meant : MeantRule) → IsRuleOf file.now.marker.now rule.now meant
        → Asks (if_active is_active file.now.path.now (file_seen file.now) meant) (O.tells oracle.old) (O.tells oracle.new) result }
    ensures notes { (meant : MeantRule) → IsRuleOf file.now.marker.now rule.now meant
        → Notes (if_active is_active file.now.path.now (file_seen file.now) meant) (O.tells oracle.old).is_told (O.tells oracle.old).world noted.old noted.new result }
    ensures right { AreRight (file_seen file.now).tree (O.tells oracle.new) held.new types.new.entries }
{
    let mut recorder = Recorder {
        inner: &mut *oracle,
        noted: &mut *noted,
    };
    result_if_active(file, java, rule, is_active, &mut recorder, held, types)
}

/// What a rule comes to in a file, with the names that it asks.
fn rule_run<'t, O: Oracle>(
    file: &'t FileView<'t>,
    java: &'t File<'_>,
    rule: &'t Rule,
    is_active: bool,
    oracle: &mut O,
    held: &mut Held,
    types: &mut Typed,
) -> Result<RuleRun, AskFault>
    requires file { IsOfOneFile file.now }
    requires java { java.now ≡ (file_seen file.now).tree }
    requires right { AreRight (file_seen file.now).tree (O.tells oracle.old) held.old types.old.entries }
    ensures asks { (meant : MeantRule) → IsRuleOf file.now.marker.now rule.now meant
        → Asks (if_active is_active file.now.path.now (file_seen file.now) meant) (O.tells oracle.old) (O.tells oracle.new) (seen (λ run. run.rows) result) }
    ensures rests { IfOk result (λ run. (meant : MeantRule) → IsRuleOf file.now.marker.now rule.now meant
        → RestsOn (O.tells oracle.old) (if_active is_active file.now.path.now (file_seen file.now) meant) run.rows run.names) }
    ensures right { AreRight (file_seen file.now).tree (O.tells oracle.new) held.new types.new.entries }
{
    let mut noted = ClassNameSet::new(file.alloc);
    let rows = noted_result(file, java, rule, is_active, oracle, held, types, &mut noted)?;
    let names = noted.names(file.alloc)?;
    Ok(RuleRun { rows, names })
}

/// What the rules of these numbers come to in a file, one after the other, with what is held of the file.
fn runs_with<'t, O: Oracle>(
    file: &'t FileView<'t>,
    java: &'t File<'_>,
    rules: &'t [Rule],
    which: &[u32],
    oracle: &mut O,
    held: &mut Held,
    types: &mut Typed,
) -> Result<RuleRuns, AskFault>
    requires file { IsOfOneFile file.now }
    requires java { java.now ≡ (file_seen file.now).tree }
    requires numbers { All (λ number. number < length rules.now) which.now }
    requires right { AreRight (file_seen file.now).tree (O.tells oracle.old) held.old types.old.entries }
    ensures asks { (meant : List MeantRule) → AllZip (IsRuleOf file.now.marker.now) rules.now meant
        → Asks (each (rule_at java_replies file.now.path.now (Ok (file_seen file.now))) (chosen which.now meant)) (O.tells oracle.old) (O.tells oracle.new) (seen came_to result) }
    ensures rest { IfOk result (λ runs. (meant : List MeantRule) → AllZip (IsRuleOf file.now.marker.now) rules.now meant
        → AllZip (λ rule run. RestsOn (O.tells oracle.old) (rule_at java_replies file.now.path.now (Ok (file_seen file.now)) rule) run.rows run.names) (chosen which.now meant) runs) }
{
    let active = which_are_active(file.alloc, rules, file.path.as_str())?;
    let mut runs = RuleRuns::new(file.alloc);
    for number in which {
        let place = *number as usize;
        let rule = &rules[place];
        let is_active = active.as_slice()[place];
        let of_rule = rule_run(file, java, rule, is_active, oracle, held, types)?;
        runs.push(of_rule)?;
    }
    Ok(runs)
}

/// What the rules of these numbers come to in a file, one after the other. What is found of the file's classes and variables serves all of them.
pub fn rule_runs<'t, O: Oracle>(
    file: &'t FileView<'t>,
    java: &'t File<'_>,
    rules: &'t [Rule],
    which: &[u32],
    oracle: &mut O,
) -> Result<RuleRuns, AskFault>
    requires file { IsOfOneFile file.now }
    requires java { java.now ≡ (file_seen file.now).tree }
    requires numbers { All (λ number. number < length rules.now) which.now }
    ensures asks { (meant : List MeantRule) → AllZip (IsRuleOf file.now.marker.now) rules.now meant
        → Asks (each (rule_at java_replies file.now.path.now (Ok (file_seen file.now))) (chosen which.now meant)) (O.tells oracle.old) (O.tells oracle.new) (seen came_to result) }
    ensures rest { IfOk result (λ runs. (meant : List MeantRule) → AllZip (IsRuleOf file.now.marker.now) rules.now meant
        → AllZip (λ rule run. RestsOn (O.tells oracle.old) (rule_at java_replies file.now.path.now (Ok (file_seen file.now)) rule) run.rows run.names) (chosen which.now meant) runs) }
{
    let mut held = Held::new(file.alloc);
    let mut types = Typed::new(file.alloc);
    runs_with(file, java, rules, which, oracle, &mut held, &mut types)
}
