//! The analysis of a file, and of files one after the other.
ghost use Rattle.std.specs.Prelude.{◌≡◌, ◌<◌, ◌++◌, ◌∷◌, [], List, IfOk, OnOk, OnErr, length, map};
ghost use Rattle.std.specs.List.{All, AllZip};
ghost use Rattle.pj_grammar.specs.Java17.{java_17_forms};
ghost use Rattle.pj_names.specs.Asking.{each};
ghost use Rattle.pj_names.specs.Told.{Asks, seen};
ghost use Rattle.pj_parse.specs.FileOutcome.{outcome_of};
ghost use Rattle.pj_peg_grammar.specs.Form.{forms_of};
ghost use Rattle.pj_workers.specs.Chosen.{chosen, chosen_meaning};
ghost use Rattle.pj_workers.specs.Evaluated.{evaluated, evaluated_on, with_path};
ghost use Rattle.pj_workers.specs.FileMeaning.{file_meaning, head_of, rule_meaning};
ghost use Rattle.pj_workers.specs.JavaReplies.{java_replies};
ghost use Rattle.pj_workers.specs.Results.{IsResultAt, IsResultOf, RestsOn, came_to, rules_in};
ghost use Rattle.pj_workers.specs.Rules.{AreRulesOf, Rule as MeantRule};

use crate::evaluated::{evaluated_on, put_evaluated};
use crate::file::bytes_runs;
use crate::laws::sets_have_rules;
use crate::names::result_of;
use crate::numbers::all_numbers;
use crate::result::{FileResult, FileRuns, PathResults};
use crate::work::{Ran, Work, note_file, note_files};
use pj_base::{Bytes, Copied, Names, NoMemory, Numbers, Text};
use pj_grammar::java_17;
use pj_names::{AskFault, Oracle};
use pj_peg::WellFormed;
use pj_rule_sets::RuleSet;
use std::alloc::Global;

/// The head of a file of this path and these bytes, and what the rules of these numbers, from 0, come to in it, by a grammar that is made once for
/// many files. The runs stand in the order of the numbers, each with the names that its rule alone asks. A rule that is not active comes to no node and asks
/// nothing; a file without a tree has the message of its error as head, and no runs, and asks nothing. Memory is wanted for a file of more than
/// 4,294,967,294 bytes, too. That the file was analysed is noted by the caller.
///
/// The conditions are that the grammar is that of Java 17, and that there are rules of these numbers.
pub fn analyse_rules<O: Oracle>(
    alloc: Global,
    grammar: &WellFormed,
    oracle: &mut O,
    path: &Text,
    bytes: &Bytes,
    rules: &RuleSet,
    which: &Numbers,
) -> Result<FileRuns, AskFault>
    requires grammar { forms_of grammar.now ≡ java_17_forms }
    requires numbers { All (λ number. number < length rules.now.rules) which.now }
    // The runs are what the rules of these numbers mean at the file, by the rules that the texts of the set spell, and just their names are asked.
    ensures asks { (meant : List MeantRule) → AreRulesOf rules.now meant
        → Asks (chosen_meaning java_replies path.now bytes.now which.now meant) (O.tells oracle.old) (O.tells oracle.new) (seen (λ found. came_to found.runs) result) }
    ensures head { IfOk result (λ found. found.head ≡ head_of (outcome_of bytes.now)) }
    // The names of each rule are those on which its rows rest.
    ensures found { IfOk result (λ found. (meant : List MeantRule) → AreRulesOf rules.now meant
        → AllZip (λ rule run. RestsOn (O.tells oracle.old) (rule_meaning java_replies path.now bytes.now rule) run.rows run.names) (rules_in (outcome_of bytes.now) (chosen which.now meant)) found.runs) }
{
    bytes_runs(alloc, grammar, path, bytes, rules, which.as_slice(), oracle)
}

/// What the rules of a set find in a file, by a grammar that is made once for many files.
fn analyse_by<O: Oracle>(
    alloc: Global,
    grammar: &WellFormed,
    oracle: &mut O,
    path: &Text,
    bytes: &Bytes,
    rules: &RuleSet,
) -> Result<FileResult, AskFault>
    requires grammar { forms_of grammar.now ≡ java_17_forms }
    ensures asks { (meant : List MeantRule) → AreRulesOf rules.now meant
        → Asks (file_meaning java_replies path.now bytes.now meant) (O.tells oracle.old) (O.tells oracle.new) (seen (λ found. found.rows) result) }
    ensures found { IfOk result (λ found. (meant : List MeantRule) → AreRulesOf rules.now meant → IsResultOf (O.tells oracle.old) java_replies path.now bytes.now meant found) }
{
    let which = all_numbers(alloc, rules.rules().len())?;
    let runs = bytes_runs(alloc, grammar, path, bytes, rules, which.as_slice(), oracle)?;
    Ok(result_of(alloc, runs)?)
}

/// What the rules of a set find in a file of this path and these bytes. The path is put behind those that were analysed, and behind the rules that were evaluated
/// each one that is active for the path, if the file has a tree. Memory is wanted for a file of more than 4,294,967,294 bytes, too. After a refusal `work` is as it was.
///
/// The classes of the file answer by their declarations. Each of them, and each type of a variable, is found once for all rules, and yet each rule asks the names of
/// its own.
pub fn analyse_file<O: Oracle>(
    alloc: Global,
    oracle: &mut O,
    path: &Text,
    bytes: &Bytes,
    rules: &RuleSet,
    work: &mut Work,
) -> Result<FileResult, AskFault>
    // The rows are the meaning of the file, by the rules that the texts of the set spell, and just its names are asked.
    ensures asks { (meant : List MeantRule) → AreRulesOf rules.now meant
        → Asks (file_meaning java_replies path.now bytes.now meant) (O.tells oracle.old) (O.tells oracle.new) (seen (λ found. found.rows) result) }
    // The names of the file and of each rule are those on which its rows and the rule's rest.
    ensures found { IfOk result (λ found. (meant : List MeantRule) → AreRulesOf rules.now meant → IsResultOf (O.tells oracle.old) java_replies path.now bytes.now meant found) }
    ensures analysed { OnOk result (work.new.analysed ≡ work.old.analysed ++ path.now ∷ []) }
    ensures ran { OnOk result (work.new.ran ≡ work.old.ran ++ with_path path.now (evaluated rules.now path.now (outcome_of bytes.now))) }
    ensures reused { work.new.reused ≡ work.old.reused }
    ensures skipped { work.new.skipped ≡ work.old.skipped }
    ensures err { OnErr result (work.new ≡ work.old) }
{
    sets_have_rules(rules);
    let grammar = java_17(alloc)?;
    let found = analyse_by(alloc, &grammar, oracle, path, bytes, rules)?;
    let mut ran = Ran::new(alloc);
    put_evaluated(alloc, &mut ran, rules, path, found.runs.as_slice())?;
    note_file(work, path.copied()?, ran)?;
    Ok(found)
}

/// The same of a file, with its path.
fn analyse_next<O: Oracle>(
    alloc: Global,
    grammar: &WellFormed,
    oracle: &mut O,
    file: &(Text, Bytes),
    rules: &RuleSet,
) -> Result<(Text, FileResult), AskFault>
    requires grammar { forms_of grammar.now ≡ java_17_forms }
    ensures asks { (meant : List MeantRule) → AreRulesOf rules.now meant
        → Asks (file_meaning java_replies file.now.0 file.now.1 meant) (O.tells oracle.old) (O.tells oracle.new) (seen (λ found. found.1.rows) result) }
    ensures found { IfOk result (λ found. (meant : List MeantRule) → AreRulesOf rules.now meant → IsResultAt (O.tells oracle.old) java_replies meant file.now found) }
{
    let found = analyse_by(alloc, grammar, oracle, &file.0, &file.1, rules)?;
    let path = file.0.copied()?;
    Ok((path, found))
}

/// The same of files, one after the other, in their order: one tree is held at a time.
fn analyse_each<O: Oracle>(
    alloc: Global,
    oracle: &mut O,
    files: &[(Text, Bytes)],
    rules: &RuleSet,
) -> Result<PathResults, AskFault>
    ensures asks { (meant : List MeantRule) → AreRulesOf rules.now meant
        → Asks (each (λ file. file_meaning java_replies file.0 file.1 meant) files.now) (O.tells oracle.old) (O.tells oracle.new) (seen (λ found. map (λ of_file. of_file.1.rows) found) result) }
    ensures found { IfOk result (λ found. (meant : List MeantRule) → AreRulesOf rules.now meant → AllZip (IsResultAt (O.tells oracle.old) java_replies meant) files.now found) }
{
    let grammar = java_17(alloc)?;
    let mut found = PathResults::new(alloc);
    for file in files {
        let of_file = analyse_next(alloc, &grammar, oracle, file, rules)?;
        found.push(of_file)?;
    }
    Ok(found)
}

/// The paths of files, in their order.
fn paths_of(alloc: Global, files: &[(Text, Bytes)]) -> Result<Names, NoMemory>
    ensures { IfOk result (λ paths. paths ≡ map (λ file. file.0) files.now) }
{
    let mut paths = Names::new(alloc);
    for file in files {
        paths.push(file.0.copied()?)?;
    }
    Ok(paths)
}

/// What the rules of a set find in files, one after the other, in their order: one tree is held at a time. Their paths are put behind
/// those that were analysed, and the rules that are active on each file with a tree behind those that were evaluated. After a refusal `work` is as it was.
pub fn analyse_files<O: Oracle>(
    alloc: Global,
    oracle: &mut O,
    files: &[(Text, Bytes)],
    rules: &RuleSet,
    work: &mut Work,
) -> Result<PathResults, AskFault>
    ensures asks { (meant : List MeantRule) → AreRulesOf rules.now meant
        → Asks (each (λ file. file_meaning java_replies file.0 file.1 meant) files.now) (O.tells oracle.old) (O.tells oracle.new) (seen (λ found. map (λ of_file. of_file.1.rows) found) result) }
    ensures found { IfOk result (λ found. (meant : List MeantRule) → AreRulesOf rules.now meant → AllZip (IsResultAt (O.tells oracle.old) java_replies meant) files.now found) }
    ensures analysed { OnOk result (work.new.analysed ≡ work.old.analysed ++ map (λ file. file.0) files.now) }
    ensures ran { OnOk result (work.new.ran ≡ work.old.ran ++ evaluated_on rules.now files.now) }
    ensures reused { work.new.reused ≡ work.old.reused }
    ensures skipped { work.new.skipped ≡ work.old.skipped }
    ensures err { OnErr result (work.new ≡ work.old) }
{
    sets_have_rules(rules);
    let found = analyse_each(alloc, oracle, files, rules)?;
    let paths = paths_of(alloc, files)?;
    let ran = evaluated_on(alloc, rules, found.as_slice())?;
    note_files(work, paths, ran)?;
    Ok(found)
}
