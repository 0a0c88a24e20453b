//! Looking files up.
ghost use Rattle.std.specs.Prelude.{◌≡◌, ◌≢◌, Some, Err, IfOk, IfErr};
ghost use Rattle.pj_outside.specs.Files.{Files};
ghost use Rattle.pj_rule_texts.specs.Files.{GivesRead};
ghost use Rattle.pj_rules.specs.Effective.{what_of_file};
ghost use Rattle.pj_rules.specs.Finding.{IsFaultAt, IsFound, IsFoundAt, IsFoundFault, IsNewFault};
ghost use Rattle.pj_rules.specs.Known.{AreKnown};
ghost use Rattle.pj_rules.specs.Counts.{CountsFaults};
ghost use Rattle.pj_rules.specs.Refusals.{IfFault, refused_file};

use crate::fault::{RuleFault, RuleRefused, RuleWhat};
use pj_base::{Copied, Text};
use pj_outside::Tree;
use pj_rule_sets::Known;
use pj_rule_texts::{FileFault, FileRefused, WrittenRuleset, beside, read_ruleset};
use std::alloc::Global;

/// What is found under a path.
#[derive(Drop)]
pub enum Found {
    /// Nothing is there.
    Nowhere,
    /// A file that was opened before.
    Before(Text),
    /// A file that is read for the first time.
    New(Text, WrittenRuleset),
}

/// The fault of a file.
fn what_of_file(fault: FileFault) -> RuleWhat
    ensures { result ≡ what_of_file fault }
{
    match fault {
        FileFault::Markup(offset) => RuleWhat::Markup(offset),
        FileFault::TooLong => RuleWhat::TooLong,
    }
}

/// The refusal of a file that is not read.
fn refused_file(path: Text, refused: FileRefused) -> RuleRefused
    ensures { result ≡ refused_file path refused }
{
    match refused {
        FileRefused::Fault(fault) => RuleRefused::Rule(RuleFault {
            path,
            what: what_of_file(fault),
        }),
        FileRefused::Failed => RuleRefused::Failed,
        FileRefused::Memory => RuleRefused::Memory,
    }
}

/// What is written in the file of a path; `None` exactly where nothing is there.
pub fn written_at<T: Tree>(
    alloc: Global,
    tree: &mut T,
    path: &Text,
) -> Result<Option<WrittenRuleset>, RuleRefused>
    ensures same_files { T.holds tree.new ≡ T.holds tree.old }
    ensures counts_faults { CountsFaults (T.faults tree.old) (T.faults tree.new) result }
    ensures steady { T.never_fails tree.old → T.never_fails tree.new × (result ≢ Err RuleRefused.Failed) }
    ensures written { (files : Files) → T.holds tree.old ≡ Some files → IfOk result (GivesRead files path.now) }
    ensures fault { (files : Files) → T.holds tree.old ≡ Some files → IfErr result (IfFault (IsFaultAt files path.now)) }
{
    let path_of_fault = path.copied()?;
    match read_ruleset(alloc, tree, path.as_str()) {
        Ok(written) => Ok(written),
        Err(refused) => Err(refused_file(path_of_fault, refused)),
    }
}

/// What is found under a path.
fn found_at<T: Tree>(
    alloc: Global,
    tree: &mut T,
    known: &Known,
    path: Text,
) -> Result<Found, RuleRefused>
    ensures same_files { T.holds tree.new ≡ T.holds tree.old }
    ensures counts_faults { CountsFaults (T.faults tree.old) (T.faults tree.new) result }
    ensures steady { T.never_fails tree.old → T.never_fails tree.new × (result ≢ Err RuleRefused.Failed) }
    ensures found { (files : Files) → T.holds tree.old ≡ Some files → AreKnown files known.now → IfOk result (IsFoundAt files known.now path) }
    ensures fault { (files : Files) → T.holds tree.old ≡ Some files → IfErr result (IfFault (IsNewFault files known.now path)) }
{
    if known.read.get(&path).is_some() {
        return Ok(Found::Before(path));
    }
    if known.open_paths.has(&path) {
        return Ok(Found::Before(path));
    }
    match written_at(alloc, tree, &path)? {
        Some(written) => Ok(Found::New(path, written)),
        None => Ok(Found::Nowhere),
    }
}

/// The file of a reference in another file: as written, or else in the folder of that file.
pub fn look_up<T: Tree>(
    alloc: Global,
    tree: &mut T,
    known: &Known,
    from: &Text,
    file: &Text,
) -> Result<Found, RuleRefused>
    ensures same_files { T.holds tree.new ≡ T.holds tree.old }
    ensures counts_faults { CountsFaults (T.faults tree.old) (T.faults tree.new) result }
    ensures steady { T.never_fails tree.old → T.never_fails tree.new × (result ≢ Err RuleRefused.Failed) }
    ensures found { (files : Files) → T.holds tree.old ≡ Some files → AreKnown files known.now → IfOk result (IsFound files known.now from.now file.now) }
    ensures fault { (files : Files) → T.holds tree.old ≡ Some files → AreKnown files known.now → IfErr result (IfFault (IsFoundFault files known.now from.now file.now)) }
{
    if file.is_empty() {
        return Ok(Found::Nowhere);
    }
    let path = file.copied()?;
    match found_at(alloc, tree, known, path)? {
        Found::Before(path) => Ok(Found::Before(path)),
        Found::New(path, written) => Ok(Found::New(path, written)),
        Found::Nowhere => {
            let path = beside(alloc, from.as_str(), file.as_str())?;
            found_at(alloc, tree, known, path)
        }
    }
}
