//! Top rulesets.
ghost use Rattle.std.specs.Prelude.{◌≡◌, ◌≢◌, Some, map, false, Err, IfOk, IfErr};
ghost use Rattle.pj_outside.specs.Files.{Files};
ghost use Rattle.pj_rule_texts.specs.Files.{IsRead, is_there};
ghost use Rattle.pj_rule_texts.specs.Values.{Text};
ghost use Rattle.pj_rules.specs.Known.{AreRead};
ghost use Rattle.pj_rules.specs.Load.{AreTops, IsFirstFault, IsTop, IsTopFault};
ghost use Rattle.pj_rules.specs.Counts.{CountsFaults};
ghost use Rattle.pj_rules.specs.Refusals.{IfFault, IfOwn};
ghost use Rattle.pj_rules.specs.States.{IsEnded, IsStack, top_rules};

use crate::defining::refused;
use crate::fault::{RuleRefused, RuleWhat};
use crate::looking_up::written_at;
use crate::open_file::OpenFile;
use crate::progress::Progress;
use crate::reading::{Stack, read_to_end};
use pj_base::{Copied, ListOf, Names, NoMemory, Text};
use pj_outside::Tree;
use pj_rule_sets::{Known, Origin, PathPatterns, RuleList, not_available};
use pj_rule_texts::{WrittenRuleset, is_from_elsewhere};
use pj_xparse::Parser;
use std::alloc::Global;

/// A top ruleset: its rules and what stands for them, and its path patterns.
#[derive(Drop)]
pub struct Top {
    /// Its list.
    pub list: RuleList,
    /// Its path patterns.
    pub patterns: PathPatterns,
}

/// Begins with a top ruleset.
fn begin(
    alloc: Global,
    known: &mut Known,
    path: &Text,
    written: WrittenRuleset,
) -> Result<Stack, NoMemory>
    ensures { IfOk result (λ stack. (files : Files) → AreRead files known.old.read → IsRead files path.now written → IsStack files path.now known.new stack) }
{
    known.begin(alloc, path)?;
    let current = OpenFile::of(
        alloc,
        path.copied()?,
        written,
        Some(PathPatterns::new(alloc)),
    );
    Ok(Stack {
        below: ListOf::new(alloc),
        current,
    })
}

/// What a top ruleset is that is read to its end.
fn top_of(alloc: Global, file: OpenFile) -> Result<Top, NoMemory>
    ensures { IfOk result (λ top. (files : Files) (path : Text) → IsEnded files path file → IsTop files path (top_rules top)) }
{
    let OpenFile {
        path: _,
        rule_set: _,
        rest: _,
        progress,
        patterns,
    } = file;
    let Progress { names: _, list } = progress;
    let list = list.into_list(alloc)?;
    match patterns {
        Some(patterns) => Ok(Top { list, patterns }),
        None => Ok(Top {
            list,
            patterns: PathPatterns::new(alloc),
        }),
    }
}

/// What stands for a path that is named and not there.
fn absent_top(alloc: Global, path: &Text) -> Result<Top, RuleRefused>
    ensures top { IfOk result (λ top. (files : Files) → is_there files path.now ≡ false → IsTop files path.now (top_rules top)) }
    ensures fault { IfErr result (IfOwn (λ fault. (files : Files) → is_there files path.now ≡ false → IsTopFault files path.now fault)) }
{
    let reference = path.copied()?;
    if !is_from_elsewhere(path.as_str()) {
        return Err(refused(path, RuleWhat::MissingRef(reference)));
    }
    let origin = Origin {
        is_reference: true,
        path: path.copied()?,
        text: path.copied()?,
    };
    let entry = not_available(alloc, None, reference)?;
    let mut list = ListOf::new(alloc);
    list.push((origin, entry))?;
    Ok(Top {
        list,
        patterns: PathPatterns::new(alloc),
    })
}

/// The top ruleset in which this is written.
fn read_written<T: Tree>(
    alloc: Global,
    parser: &Parser,
    tree: &mut T,
    known: &mut Known,
    path: &Text,
    written: WrittenRuleset,
) -> Result<Top, RuleRefused>
    ensures same_files { T.holds tree.new ≡ T.holds tree.old }
    ensures counts_faults { CountsFaults (T.faults tree.old) (T.faults tree.new) result }
    ensures steady { T.never_fails tree.old → T.never_fails tree.new × (result ≢ Err RuleRefused.Failed) }
    ensures top { (files : Files) → T.holds tree.old ≡ Some files → AreRead files known.old.read → IsRead files path.now written → IfOk result (λ top. AreRead files known.new.read × IsTop files path.now (top_rules top)) }
    ensures fault { (files : Files) → T.holds tree.old ≡ Some files → AreRead files known.old.read → IsRead files path.now written → IfErr result (IfFault (IsTopFault files path.now)) }
{
    let stack = begin(alloc, known, path, written)?;
    let file = read_to_end(alloc, parser, tree, known, stack)?;
    let top = top_of(alloc, file)?;
    Ok(top)
}

/// What stands for a path that is named.
fn read_top<T: Tree>(
    alloc: Global,
    parser: &Parser,
    tree: &mut T,
    known: &mut Known,
    path: &Text,
) -> Result<Top, RuleRefused>
    ensures same_files { T.holds tree.new ≡ T.holds tree.old }
    ensures counts_faults { CountsFaults (T.faults tree.old) (T.faults tree.new) result }
    ensures steady { T.never_fails tree.old → T.never_fails tree.new × (result ≢ Err RuleRefused.Failed) }
    ensures top { (files : Files) → T.holds tree.old ≡ Some files → AreRead files known.old.read → IfOk result (λ top. AreRead files known.new.read × IsTop files path.now (top_rules top)) }
    ensures fault { (files : Files) → T.holds tree.old ≡ Some files → AreRead files known.old.read → IfErr result (IfFault (IsTopFault files path.now)) }
{
    match written_at(alloc, tree, path)? {
        Some(written) => read_written(alloc, parser, tree, known, path, written),
        None => absent_top(alloc, path),
    }
}

/// What stands for the paths that are named, each read to its end before the next one. One parser serves all their expressions.
pub fn read_tops<T: Tree>(
    alloc: Global,
    tree: &mut T,
    paths: &Names,
) -> Result<ListOf<Top>, RuleRefused>
    ensures same_files { T.holds tree.new ≡ T.holds tree.old }
    ensures counts_faults { CountsFaults (T.faults tree.old) (T.faults tree.new) result }
    ensures steady { T.never_fails tree.old → T.never_fails tree.new × (result ≢ Err RuleRefused.Failed) }
    ensures tops { (files : Files) → T.holds tree.old ≡ Some files → IfOk result (λ tops. AreTops files paths.now (map top_rules tops)) }
    ensures fault { (files : Files) → T.holds tree.old ≡ Some files → IfErr result (IfFault (IsFirstFault files paths.now)) }
{
    let parser = Parser::new(alloc)?;
    let mut known = Known::new(alloc);
    let mut tops = ListOf::new(alloc);
    for path in paths.as_slice() {
        let top = read_top(alloc, &parser, tree, &mut known, path)?;
        tops.push(top)?;
    }
    Ok(tops)
}
