//! Reading a ruleset with all that its references read.
ghost use Rattle.std.specs.Prelude.{◌≡◌, ◌≢◌, ◌++◌, ◌∷◌, [], Some, ℕ, List, Err, IfOk, IfErr, OnOk};
ghost use Rattle.pj_outside.specs.Files.{Files};
ghost use Rattle.pj_rule_texts.specs.declared.written.Part.{Part};
ghost use Rattle.pj_rule_texts.specs.declared.written.Part.TheVariants as part;
ghost use Rattle.pj_rules.specs.Finding.{IsBefore};
ghost use Rattle.pj_rules.specs.Known.{AreKnown, AreRead};
ghost use Rattle.pj_rules.specs.Counts.{CountsFaults};
ghost use Rattle.pj_rules.specs.Refusals.{IfFault, IfOwn};
ghost use Rattle.pj_rules.specs.Referring.{Leads};
ghost use Rattle.pj_rules.specs.States.{GoesOn, IsDone, IsEnded, IsFaultOf, IsFaultOfTop, IsStack, IsTaking, Opens, Takes, TakesOrOpens};
ghost use Rattle.pj_rule_sets.specs.declared.known.Known.{Known};

use crate::defining::{define, refused};
use crate::fault::{RuleRefused, RuleWhat};
use crate::looking_up::{Found, look_up};
use crate::open_file::{OpenFile, Waiting, with_exclude, with_include};
use crate::progress::Progress;
use crate::referral::{Referral, referral_of};
use crate::taking::{take, take_nothing};
use pj_base::{Copied, ListOf, NoMemory, Text};
use pj_outside::Tree;
use pj_rule_sets::{Known, ReadFiles};
use pj_rule_texts::{Part, WrittenRule, WrittenRuleset};
use pj_xparse::Parser;
use std::alloc::Global;

/// A file that is being read, and those whose references lead to it.
#[derive(Drop)]
pub struct Stack {
    /// The files in which references wait, a top ruleset first, and behind each file the one to which it refers.
    pub below: ListOf<Waiting>,
    /// The file that is being read.
    pub current: OpenFile,
}

/// A file to which a reference leads, and which is to be read first.
#[derive(Drop)]
pub struct Opening {
    /// The reference.
    pub referral: Referral,
    /// The path of the file.
    pub path: Text,
    /// What is written in it.
    pub written: WrittenRuleset,
}

/// What stands behind a turn.
#[derive(Drop)]
pub enum Next {
    /// Reading goes on.
    Goes(Stack),
    /// The top ruleset is read to its end.
    Ends(OpenFile),
}

/// Takes what a reference takes from a file that was opened before.
fn take_known(
    alloc: Global,
    parser: &Parser,
    known: &Known,
    file: &mut OpenFile,
    referral: Referral,
    other: &Text,
) -> Result<(), RuleRefused>
    ensures taken { OnOk result ((files : Files) → AreRead files known.now.read → Leads files file.old.path referral other.now → Takes files file.old (part.Rule referral.rule) file.new) }
    ensures fault { IfErr result (IfOwn (λ fault. (files : Files) → AreRead files known.now.read → IsBefore known.now other.now → Leads files file.old.path referral other.now → IsFaultOf files known.now file.old (part.Rule referral.rule) fault)) }
{
    match known.read.get(other) {
        None => Err(refused(&file.path, RuleWhat::RefCycle(referral.reference))),
        Some(list) => take(
            alloc,
            parser,
            &file.path,
            &mut file.progress,
            referral,
            list.as_slice(),
        ),
    }
}

/// Takes a reference, or gives the file that is to be read first.
fn refer<T: Tree>(
    alloc: Global,
    parser: &Parser,
    tree: &mut T,
    known: &Known,
    file: &mut OpenFile,
    rule: WrittenRule,
    reference: Text,
) -> Result<Option<Opening>, RuleRefused>
    requires { rule.reference ≡ Some reference }
    ensures same_files { T.holds tree.new ≡ T.holds tree.old }
    ensures counts_faults { CountsFaults (T.faults tree.old) (T.faults tree.new) result }
    ensures steady { T.never_fails tree.old → T.never_fails tree.new × (result ≢ Err RuleRefused.Failed) }
    ensures taken { (files : Files) → T.holds tree.old ≡ Some files → AreKnown files known.now → IfOk result (TakesOrOpens files known.now file.old (part.Rule rule) file.new) }
    ensures fault { (files : Files) → T.holds tree.old ≡ Some files → AreKnown files known.now → IfErr result (IfFault (IsFaultOf files known.now file.old (part.Rule rule))) }
{
    let referral = referral_of(alloc, &file.path, rule, reference)?;
    match look_up(alloc, tree, known, &file.path, &referral.target.file)? {
        Found::Nowhere => {
            take_nothing(alloc, &file.path, &mut file.progress, referral)?;
            Ok(None)
        }
        Found::Before(other) => {
            take_known(alloc, parser, known, file, referral, &other)?;
            Ok(None)
        }
        Found::New(path, written) => Ok(Some(Opening {
            referral,
            path,
            written,
        })),
    }
}

/// Takes an element `rule`, or gives the file that is to be read first.
fn take_rule<T: Tree>(
    alloc: Global,
    parser: &Parser,
    tree: &mut T,
    known: &Known,
    file: &mut OpenFile,
    rule: WrittenRule,
) -> Result<Option<Opening>, RuleRefused>
    ensures same_files { T.holds tree.new ≡ T.holds tree.old }
    ensures counts_faults { CountsFaults (T.faults tree.old) (T.faults tree.new) result }
    ensures steady { T.never_fails tree.old → T.never_fails tree.new × (result ≢ Err RuleRefused.Failed) }
    ensures taken { (files : Files) → T.holds tree.old ≡ Some files → AreKnown files known.now → IfOk result (TakesOrOpens files known.now file.old (part.Rule rule) file.new) }
    ensures fault { (files : Files) → T.holds tree.old ≡ Some files → AreKnown files known.now → IfErr result (IfFault (IsFaultOf files known.now file.old (part.Rule rule))) }
{
    let reference = Copied::copied(&rule.reference)?;
    match reference {
        Some(reference) => refer(alloc, parser, tree, known, file, rule, reference),
        None => {
            define(
                alloc,
                parser,
                &file.path,
                &file.rule_set,
                &mut file.progress,
                rule,
            )?;
            Ok(None)
        }
    }
}

/// Takes an `exclude-pattern`.
fn take_exclude(alloc: Global, file: &mut OpenFile, text: Text) -> Result<(), RuleRefused>
    ensures taken { OnOk result ((files : Files) → Takes files file.old (part.ExcludePattern text) file.new) }
    ensures fault { IfErr result (IfOwn (λ fault. (files : Files) (known : Known) → IsFaultOf files known file.old (part.ExcludePattern text) fault)) }
{
    let patterns = file.patterns.take();
    file.patterns = with_exclude(alloc, &file.path, patterns, text)?;
    Ok(())
}

/// Takes an `include-pattern`.
fn take_include(alloc: Global, file: &mut OpenFile, text: Text) -> Result<(), RuleRefused>
    ensures taken { OnOk result ((files : Files) → Takes files file.old (part.IncludePattern text) file.new) }
    ensures fault { IfErr result (IfOwn (λ fault. (files : Files) (known : Known) → IsFaultOf files known file.old (part.IncludePattern text) fault)) }
{
    let patterns = file.patterns.take();
    file.patterns = with_include(alloc, &file.path, patterns, text)?;
    Ok(())
}

/// Takes a part of a file, or gives the file that is to be read first.
fn take_part<T: Tree>(
    alloc: Global,
    parser: &Parser,
    tree: &mut T,
    known: &Known,
    file: &mut OpenFile,
    part: Part,
) -> Result<Option<Opening>, RuleRefused>
    ensures same_files { T.holds tree.new ≡ T.holds tree.old }
    ensures counts_faults { CountsFaults (T.faults tree.old) (T.faults tree.new) result }
    ensures steady { T.never_fails tree.old → T.never_fails tree.new × (result ≢ Err RuleRefused.Failed) }
    ensures taken { (files : Files) → T.holds tree.old ≡ Some files → AreKnown files known.now → IfOk result (TakesOrOpens files known.now file.old part file.new) }
    ensures fault { (files : Files) → T.holds tree.old ≡ Some files → AreKnown files known.now → IfErr result (IfFault (IsFaultOf files known.now file.old part)) }
{
    match part {
        Part::Rule(rule) => take_rule(alloc, parser, tree, known, file, rule),
        Part::ExcludePattern(text) => {
            take_exclude(alloc, file, text)?;
            Ok(None)
        }
        Part::IncludePattern(text) => {
            take_include(alloc, file, text)?;
            Ok(None)
        }
    }
}

/// Goes on with the file that is to be read first.
fn open_file(
    alloc: Global,
    known: &mut Known,
    below: ListOf<Waiting>,
    file: OpenFile,
    opening: Opening,
) -> Result<Stack, NoMemory>
    ensures { IfOk result (λ next. (files : Files) (top : List ℕ) (p : Part) → IsTaking files top known.old below file p → Opens files known.old file p opening → IsStack files top known.new next) }
{
    let Opening {
        referral,
        path,
        written,
    } = opening;
    let mut below = below;
    known.open_paths.put(path.copied()?)?;
    below.push(Waiting { file, referral })?;
    Ok(Stack {
        below,
        current: OpenFile::of(alloc, path, written, None),
    })
}

/// Goes back to the reference that waits for a file that is read to its end.
fn go_back(
    alloc: Global,
    parser: &Parser,
    known: &mut Known,
    below: ListOf<Waiting>,
    waiting: Waiting,
    done: OpenFile,
) -> Result<Stack, RuleRefused>
    ensures next { IfOk result (λ next. (files : Files) (top : List ℕ) → IsDone files top known.old (below ++ waiting ∷ []) done → IsStack files top known.new next) }
    ensures fault { IfErr result (IfOwn (λ fault. (files : Files) (top : List ℕ) → IsDone files top known.old (below ++ waiting ∷ []) done → IsFaultOfTop files top fault)) }
{
    let Waiting { file, referral } = waiting;
    let OpenFile {
        path,
        rule_set: _,
        rest: _,
        progress,
        patterns: _,
    } = done;
    let Progress { names: _, list } = progress;
    let mut file = file;
    let _ = known.open_paths.pop();
    let list = list.into_list(alloc)?;
    let current = &mut file;
    take(
        alloc,
        parser,
        &current.path,
        &mut current.progress,
        referral,
        list.as_slice(),
    )?;
    known.read.put(path, list)?;
    Ok(Stack {
        below,
        current: file,
    })
}

/// Ends the file that is being read.
fn end_file(
    alloc: Global,
    parser: &Parser,
    known: &mut Known,
    below: ListOf<Waiting>,
    file: OpenFile,
) -> Result<Next, RuleRefused>
    ensures next { IfOk result (λ next. (files : Files) (top : List ℕ) → IsDone files top known.old below file → GoesOn files top known.new next) }
    ensures fault { IfErr result (IfOwn (λ fault. (files : Files) (top : List ℕ) → IsDone files top known.old below file → IsFaultOfTop files top fault)) }
{
    let mut below = below;
    match below.pop() {
        None => Ok(Next::Ends(file)),
        Some(waiting) => {
            let next = go_back(alloc, parser, known, below, waiting, file)?;
            Ok(Next::Goes(next))
        }
    }
}

/// Takes the next part of the file that is being read.
fn go_on<T: Tree>(
    alloc: Global,
    parser: &Parser,
    tree: &mut T,
    known: &mut Known,
    below: ListOf<Waiting>,
    file: OpenFile,
    part: Part,
) -> Result<Next, RuleRefused>
    ensures same_files { T.holds tree.new ≡ T.holds tree.old }
    ensures counts_faults { CountsFaults (T.faults tree.old) (T.faults tree.new) result }
    ensures steady { T.never_fails tree.old → T.never_fails tree.new × (result ≢ Err RuleRefused.Failed) }
    ensures next { (files : Files) (top : List ℕ) → T.holds tree.old ≡ Some files → IsTaking files top known.old below file part → IfOk result (GoesOn files top known.new) }
    ensures fault { (files : Files) (top : List ℕ) → T.holds tree.old ≡ Some files → IsTaking files top known.old below file part → IfErr result (IfFault (IsFaultOfTop files top)) }
{
    let mut file = file;
    match take_part(alloc, parser, tree, known, &mut file, part)? {
        None => Ok(Next::Goes(Stack {
            below,
            current: file,
        })),
        Some(opening) => {
            let next = open_file(alloc, known, below, file, opening)?;
            Ok(Next::Goes(next))
        }
    }
}

/// One turn: takes the next part of the file that is being read, or ends this file.
fn turn<T: Tree>(
    alloc: Global,
    parser: &Parser,
    tree: &mut T,
    known: &mut Known,
    stack: Stack,
) -> Result<Next, RuleRefused>
    ensures same_files { T.holds tree.new ≡ T.holds tree.old }
    ensures counts_faults { CountsFaults (T.faults tree.old) (T.faults tree.new) result }
    ensures steady { T.never_fails tree.old → T.never_fails tree.new × (result ≢ Err RuleRefused.Failed) }
    ensures next { (files : Files) (top : List ℕ) → T.holds tree.old ≡ Some files → IsStack files top known.old stack → IfOk result (GoesOn files top known.new) }
    ensures fault { (files : Files) (top : List ℕ) → T.holds tree.old ≡ Some files → IsStack files top known.old stack → IfErr result (IfFault (IsFaultOfTop files top)) }
{
    let Stack { below, current } = stack;
    let mut current = current;
    match current.rest.next() {
        Some(part) => go_on(alloc, parser, tree, known, below, current, part),
        None => end_file(alloc, parser, known, below, current),
    }
}

/// The top ruleset of a stack, read to its end with all that its references read. Each turn takes a part or ends a file.
pub fn read_to_end<T: Tree>(
    alloc: Global,
    parser: &Parser,
    tree: &mut T,
    known: &mut Known,
    stack: Stack,
) -> Result<OpenFile, RuleRefused>
    ensures same_files { T.holds tree.new ≡ T.holds tree.old }
    ensures counts_faults { CountsFaults (T.faults tree.old) (T.faults tree.new) result }
    ensures steady { T.never_fails tree.old → T.never_fails tree.new × (result ≢ Err RuleRefused.Failed) }
    ensures ended { (files : Files) (top : List ℕ) → T.holds tree.old ≡ Some files → IsStack files top known.old stack → IfOk result (λ file. AreRead files known.new.read × IsEnded files top file) }
    ensures fault { (files : Files) (top : List ℕ) → T.holds tree.old ≡ Some files → IsStack files top known.old stack → IfErr result (IfFault (IsFaultOfTop files top)) }
{
    let mut stack = stack;
    for _ in 0..u64::MAX {
        match turn(alloc, parser, tree, known, stack)? {
            Next::Goes(next) => stack = next,
            Next::Ends(file) => return Ok(file),
        }
    }
    Err(RuleRefused::Memory)
}
