//! Taking rules of other files.
ghost use Rattle.std.specs.Prelude.{◌≡◌, IfOk, IfErr, OnOk};
ghost use Rattle.pj_rules.specs.Referring.{AddsNothing, AddsTaken, CannotChangeEntry, ChangesEntry, IsNothingFault, IsTakenFault, name_behind};
ghost use Rattle.pj_rules.specs.Refusals.{IfOwn};

use crate::defining::{changed_rule, refused};
use crate::fault::{RuleRefused, RuleWhat};
use crate::progress::Progress;
use crate::referral::{Referral, Target};
use pj_base::{Copied, Text};
use pj_rule_sets::{Entry, Origin, named, not_available, put_without};
use pj_rule_texts::{WrittenRule, is_from_elsewhere};
use pj_xparse::Parser;
use std::alloc::Global;

/// The rule that a reference takes, with what the reference changes.
fn taken_entry(
    alloc: Global,
    parser: &Parser,
    path: &Text,
    rule: WrittenRule,
    old: &Entry,
) -> Result<Entry, RuleRefused>
    ensures entry { IfOk result (ChangesEntry rule old.now) }
    ensures fault { IfErr result (IfOwn (CannotChangeEntry path.now rule old.now)) }
{
    match old {
        Entry::Rule(old) => {
            let changed = changed_rule(alloc, parser, path, old, rule)?;
            Ok(Entry::Rule(changed))
        }
        Entry::Unusable(unusable) => {
            let copy = unusable.copied()?;
            Ok(Entry::Unusable(copy))
        }
    }
}

/// Takes the rule of a name from the list of another file.
fn take_one(
    alloc: Global,
    parser: &Parser,
    path: &Text,
    progress: &mut Progress,
    referral: Referral,
    name: Text,
    list: &[(Origin, Entry)],
) -> Result<(), RuleRefused>
    requires { referral.target.name ≡ Some name }
    ensures adds { OnOk result (AddsTaken path.now progress.old referral list.now progress.new) }
    ensures fault { IfErr result (IfOwn (IsTakenFault path.now progress.old referral list.now)) }
{
    match named(name.as_str(), list) {
        None => Err(refused(path, RuleWhat::MissingRef(referral.reference))),
        Some(old) => {
            let origin = old.0.copied()?;
            let entry = taken_entry(alloc, parser, path, referral.rule, &old.1)?;
            progress.list.put(origin, entry)?;
            Ok(())
        }
    }
}

/// Takes what a reference takes from the list of the file to which it leads: all rules but those that are excluded, or the one of a name.
pub fn take(
    alloc: Global,
    parser: &Parser,
    path: &Text,
    progress: &mut Progress,
    referral: Referral,
    list: &[(Origin, Entry)],
) -> Result<(), RuleRefused>
    ensures adds { OnOk result (AddsTaken path.now progress.old referral list.now progress.new) }
    ensures fault { IfErr result (IfOwn (IsTakenFault path.now progress.old referral list.now)) }
{
    let name = Copied::copied(&referral.target.name)?;
    match name {
        Some(name) => take_one(alloc, parser, path, progress, referral, name, list),
        None => {
            put_without(referral.rule.excludes.as_slice(), list, &mut progress.list)?;
            Ok(())
        }
    }
}

/// The name of a rule that is not available: the reference's own, or that in the file. A whole file has none.
fn name_behind(own: Option<Text>, name: Option<Text>) -> Option<Text>
    ensures { result ≡ name_behind own name }
{
    match name {
        None => None,
        Some(name) => Some(own.unwrap_or(name)),
    }
}

/// Takes what stands for a reference to a file that is nowhere.
pub fn take_nothing(
    alloc: Global,
    path: &Text,
    progress: &mut Progress,
    referral: Referral,
) -> Result<(), RuleRefused>
    ensures adds { OnOk result (AddsNothing path.now progress.old referral progress.new) }
    ensures fault { IfErr result (IfOwn (IsNothingFault path.now progress.old referral)) }
{
    let Referral {
        rule,
        reference,
        target,
    } = referral;
    let Target { file, name } = target;
    if !is_from_elsewhere(file.as_str()) {
        return Err(refused(path, RuleWhat::MissingRef(reference)));
    }
    let origin = Origin {
        is_reference: true,
        path: path.copied()?,
        text: reference.copied()?,
    };
    let entry = not_available(alloc, name_behind(rule.name, name), reference)?;
    progress.list.put(origin, entry)?;
    Ok(())
}
