//! Rules that a file defines.
ghost use Rattle.std.specs.Prelude.{◌≡◌, None, Some, IfOk, IfErr, OnOk, ℕ, List, Bool};
ghost use Rattle.pj_outside.specs.Files.{Files};
ghost use Rattle.pj_rule_sets.specs.Expressions.{IsSound};
ghost use Rattle.pj_rule_texts.specs.Rules.{new_name};
ghost use Rattle.pj_rules.specs.Defining.{HasNoEntry, IsDefinedAs, IsDefinitionFault};
ghost use Rattle.pj_rules.specs.Effective.{Adds, CannotChange, CannotDefine, Changes, Defines, PartFault, what_of_expressions, what_of_texts};
ghost use Rattle.pj_rules.specs.Refusals.{IfOwn, IsUnsound};
ghost use Rattle.pj_rule_texts.specs.declared.written.Part.TheVariants as part;

use crate::fault::{RuleFault, RuleRefused, RuleWhat};
use crate::progress::Progress;
use pj_base::{Copied, NoMemory, Text};
use pj_rule_sets::{Entry, ExpressionFault, Origin, UsableRule, not_an_xpath_rule};
use pj_rule_texts::{RuleTexts, TextFault, WrittenRule, defined, is_xpath_rule, overridden};
use pj_xparse::Parser;
use std::alloc::Global;

/// The refusal of a file with this fault.
pub fn refused(path: &Text, what: RuleWhat) -> RuleRefused
    ensures { IfOwn (λ fault. (fault.path ≡ path.now) × (fault.what ≡ what)) result }
{
    match path.copied() {
        Ok(path) => RuleRefused::Rule(RuleFault { path, what }),
        Err(NoMemory) => RuleRefused::Memory,
    }
}

/// The refusal of a rule's texts.
fn refused_texts(path: &Text, name: Text, fault: TextFault) -> RuleRefused
    ensures { IfOwn (λ refusal. (refusal.path ≡ path.now) × (what_of_texts name fault ≡ Some refusal.what)) result }
{
    match fault {
        TextFault::BadPriority => refused(path, RuleWhat::BadPriority(name)),
        TextFault::BadProperty => refused(path, RuleWhat::BadProperty(name)),
        TextFault::NoXPath => refused(path, RuleWhat::NoXPath(name)),
        TextFault::Memory => RuleRefused::Memory,
    }
}

/// The refusal of a rule's expressions.
fn refused_expressions(path: &Text, name: Text, fault: ExpressionFault) -> RuleRefused
    ensures { IfOwn (λ refusal. (refusal.path ≡ path.now) × (what_of_expressions name fault ≡ Some refusal.what)) result }
{
    match fault {
        ExpressionFault::XPath(fault) => refused(path, RuleWhat::XPath(name, fault)),
        ExpressionFault::Pattern => refused(path, RuleWhat::PatternRefused(name)),
        ExpressionFault::Memory => RuleRefused::Memory,
    }
}

/// The rule of these texts, or its refusal where they make no rule that can be used.
fn usable(
    alloc: Global,
    parser: &Parser,
    path: &Text,
    texts: RuleTexts,
) -> Result<UsableRule, RuleRefused>
    ensures value { IfOk result (λ rule. rule ≡ texts) }
    ensures sound { OnOk result (IsSound texts) }
    ensures fault { IfErr result (IfOwn (λ refusal. (refusal.path ≡ path.now) × IsUnsound texts refusal.what)) }
{
    let name = texts.row.name.copied()?;
    match UsableRule::of(alloc, parser, texts) {
        Ok(rule) => Ok(rule),
        Err(fault) => Err(refused_expressions(path, name, fault)),
    }
}

/// The rule of these texts in the place of another, or its refusal where they make no rule that can be used.
fn usable_after(
    alloc: Global,
    parser: &Parser,
    path: &Text,
    old: &UsableRule,
    texts: RuleTexts,
) -> Result<UsableRule, RuleRefused>
    ensures value { IfOk result (λ rule. rule ≡ texts) }
    ensures sound { OnOk result (IsSound texts) }
    ensures fault { IfErr result (IfOwn (λ refusal. (refusal.path ≡ path.now) × IsUnsound texts refusal.what)) }
{
    let name = texts.row.name.copied()?;
    match old.changed(alloc, parser, texts) {
        Ok(rule) => Ok(rule),
        Err(fault) => Err(refused_expressions(path, name, fault)),
    }
}

/// The rule of a name that an element defines.
fn defined_rule(
    alloc: Global,
    parser: &Parser,
    path: &Text,
    rule_set: &Text,
    name: &Text,
    rule: WrittenRule,
) -> Result<UsableRule, RuleRefused>
    ensures rule { IfOk result (Defines rule_set.now name.now rule) }
    ensures fault { IfErr result (IfOwn (λ refusal. (refusal.path ≡ path.now) × CannotDefine rule_set.now name.now rule refusal.what)) }
{
    match defined(alloc, rule_set.copied()?, name.copied()?, rule) {
        Ok(texts) => usable(alloc, parser, path, texts),
        Err(fault) => Err(refused_texts(path, name.copied()?, fault)),
    }
}

/// The name of a rule that a reference changes: the reference's own, or that of the rule.
fn new_name(texts: &RuleTexts, rule: &WrittenRule) -> Result<Text, NoMemory>
    ensures { IfOk result (λ name. name ≡ new_name texts.now rule.now) }
{
    match &rule.name {
        Some(name) => name.copied(),
        None => texts.row.name.copied(),
    }
}

/// The rule that a reference changes.
pub fn changed_rule(
    alloc: Global,
    parser: &Parser,
    path: &Text,
    old: &UsableRule,
    rule: WrittenRule,
) -> Result<UsableRule, RuleRefused>
    ensures rule { IfOk result (Changes rule old.now) }
    ensures fault { IfErr result (IfOwn (λ refusal. (refusal.path ≡ path.now) × CannotChange rule old.now refusal.what)) }
{
    let texts = old.texts();
    let name = new_name(texts, &rule)?;
    match overridden(alloc, texts, rule) {
        Ok(changed) => usable_after(alloc, parser, path, old, changed),
        Err(fault) => Err(refused_texts(path, name, fault)),
    }
}

/// What stands for the rule of a name that an element defines.
fn defined_entry(
    alloc: Global,
    parser: &Parser,
    path: &Text,
    rule_set: &Text,
    name: &Text,
    rule: WrittenRule,
) -> Result<Entry, RuleRefused>
    ensures entry { IfOk result (IsDefinedAs rule_set.now name.now rule) }
    ensures fault { IfErr result (IfOwn (λ refusal. (refusal.path ≡ path.now) × HasNoEntry rule_set.now name.now rule refusal.what)) }
{
    if is_xpath_rule(&rule) {
        let rule = defined_rule(alloc, parser, path, rule_set, name, rule)?;
        Ok(Entry::Rule(rule))
    } else {
        let entry = not_an_xpath_rule(alloc, name)?;
        Ok(entry)
    }
}

/// Takes a rule of a name that the file of a path and a ruleset defines.
fn define_named(
    alloc: Global,
    parser: &Parser,
    path: &Text,
    rule_set: &Text,
    progress: &mut Progress,
    name: Text,
    rule: WrittenRule,
) -> Result<(), RuleRefused>
    requires is_defined { rule.reference ≡ None }
    requires is_named { rule.name ≡ Some name }
    ensures adds { OnOk result ((files : Files) → Adds files path.now rule_set.now progress.old (part.Rule rule) progress.new) }
    ensures fault { IfErr result (IfOwn (IsDefinitionFault path.now rule_set.now progress.old rule)) }
{
    let is_new = progress.names.put(name.copied()?)?;
    if !is_new {
        return Err(refused(path, RuleWhat::SameName(name)));
    }
    let entry = defined_entry(alloc, parser, path, rule_set, &name, rule)?;
    let origin = Origin {
        is_reference: false,
        path: path.copied()?,
        text: name,
    };
    progress.list.put(origin, entry)?;
    Ok(())
}

/// Takes a rule that the file of a path and a ruleset defines.
pub fn define(
    alloc: Global,
    parser: &Parser,
    path: &Text,
    rule_set: &Text,
    progress: &mut Progress,
    rule: WrittenRule,
) -> Result<(), RuleRefused>
    requires { rule.reference ≡ None }
    ensures adds { OnOk result ((files : Files) → Adds files path.now rule_set.now progress.old (part.Rule rule) progress.new) }
    ensures fault { IfErr result (IfOwn (λ refusal. (files : Files) → (is_top : Bool) → (open_ : List (List ℕ)) → PartFault files is_top open_ path.now rule_set.now progress.old (part.Rule rule) refusal)) }
{
    let name = Copied::copied(&rule.name)?;
    match name {
        Some(name) => define_named(alloc, parser, path, rule_set, progress, name, rule),
        None => Err(refused(path, RuleWhat::NoName(rule.offset))),
    }
}
