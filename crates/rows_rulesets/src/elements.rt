//! Rules as their elements define and change them.
use crate::brackets::{put_bracketed, unread};
use crate::pieces::joined;
use crate::rule_texts::yes_or_no;
use pj_base::{Copied, NoMemory, Text};
use pj_markup::{Markup, MarkupFault, read};
use pj_rule_texts::{
    Part, Property, RuleTexts, TextFault, WrittenRule, defined, is_xpath_rule, overridden,
    written_ruleset,
};
use std::alloc::Global;

/// The first rule of what is written in markup.
fn first_rule(alloc: Global, markup: &Markup) -> Result<Option<WrittenRule>, NoMemory> {
    let Some(ruleset) = written_ruleset(alloc, markup)? else {
        return Ok(None);
    };
    for part in ruleset.parts.into_vec() {
        if let Part::Rule(rule) = part {
            return Ok(Some(rule));
        }
    }
    Ok(None)
}

/// The first rule of a ruleset of this text.
fn rule_in(alloc: Global, text: &str) -> Result<Option<WrittenRule>, NoMemory> {
    if text.len() > 100_000 {
        return Ok(None);
    }
    match read(alloc, text) {
        Ok(markup) => first_rule(alloc, &markup),
        Err(MarkupFault::Memory) => Err(NoMemory),
        Err(_) => Ok(None),
    }
}

/// The rule that is written in an element.
fn rule_of(alloc: Global, element: &str) -> Result<Option<WrittenRule>, NoMemory> {
    let text = joined(alloc, &["<ruleset>", element, "</ruleset>"])?;
    rule_in(alloc, text.as_str())
}

/// Puts a property with its type and its value.
fn put_property(out: &mut String, property: &Property) -> Result<(), NoMemory> {
    out.push(' ')?;
    out.push_str(property.name.as_str())?;
    out.push(':')?;
    out.push_str(property.kind.as_str())?;
    out.push('=')?;
    put_bracketed(out, property.value.as_str())
}

/// A rule's name, message, priority, query and properties.
fn texts_shown(alloc: Global, texts: &RuleTexts) -> Result<String, NoMemory> {
    let row = &texts.row;
    let (name, message, priority) = (row.name.as_str(), row.message.as_str(), row.priority);
    let xpath = texts.xpath.as_str();
    let mut out = format!(in alloc; "{name} [{message}] {priority} [{xpath}]")?;
    for property in texts.properties.as_slice() {
        put_property(&mut out, property)?;
    }
    Ok(out)
}

/// The texts of a rule, or why there are none.
fn shown(alloc: Global, outcome: &Result<RuleTexts, TextFault>) -> Result<String, NoMemory> {
    match outcome {
        Ok(texts) => texts_shown(alloc, texts),
        Err(TextFault::BadPriority) => Ok(String::from_str(alloc, "! BadPriority")?),
        Err(TextFault::BadProperty) => Ok(String::from_str(alloc, "! BadProperty")?),
        Err(TextFault::NoXPath) => Ok(String::from_str(alloc, "! NoXPath")?),
        Err(TextFault::Memory) => Err(NoMemory),
    }
}

/// The name of a rule, empty where it has none.
fn name_of(alloc: Global, rule: &WrittenRule) -> Result<Text, NoMemory> {
    match &rule.name {
        Some(name) => name.copied(),
        None => Ok(Text::new(alloc)),
    }
}

/// The texts of a rule under its name.
fn named(alloc: Global, rule: WrittenRule) -> Result<RuleTexts, TextFault> {
    let name = name_of(alloc, &rule)?;
    defined(alloc, Text::new(alloc), name, rule)
}

/// The texts of the rule that an element defines, if it defines one.
pub fn rule_texts_of(alloc: Global, element: &str) -> Result<Option<RuleTexts>, NoMemory> {
    match rule_of(alloc, element)? {
        Some(rule) => Ok(named(alloc, rule).ok()),
        None => Ok(None),
    }
}

/// Whether an element is a rule in XPath over Java.
pub fn is_usable(alloc: Global, element: &str) -> Result<String, NoMemory> {
    match rule_of(alloc, element)? {
        Some(rule) => yes_or_no(alloc, is_xpath_rule(&rule)),
        None => unread(alloc),
    }
}

/// The rule that an element defines.
pub fn definition(alloc: Global, element: &str) -> Result<String, NoMemory> {
    match rule_of(alloc, element)? {
        Some(rule) => shown(alloc, &named(alloc, rule)),
        None => unread(alloc),
    }
}

/// The rule of these texts as an element with a reference changes it.
fn changed(alloc: Global, texts: &RuleTexts, reference: &str) -> Result<String, NoMemory> {
    match rule_of(alloc, reference)? {
        Some(rule) => shown(alloc, &overridden(alloc, texts, rule)),
        None => unread(alloc),
    }
}

/// The rule that the first element defines as the second one, which refers to it, changes it.
pub fn change(alloc: Global, element: &str, reference: &str) -> Result<String, NoMemory> {
    match rule_texts_of(alloc, element)? {
        Some(texts) => changed(alloc, &texts, reference),
        None => unread(alloc),
    }
}
