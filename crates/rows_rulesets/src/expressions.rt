//! The expressions of rules that stand in a file, why there are none, and patterns that match a whole text.
use crate::brackets::{pair, unread};
use crate::elements::rule_texts_of;
use crate::pieces::joined;
use pj_base::NoMemory;
use pj_rows::{Row, Section, Table};
use pj_rule_sets::{ExpressionFault, RuleExpressions, UsableRule, expressions_of, whole};
use pj_rule_texts::RuleTexts;
use pj_xparse::{Parser, XSyntax};
use pj_xpatterns::{CompiledPattern, PatternFault};
use std::alloc::Global;

/// The table of `rule_expressions.rows`.
pub struct RuleExpressionsTable;

/// Puts the variables of the expressions, whether there is one that suppresses findings, and whether the message is covered.
fn put_expressions(out: &mut String, expressions: &RuleExpressions) -> Result<(), NoMemory> {
    out.push_str("query")?;
    for (name, _) in expressions.variables.as_slice() {
        out.push_str(" $")?;
        out.push_str(name.as_str())?;
    }
    if expressions.suppression.is_some() {
        out.push_str(", suppression")?;
    }
    if expressions.is_covered {
        out.push_str(", covered")?;
    }
    Ok(())
}

/// Expressions.
fn expressions_shown(alloc: Global, expressions: &RuleExpressions) -> Result<String, NoMemory> {
    let mut out = String::new(alloc);
    put_expressions(&mut out, expressions)?;
    Ok(out)
}

/// Why a text is no expression.
fn syntax(alloc: Global, fault: &XSyntax) -> Result<String, NoMemory> {
    match fault {
        XSyntax::UnknownVariable(name) => {
            let name = name.as_str();
            Ok(format!(in alloc; "! UnknownVariable {name}")?)
        }
        XSyntax::UnknownFunction(name, at) => {
            let name = name.as_str();
            Ok(format!(in alloc; "! UnknownFunction {name} {at}")?)
        }
        XSyntax::Expected(at) => Ok(format!(in alloc; "! Expected {at}")?),
        _ => Ok(String::from_str(alloc, "! another fault")?),
    }
}

/// Why there are no expressions.
fn refusal(alloc: Global, fault: &ExpressionFault) -> Result<String, NoMemory> {
    match fault {
        ExpressionFault::XPath(fault) => syntax(alloc, fault),
        ExpressionFault::Pattern => Ok(String::from_str(alloc, "! Pattern")?),
        ExpressionFault::Memory => Err(NoMemory),
    }
}

/// What the texts of a rule spell.
fn spelled(alloc: Global, texts: &RuleTexts) -> Result<String, NoMemory> {
    let parser = Parser::new(alloc)?;
    match expressions_of(alloc, &parser, texts) {
        Ok(expressions) => expressions_shown(alloc, &expressions),
        Err(fault) => refusal(alloc, &fault),
    }
}

/// The priority and the expressions of a rule.
fn parts_shown(
    alloc: Global,
    texts: &RuleTexts,
    expressions: &RuleExpressions,
) -> Result<String, NoMemory> {
    let priority = texts.row.priority;
    let mut out = format!(in alloc; "{priority} ")?;
    put_expressions(&mut out, expressions)?;
    Ok(out)
}

/// What a rule has that can be used.
fn rule_shown(alloc: Global, rule: UsableRule) -> Result<String, NoMemory> {
    let (texts, expressions) = rule.into_parts();
    parts_shown(alloc, &texts, &expressions)
}

/// The texts of a rule with these properties.
fn texts(alloc: Global, properties: &str) -> Result<Option<RuleTexts>, NoMemory> {
    let front = "<rule name='N' message='one two'><properties>";
    let element = joined(alloc, &[front, properties, "</properties></rule>"])?;
    rule_texts_of(alloc, element.as_str())
}

/// What a rule with these properties spells.
fn of_properties(alloc: Global, properties: &str) -> Result<String, NoMemory> {
    match texts(alloc, properties)? {
        Some(texts) => spelled(alloc, &texts),
        None => unread(alloc),
    }
}

/// What a rule spells that has these texts in the place of its own.
fn changed_to(
    alloc: Global,
    parser: &Parser,
    old: &UsableRule,
    texts: RuleTexts,
) -> Result<String, NoMemory> {
    match old.changed(alloc, parser, texts) {
        Ok(new) => rule_shown(alloc, new),
        Err(fault) => refusal(alloc, &fault),
    }
}

/// What a rule spells that has these properties in the place of its own.
fn changed(
    alloc: Global,
    parser: &Parser,
    old: &UsableRule,
    properties: &str,
) -> Result<String, NoMemory> {
    match texts(alloc, properties)? {
        Some(texts) => changed_to(alloc, parser, old, texts),
        None => unread(alloc),
    }
}

/// The same of a rule of these texts.
fn changed_of(
    alloc: Global,
    parser: &Parser,
    old: RuleTexts,
    properties: &str,
) -> Result<String, NoMemory> {
    match UsableRule::of(alloc, parser, old) {
        Ok(old) => changed(alloc, parser, &old, properties),
        Err(fault) => refusal(alloc, &fault),
    }
}

/// What a rule with the first properties spells that has the second ones in their place.
fn change(alloc: Global, before: &str, behind: &str) -> Result<String, NoMemory> {
    let parser = Parser::new(alloc)?;
    match texts(alloc, before)? {
        Some(old) => changed_of(alloc, &parser, old, behind),
        None => unread(alloc),
    }
}

/// Whether the pattern matches the whole text.
fn matched(alloc: Global, pattern: &CompiledPattern, text: &str) -> Result<String, NoMemory> {
    let is_found = pattern.is_found(alloc, text)?;
    Ok(String::from_str(alloc, if is_found { "matches" } else { "differs" })?)
}

/// The same of a pattern that may be refused.
fn judged(alloc: Global, pattern: &str, text: &str) -> Result<String, NoMemory> {
    match whole(alloc, pattern) {
        Ok(pattern) => matched(alloc, &pattern, text),
        Err(PatternFault::Refused(_)) => Ok(String::from_str(alloc, "! refused")?),
        Err(PatternFault::Memory) => Err(NoMemory),
    }
}

impl Table for RuleExpressionsTable {
    fn has_setting(&self, name: &str) -> bool {
        name == "asks"
    }

    fn answer(&self, alloc: Global, section: &Section, row: &Row) -> Result<String, NoMemory> {
        let given = row.given.as_str();
        match section.setting("asks") {
            None => of_properties(alloc, given),
            Some("change") => match given.split_once("\nbecomes\n") {
                Some((before, behind)) => change(alloc, before, behind),
                None => unread(alloc),
            },
            Some("pattern") => match pair(given) {
                Some((pattern, text)) => judged(alloc, pattern, text),
                None => unread(alloc),
            },
            Some(_) => unread(alloc),
        }
    }
}
