//! The texts of rules.
ghost use Rattle.std.specs.Prelude.{◌≡◌, IfOk, unwrap_or};
ghost use Rattle.std.specs.Option.{option_map};
ghost use Rattle.pj_rule_texts.specs.Rules.{Answers, changed_row, defined, draft_of, is_java, is_xpath_class, is_xpath_rule, message_or, overridden, with_xpath};

use crate::draft::{Draft, with_pieces};
use crate::fault::TextFault;
use crate::properties::{Properties, PropertyTable};
use crate::spaces::normalized;
use crate::written::WrittenRule;
use pj_base::{Copied, NoMemory, Text, is_same_text};
use pj_names::RuleRow;
use std::alloc::Global;

/// The texts of a rule: all that a ruleset says of it.
#[derive(Debug, PartialEq, Eq, Drop)]
pub struct RuleTexts {
    /// Its name, message and priority, and the name of the ruleset that defines it.
    pub row: RuleRow,
    /// The property `xpath`.
    pub xpath: Text,
    /// The other properties, in order, of which no two have one name.
    pub properties: Properties,
}

impl Copied for RuleTexts {
    fn copied(&self) -> Result<RuleTexts, NoMemory> {
        Ok(RuleTexts {
            row: self.row.copied()?,
            xpath: self.xpath.copied()?,
            properties: self.properties.copied()?,
        })
    }
}

/// Whether the element is an XPath rule for Java: of no other language, and of one of the two classes.
pub fn is_xpath_rule(rule: &WrittenRule) -> bool
    ensures { result ≡ is_xpath_rule rule.now }
{
    is_java(&rule.language) && is_xpath_class(&rule.class)
}

/// Whether a language is Java, as it is where none is named.
fn is_java(language: &Option<Text>) -> bool
    ensures { result ≡ is_java language.now }
{
    match language {
        None => true,
        Some(language) => is_same_text(language.as_str(), "java"),
    }
}

/// Whether a class is one of those by which rules are written in XPath.
fn is_xpath_class(class: &Option<Text>) -> bool
    ensures { result ≡ is_xpath_class class.now }
{
    match class {
        None => false,
        Some(class) => {
            let class = class.as_str();
            is_same_text(class, "net.sourceforge.pmd.lang.rule.xpath.XPathRule")
                || is_same_text(class, "net.sourceforge.pmd.lang.rule.XPathRule")
        }
    }
}

/// The message that is written, with its white space normalized, or another where none is.
fn message_or(alloc: Global, absent: Text, written: Option<Text>) -> Result<Text, NoMemory>
    ensures { IfOk result (λ message. message ≡ message_or absent written) }
{
    match written {
        None => Ok(absent),
        Some(message) => normalized(alloc, message.as_str()),
    }
}

/// The texts of a row, a query and the other properties.
fn with_xpath(
    alloc: Global,
    row: RuleRow,
    xpath: Option<Text>,
    properties: PropertyTable,
) -> Result<RuleTexts, TextFault>
    ensures { Answers (with_xpath row xpath properties) result }
{
    match xpath {
        None => Err(TextFault::NoXPath),
        Some(xpath) => Ok(RuleTexts {
            row,
            xpath,
            properties: properties.into_list(alloc)?,
        }),
    }
}

/// The rule of this name that an element of the ruleset defines, or its first fault: `BadPriority` and `BadProperty` at their
/// elements in the order of the text, and at the end `NoXPath`.
pub fn defined(
    alloc: Global,
    rule_set: Text,
    name: Text,
    rule: WrittenRule,
) -> Result<RuleTexts, TextFault>
    ensures { Answers (defined rule_set name rule) result }
{
    let WrittenRule {
        offset: _,
        reference: _,
        name: _,
        language: _,
        class: _,
        message,
        pieces,
        excludes: _,
    } = rule;
    let draft = with_pieces(alloc, false, Draft::new(alloc), pieces.into_vec())?;
    let Draft {
        priority,
        xpath,
        properties,
    } = draft;
    let row = RuleRow {
        name,
        message: message_or(alloc, Text::new(alloc), message)?,
        priority: priority.unwrap_or(5),
        rule_set,
    };
    with_xpath(alloc, row, xpath, properties)
}

/// What is read of a rule that a reference may change.
fn draft_of(alloc: Global, texts: &RuleTexts) -> Result<Draft, NoMemory>
    ensures { IfOk result (λ draft. draft ≡ draft_of texts.now) }
{
    Ok(Draft {
        priority: None,
        xpath: Some(texts.xpath.copied()?),
        properties: PropertyTable::of(alloc, texts.properties.as_slice())?,
    })
}

/// The name that is written, or the rule's own.
fn name_or(own: &RuleRow, written: Option<Text>) -> Result<Text, NoMemory>
    ensures { IfOk result (λ name. name ≡ unwrap_or written own.now.name) }
{
    match written {
        Some(name) => Ok(name),
        None => own.name.copied(),
    }
}

/// The row of a rule with what is written in the place of its own.
fn changed_row(
    alloc: Global,
    own: &RuleRow,
    name: Option<Text>,
    message: Option<Text>,
    priority: Option<u8>,
) -> Result<RuleRow, NoMemory>
    ensures { IfOk result (λ row. row ≡ changed_row own.now name message priority) }
{
    Ok(RuleRow {
        name: name_or(own, name)?,
        message: message_or(alloc, own.message.copied()?, message)?,
        priority: priority.unwrap_or(own.priority),
        rule_set: own.rule_set.copied()?,
    })
}

/// The rule with the name, message, priority and values that the reference writes, or its first fault.
pub fn overridden(
    alloc: Global,
    texts: &RuleTexts,
    rule: WrittenRule,
) -> Result<RuleTexts, TextFault>
    ensures { Answers (overridden texts.now rule) result }
{
    let WrittenRule {
        offset: _,
        reference: _,
        name,
        language: _,
        class: _,
        message,
        pieces,
        excludes: _,
    } = rule;
    let draft = draft_of(alloc, texts)?;
    let draft = with_pieces(alloc, true, draft, pieces.into_vec())?;
    let Draft {
        priority,
        xpath,
        properties,
    } = draft;
    let row = changed_row(alloc, &texts.row, name, message, priority)?;
    with_xpath(alloc, row, xpath, properties)
}
