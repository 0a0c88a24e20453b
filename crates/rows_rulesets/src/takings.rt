//! What is taken into a list of rules.
use pj_base::{ListOf, NoMemory, Text};
use pj_names::{ConfigError, RuleRow};
use pj_rule_sets::{Entry, Origin, RuleTable, Unusable, UsableRule};
use pj_rule_texts::{Properties, RuleTexts};
use pj_xparse::Parser;
use std::alloc::Global;

/// A taking: the file, the name that it defines or that a reference has, and the name under which the rule stands; a reference to what is
/// not available stands under none.
#[derive(Clone, Copy)]
struct Taking<'t> {
    file: &'t str,
    name: &'t str,
    under: Option<&'t str>,
}

/// The taking that is written so.
fn read_taking(written: &str) -> Option<Taking<'_>> {
    if let Some(reference) = written.strip_prefix("(") {
        let (file, name) = reference.strip_suffix(")")?.split_once('/')?;
        return Some(Taking {
            file,
            name,
            under: None,
        });
    }
    let (file, rest) = written.split_once('/')?;
    let (name, under) = rest.split_once('=')?;
    Some(Taking {
        file,
        name,
        under: Some(under),
    })
}

/// Where it is taken from.
fn origin(alloc: Global, taking: &Taking<'_>) -> Result<Origin, NoMemory> {
    let path = Text::from_str(alloc, taking.file)?;
    let text = Text::from_str(alloc, taking.name)?;
    let is_reference = taking.under.is_none();
    Ok(Origin {
        is_reference,
        path,
        text,
    })
}

/// A rule's row without a message.
fn row_of(alloc: Global, name: Text, priority: u8) -> RuleRow {
    RuleRow {
        name,
        message: Text::new(alloc),
        priority,
        rule_set: Text::new(alloc),
    }
}

/// The texts of a rule without properties.
fn texts_of(alloc: Global, row: RuleRow, xpath: Text) -> RuleTexts {
    RuleTexts {
        row,
        xpath,
        properties: Properties::new(alloc),
    }
}

/// The texts of a rule of this name and priority.
fn texts(alloc: Global, name: &str, priority: u8) -> Result<RuleTexts, NoMemory> {
    let xpath = Text::from_str(alloc, ".")?;
    let name = Text::from_str(alloc, name)?;
    Ok(texts_of(alloc, row_of(alloc, name, priority), xpath))
}

/// A rule of this name and priority.
fn rule(alloc: Global, name: &str, priority: u8) -> Result<UsableRule, NoMemory> {
    let parser = Parser::new(alloc)?;
    // The query is one, so nothing but memory can be wanting.
    match UsableRule::of(alloc, &parser, texts(alloc, name, priority)?) {
        Ok(rule) => Ok(rule),
        Err(_) => Err(NoMemory),
    }
}

/// A reference to what is not available.
fn reference(alloc: Global, text: Text) -> Unusable {
    let error = ConfigError {
        rule: text,
        message: Text::new(alloc),
    };
    Unusable { name: None, error }
}

/// The rule, which has the number of its taking as its priority, or the reference.
fn entry(alloc: Global, taking: &Taking<'_>, number: u8) -> Result<Entry, NoMemory> {
    match taking.under {
        None => Ok(Entry::Unusable(reference(alloc, Text::from_str(alloc, taking.name)?))),
        Some(under) => Ok(Entry::Rule(rule(alloc, under, number)?)),
    }
}

/// Puts what is taken, with its number.
fn put_taking(
    alloc: Global,
    table: &mut RuleTable,
    taking: &Taking<'_>,
    number: u8,
) -> Result<(), NoMemory> {
    let origin = origin(alloc, taking)?;
    table.put(origin, entry(alloc, taking, number)?)
}

/// Puts these takings, with numbers from 1; what is none is left out.
fn put_takings(alloc: Global, table: &mut RuleTable, written: &str) -> Result<(), NoMemory> {
    let mut number = 1u8;
    for word in written.split(' ') {
        if let Some(taking) = read_taking(word) {
            put_taking(alloc, table, &taking, number)?;
        }
        number = number.saturating_add(1);
    }
    Ok(())
}

/// A table of these takings.
fn table(alloc: Global, written: &str) -> Result<RuleTable, NoMemory> {
    let mut table = RuleTable::new(alloc);
    put_takings(alloc, &mut table, written)?;
    Ok(table)
}

/// The list that these takings make.
pub fn list(alloc: Global, written: &str) -> Result<ListOf<(Origin, Entry)>, NoMemory> {
    let table = table(alloc, written)?;
    table.into_list(alloc)
}
