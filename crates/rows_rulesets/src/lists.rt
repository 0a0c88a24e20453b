//! Lists of rules, each rule once.
use crate::brackets::{inside, unread};
use crate::takings::list;
use pj_base::{ListOf, Names, NoMemory, Text};
use pj_rows::{Row, Section, Table, put_between};
use pj_rule_sets::{Entry, NameSet, Origin, RuleTable, named, put_without};
use std::alloc::Global;

/// The table of `rule_lists.rows`.
pub struct RuleListsTable;

/// Puts a rule with the number of its taking, or a reference.
fn put_entry(out: &mut String, entry: &Entry) -> Result<(), NoMemory> {
    match entry {
        Entry::Rule(rule) => {
            let row = &rule.texts().row;
            let (name, number) = (row.name.as_str(), row.priority);
            write!(out, "{name}{number}")?;
        }
        Entry::Unusable(unusable) => {
            let text = unusable.error.rule.as_str();
            write!(out, "({text})")?;
        }
    }
    Ok(())
}

/// Puts `nothing` where there is nothing.
fn or_nothing(out: String) -> Result<String, NoMemory> {
    if out.is_empty() {
        return Ok(String::from_str(*out.allocator(), "nothing")?);
    }
    Ok(out)
}

/// A list, with blanks between its members.
fn shown(alloc: Global, list: &[(Origin, Entry)]) -> Result<String, NoMemory> {
    let mut out = String::new(alloc);
    for taken in list {
        put_between(&mut out, " ")?;
        put_entry(&mut out, &taken.1)?;
    }
    or_nothing(out)
}

/// The number of the first rule of a name.
fn number_of(alloc: Global, name: &str, list: &[(Origin, Entry)]) -> Result<String, NoMemory> {
    match named(name, list) {
        Some((_, Entry::Rule(rule))) => Ok(rule.texts().row.priority.to_string(alloc)?),
        _ => Ok(String::from_str(alloc, "none")?),
    }
}

/// The words of a text.
fn words_of(alloc: Global, text: &str) -> Result<Names, NoMemory> {
    let mut words = Names::new(alloc);
    for word in text.split(' ') {
        if !word.is_empty() {
            words.push(Text::from_str(alloc, word)?)?;
        }
    }
    Ok(words)
}

/// A table of the rules but those that are excluded.
fn table_without(
    alloc: Global,
    excludes: &[Text],
    list: &[(Origin, Entry)],
) -> Result<RuleTable, NoMemory> {
    let mut table = RuleTable::new(alloc);
    put_without(excludes, list, &mut table)?;
    Ok(table)
}

/// The rules but those that are excluded.
fn list_without(
    alloc: Global,
    excludes: &[Text],
    list: &[(Origin, Entry)],
) -> Result<ListOf<(Origin, Entry)>, NoMemory> {
    let table = table_without(alloc, excludes, list)?;
    table.into_list(alloc)
}

/// A list without the rules of these names.
fn shown_without(alloc: Global, names: &str, list: &[(Origin, Entry)]) -> Result<String, NoMemory> {
    let excludes = words_of(alloc, names)?;
    let left = list_without(alloc, excludes.as_slice(), list)?;
    shown(alloc, left.as_slice())
}

/// Puts whether a name is new among those before it.
fn put_sign(out: &mut String, set: &mut NameSet, name: Text) -> Result<(), NoMemory> {
    put_between(out, " ")?;
    let is_new = set.put(name)?;
    out.push(if is_new { '+' } else { '-' })?;
    Ok(())
}

/// Puts whether each name is new among those before it.
fn put_signs(out: &mut String, set: &mut NameSet, names: Names) -> Result<(), NoMemory> {
    for name in names.into_vec() {
        put_sign(out, set, name)?;
    }
    Ok(())
}

/// Whether each name is new among those before it.
fn signs(alloc: Global, names: &str) -> Result<String, NoMemory> {
    let names = words_of(alloc, names)?;
    let mut out = String::new(alloc);
    let mut set = NameSet::new(alloc);
    put_signs(&mut out, &mut set, names)?;
    or_nothing(out)
}

/// What is found in the list of a section.
fn of_list(
    alloc: Global,
    asks: &str,
    given: &str,
    list: &[(Origin, Entry)],
) -> Result<String, NoMemory> {
    match asks {
        "named" => match inside(given) {
            Some(name) => number_of(alloc, name, list),
            None => unread(alloc),
        },
        "without" => shown_without(alloc, given, list),
        _ => unread(alloc),
    }
}

/// The list that takings make.
fn list_shown(alloc: Global, takings: &str) -> Result<String, NoMemory> {
    let list = list(alloc, takings)?;
    shown(alloc, list.as_slice())
}

impl Table for RuleListsTable {
    fn has_setting(&self, name: &str) -> bool {
        name == "asks" || name == "takings"
    }

    fn answer(&self, alloc: Global, section: &Section, row: &Row) -> Result<String, NoMemory> {
        let given = row.given.as_str();
        match section.setting("asks").unwrap_or("") {
            "list" => list_shown(alloc, given),
            "new" => signs(alloc, given),
            asks => {
                let list = list(alloc, section.setting("takings").unwrap_or(""))?;
                of_list(alloc, asks, given, list.as_slice())
            }
        }
    }
}
