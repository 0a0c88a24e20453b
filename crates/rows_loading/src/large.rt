//! Loads of rulesets that are made by numbers.
use crate::loaded::loaded;
use crate::loading::SHORTS;
use crate::refusal::refusal;
use crate::shown::{counts_shown, set_shown};
use pj_base::NoMemory;
use pj_outside::MemTree;
use pj_row_folders::{folder_of, tree_of};
use pj_rows::{Row, Section, Table};
use pj_rule_sets::RuleSet;
use std::alloc::Global;
use std::fmt::Write;

/// The table of large rulesets.
pub struct Large;

/// Puts so many rules that can be used.
fn put_rules(text: &mut String, count: u32) -> Result<(), NoMemory> {
    for n in 0..count {
        write!(text, "<rule name=\"N{n}\"~>#</rule>")?;
    }
    Ok(())
}

/// Puts so many rules that cannot be used.
fn put_unusable(text: &mut String, count: u32) -> Result<(), NoMemory> {
    for n in 0..count {
        write!(text, "<rule name=\"J{n}\"/>")?;
    }
    Ok(())
}

/// A file of so many rules, and as many more that cannot be used.
fn many(alloc: Global, rules: u32, unusable: u32) -> Result<String, NoMemory> {
    let mut text = String::from_str(alloc, "//- r.xml <ruleset>")?;
    put_rules(&mut text, rules)?;
    put_unusable(&mut text, unusable)?;
    text.push_str("</ruleset>")?;
    Ok(text)
}

/// Puts the file of a number in a chain of such a length: a reference to the next one, and a rule where it has one or is the last one.
fn put_link(text: &mut String, number: u32, length: u32, has_rule: bool) -> Result<(), NoMemory> {
    let next = number.saturating_add(1);
    write!(text, "//- {number}.xml <ruleset>")?;
    if next < length {
        write!(text, "<rule ref=\"{next}.xml\"/>")?;
    }
    if has_rule || next == length {
        write!(text, "<rule name=\"N{number}\"~>#</rule>")?;
    }
    text.push_str("</ruleset>\n")?;
    Ok(())
}

/// A chain of so many files, each of which refers to the next one; the last one defines a rule, and where that is wanted each does.
fn chain(alloc: Global, length: u32, has_rules: bool) -> Result<String, NoMemory> {
    let mut text = String::new(alloc);
    for number in 0..length {
        put_link(&mut text, number, length, has_rules)?;
    }
    Ok(text)
}

/// What a section asks of a set: how many rules and configuration errors it has, or which ones.
fn of_set(alloc: Global, section: &Section, set: &RuleSet) -> Result<String, NoMemory> {
    if section.has("counts") {
        counts_shown(alloc, set)
    } else {
        set_shown(alloc, set)
    }
}

/// What a section asks of a load.
fn of_tree(
    alloc: Global,
    section: &Section,
    tree: &mut MemTree,
    paths: &str,
) -> Result<String, NoMemory> {
    match loaded(alloc, tree, paths) {
        Ok(set) => of_set(alloc, section, &set),
        Err(refused) => refusal(alloc, &refused),
    }
}

/// The number that a text is, or 0.
fn number_of(text: &str) -> u32 {
    text.parse::<u32>().unwrap_or(0)
}

/// The files that are written so: `chain 50`, `rules 50`, where each file of the chain has a rule, or `10 1990`, how many rules there are and
/// how many that cannot be used.
fn files_of(alloc: Global, written: &str) -> Result<String, NoMemory> {
    let (first, second) = written.split_once(' ').unwrap_or((written, ""));
    match first {
        "chain" => chain(alloc, number_of(second), false),
        "rules" => chain(alloc, number_of(second), true),
        _ => many(alloc, number_of(first), number_of(second)),
    }
}

impl Table for Large {
    fn has_setting(&self, name: &str) -> bool {
        name == "counts"
    }

    fn answer(&self, alloc: Global, section: &Section, row: &Row) -> Result<String, NoMemory> {
        let given = row.given.as_str();
        let (written, paths) = given.split_once(" of ").unwrap_or((given, ""));
        let text = files_of(alloc, written)?;
        let files = folder_of(alloc, &SHORTS, section, text.as_str())?;
        let mut tree = tree_of(alloc, files, None)?;
        of_tree(alloc, section, &mut tree, paths)
    }
}
