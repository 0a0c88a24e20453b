//! Files that are read as rulesets, and why others are none.
use crate::brackets::{inside, put_bracketed, unread};
use pj_base::NoMemory;
use pj_outside::{Files, MemTree};
use pj_row_folders::{failing_call, put_file, tree_of};
use pj_rows::{Row, Section, Table};
use pj_rule_texts::{FileFault, FileRefused, Part, WrittenRule, WrittenRuleset, read_ruleset};
use std::alloc::Global;

/// The table of `rule_files.rows`.
pub struct RuleFilesTable;

/// Puts a word and a text in brackets.
fn put_named(out: &mut String, word: &str, text: &str) -> Result<(), NoMemory> {
    out.push_str(word)?;
    out.push(' ')?;
    put_bracketed(out, text)
}

/// Puts a rule or a reference.
fn put_rule(out: &mut String, rule: &WrittenRule) -> Result<(), NoMemory> {
    if let Some(reference) = &rule.reference {
        return put_named(out, "reference", reference.as_str());
    }
    match &rule.name {
        Some(name) => put_named(out, "rule", name.as_str()),
        None => {
            out.push_str("rule")?;
            Ok(())
        }
    }
}

/// Puts a part.
fn put_part(out: &mut String, part: &Part) -> Result<(), NoMemory> {
    match part {
        Part::Rule(rule) => put_rule(out, rule),
        Part::ExcludePattern(pattern) => put_named(out, "exclude", pattern.as_str()),
        Part::IncludePattern(pattern) => put_named(out, "include", pattern.as_str()),
    }
}

/// The name of a ruleset, and its parts.
fn ruleset_shown(alloc: Global, ruleset: &WrittenRuleset) -> Result<String, NoMemory> {
    let mut out = String::new(alloc);
    put_bracketed(&mut out, ruleset.rule_set.as_str())?;
    for part in ruleset.parts.as_slice() {
        out.push_str("; ")?;
        put_part(&mut out, part)?;
    }
    Ok(out)
}

/// Why there is no ruleset.
fn refusal(alloc: Global, refused: FileRefused) -> Result<String, NoMemory> {
    match refused {
        FileRefused::Fault(FileFault::Markup(at)) => Ok(format!(in alloc; "! Markup {at}")?),
        FileRefused::Fault(FileFault::TooLong) => Ok(String::from_str(alloc, "! TooLong")?),
        FileRefused::Failed => Ok(String::from_str(alloc, "! Failed")?),
        FileRefused::Memory => Err(NoMemory),
    }
}

/// What reading a path of a tree gives.
fn read_shown(alloc: Global, tree: &mut MemTree, path: &str) -> Result<String, NoMemory> {
    match read_ruleset(alloc, tree, path) {
        Ok(Some(ruleset)) => ruleset_shown(alloc, &ruleset),
        Ok(None) => Ok(String::from_str(alloc, "absent")?),
        Err(refused) => refusal(alloc, refused),
    }
}

/// What reading a path gives where the file `a.xml` has this text, and the call of a number fails.
fn read_of(alloc: Global, text: &str, path: &str, call: Option<u32>) -> Result<String, NoMemory> {
    let mut files = Files::new(alloc);
    put_file(alloc, &mut files, "a.xml", text)?;
    let mut tree = tree_of(alloc, files, call)?;
    read_shown(alloc, &mut tree, path)
}

/// The path and the number of the call that fails, of a row of paths.
fn path_and_call(given: &str) -> Option<(&str, u32)> {
    let (path, call) = given.split_once(", ")?;
    Some((inside(path)?, failing_call(call)?))
}

impl Table for RuleFilesTable {
    fn has_setting(&self, name: &str) -> bool {
        name == "file"
    }

    fn answer(&self, alloc: Global, section: &Section, row: &Row) -> Result<String, NoMemory> {
        let given = row.given.as_str();
        match section.setting("file") {
            None => read_of(alloc, given, "a.xml", None),
            Some(text) => match path_and_call(given) {
                Some((path, call)) => read_of(alloc, text, path, Some(call)),
                None => unread(alloc),
            },
        }
    }
}
