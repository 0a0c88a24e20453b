//! Keys of the rules of rulesets.
use crate::shown::put_key;
use pj_base::{NoMemory, Text};
use pj_outside::MemTree;
use pj_row_folders::{Short, folder_of, split_command, tree_of, words_of};
use pj_rows::{Row, Section, Table};
use pj_rule_keys::{list_key, rule_key};
use pj_rule_sets::RuleSet;
use pj_rules::{RuleRefused, load};
use std::alloc::Global;

/// The table.
pub struct KeyTable;

/// What a sign in the texts of rulesets stands for: the class of XPath rules.
static SHORTS: [Short; 1] = [(
    "~",
    " class=\"net.sourceforge.pmd.lang.rule.xpath.XPathRule\"",
)];

/// The keys of all rules of a set, each on its own, in their order.
fn keys_shown(alloc: Global, set: &RuleSet) -> Result<String, NoMemory> {
    let mut out = String::new(alloc);
    let count = u32::try_from(set.rules().len()).unwrap_or(0);
    for rule in 0..count {
        if rule as usize >= set.rules().len() {
            return Ok(out);
        }
        if rule > 0 {
            out.push_str("; ")?;
        }
        put_key(&mut out, rule_key(alloc, set, rule)?.as_slice())?;
    }
    Ok(out)
}

/// The key of all rules of a set together.
fn list_shown(alloc: Global, set: &RuleSet) -> Result<String, NoMemory> {
    let mut out = String::new(alloc);
    put_key(&mut out, list_key(alloc, set)?.as_slice())?;
    Ok(out)
}

/// What a load of paths answers, with a marker.
fn loaded(
    alloc: Global,
    tree: &mut MemTree,
    paths: &str,
    marker: &str,
) -> Result<RuleSet, RuleRefused> {
    let names = words_of(alloc, paths)?;
    let marker = Text::from_str(alloc, marker)?;
    load(alloc, tree, &names, 5, &marker)
}

impl Table for KeyTable {
    fn has_setting(&self, name: &str) -> bool {
        matches!(name, "asks" | "file" | "marker" | "run")
    }

    fn answer(&self, alloc: Global, section: &Section, row: &Row) -> Result<String, NoMemory> {
        let (given, command) = split_command(section, row.given.as_str());
        let Some(paths) = command.strip_prefix("load ") else {
            return Ok(String::from_str(alloc, "! the command is no load")?);
        };
        let files = folder_of(alloc, &SHORTS, section, given)?;
        let mut tree = tree_of(alloc, files, None)?;
        let marker = section.setting("marker").unwrap_or("NOPMD");
        match loaded(alloc, &mut tree, paths, marker) {
            Ok(set) if section.setting("asks") == Some("list") => list_shown(alloc, &set),
            Ok(set) => keys_shown(alloc, &set),
            Err(_) => Ok(String::from_str(alloc, "! the rulesets are refused")?),
        }
    }
}
